// The two wires: what the master gives, what the bus carries, and what moved.
ghost use Rattle.std.specs.Prelude.{◌≡◌};
ghost use Rattle.chip.specs.Wires.{wire, edge_between};

// The levels that the master gives: true is high.
#[derive(Clone, Copy, PartialEq, Eq, Debug)]
pub struct Levels {
    pub scl: bool,
    pub sda: bool,
}

// What one call moved on the wires.
#[derive(Clone, Copy, PartialEq, Eq, Debug)]
pub enum Edge {
    // SDA fell while SCL was and stays high.
    Start,
    // SDA rose while SCL was and stays high.
    Stop,
    // SCL rose; the level is that of the wire SDA then.
    Rise { level: bool },
    // SCL fell.
    Fall,
    // Nothing of these.
    Still,
}

// The wire SDA: low exactly when the master's SDA is low or the module pulls.
fn wire(sda: bool, pulls: bool) -> bool
    ensures { result ≡ wire sda pulls }
{
    sda && !pulls
}

// What moved when the levels go from `before` to `after` under one and the same pull.
pub fn edge_between(before: Levels, pulls: bool, after: Levels) -> Edge
    ensures { result ≡ edge_between before pulls after }
{
    match (before.scl, after.scl) {
        (true, true) => under_high_clock(wire(before.sda, pulls), wire(after.sda, pulls)),
        (false, true) => Edge::Rise {
            level: wire(after.sda, pulls),
        },
        (true, false) => Edge::Fall,
        (false, false) => Edge::Still,
    }
}

ghost use Rattle.chip.specs.Wires.{under_high_clock};

// What a wire that goes from `was` to `is` under a high SCL says.
fn under_high_clock(was: bool, is: bool) -> Edge
    ensures { result ≡ under_high_clock was is }
{
    match (was, is) {
        (true, false) => Edge::Start,
        (false, true) => Edge::Stop,
        (true, true) | (false, false) => Edge::Still,
    }
}
