// A script: the calls that the terminal makes, in their order.
ghost use Rattle.std.specs.Prelude.{◌≡◌, ◌<◌, ◌^◌, [], length};
ghost use Rattle.terminal.specs.Calls.{added, nine, received, release_calls, reply_level, restart_calls, sent, start_calls, stop_calls, supply_calls};

use chip::calls::{Call, Supply};
use std::alloc::{AllocError, Global};
use std::array;
use std::marker::Model;

// What the terminal says with the ninth level of a byte that it reads.
#[derive(Clone, Copy, PartialEq, Eq, Debug)]
pub enum Reply {
    More = 0,
    Last = 1,
}

// The ninth level of a byte read.
impl From<Reply> for u16 {
    ghost from_gives = { λ reply level. level ≡ reply_level reply };

    fn from(reply: Reply) -> u16 {
        reply as u16
    }
}

// The calls so far.
#[derive(Drop)]
pub struct Script {
    calls: Vec<Call>,
}

// A script is the list of its calls.
impl Model for Script {
    ghost use Rattle.std.specs.Prelude.{List};
    ghost use Rattle.chip.specs.declared.calls.Call.{Call};

    ghost Value = { List Call };

    ghost view = { λ script. script.calls.items };
}

impl Script {
    // A script without a call.
    pub fn new(heap: Global) -> Script
        ensures { result ≡ [] }
    {
        Script {
            calls: Vec::new(heap),
        }
    }

    // The calls in their order.
    pub fn calls(&self) -> &[Call]
        ensures { result.now ≡ self.now }
    {
        self.calls.as_slice()
    }

    // The number of calls: the row of the next one.
    pub fn mark(&self) -> usize
        ensures row { result ≡ length self.now }
        ensures small { result < 2 ^ 63 }
    {
        self.calls.len()
    }

    // Adds calls, all or none.
    pub(crate) fn add(&mut self, calls: &[Call]) -> Result<(), AllocError>
        ensures { self.new ≡ added result self.old calls.now }
    {
        self.calls.extend_from_slice(calls)
    }

    // Switches the supply.
    pub fn supply(&mut self, supply: Supply) -> Result<(), AllocError>
        ensures { self.new ≡ added result self.old (supply_calls supply) }
    {
        self.add(&[Call::Supply {
            which: supply.into(),
        }])
    }

    // The master's verbs follow. Each adds a list of its own: one verb that is told the list would be `add` again.

    // A start, from both levels high.
    pub fn start(&mut self) -> Result<(), AllocError>
        ensures { self.new ≡ added result self.old start_calls }
    {
        self.add(&[high(0)])
    }

    // A repeated start.
    pub fn restart(&mut self) -> Result<(), AllocError>
        ensures { self.new ≡ added result self.old restart_calls }
    {
        self.add(&[low(1), high(1), high(0)])
    }

    // A stop.
    pub fn stop(&mut self) -> Result<(), AllocError>
        ensures { self.new ≡ added result self.old stop_calls }
    {
        self.add(&[low(0), high(0), high(1)])
    }

    // Sends a byte, and releases SDA for its acknowledge.
    pub fn send(&mut self, byte: u8) -> Result<(), AllocError>
        ensures { self.new ≡ added result self.old (sent byte) }
    {
        self.add(&nine_pulses(byte, 1))
    }

    // Reads a byte with SDA released, and replies.
    pub fn receive(&mut self, reply: Reply) -> Result<(), AllocError>
        ensures { self.new ≡ added result self.old (received reply) }
    {
        self.add(&nine_pulses(0xFF, reply.into()))
    }

    // Frees the wire: ten pulses with SDA released.
    pub fn release(&mut self) -> Result<(), AllocError>
        ensures { self.new ≡ added result self.old release_calls }
    {
        let pulses: [Call; 20] = array::from_fn(|k| if k % 2 == 0 { low(1) } else { high(1) });
        self.add(&pulses)
    }
}

ghost use Rattle.chip.specs.declared.calls.Call.TheVariants.{Level};

// SCL low, with a level on SDA. Two names for the two levels of SCL, since they read as the pulses do.
fn low(sda: u16) -> Call
    ensures { result ≡ Level 0 sda }
{
    Call::Level { scl: 0, sda }
}

// SCL high, with a level on SDA.
fn high(sda: u16) -> Call
    ensures { result ≡ Level 1 sda }
{
    Call::Level { scl: 1, sda }
}

// Eight pulses with the bits of a byte, the highest first, and a ninth. The bits have names, as in the rule that lists them.
fn nine_pulses(byte: u8, ninth: u16) -> [Call; 18]
    ensures { result ≡ nine byte ninth }
{
    let byte = u16::from(byte);
    let (a, b, c, d) = (byte / 128 % 2, byte / 64 % 2, byte / 32 % 2, byte / 16 % 2);
    let (e, f, g, h) = (byte / 8 % 2, byte / 4 % 2, byte / 2 % 2, byte % 2);
    let levels = [a, b, c, d, e, f, g, h, ninth];
    array::from_fn(|k| {
        let level = levels[k / 2];
        if k % 2 == 0 { low(level) } else { high(level) }
    })
}
