// What the module remembers between calls. Stored bytes are not among it: they are the memory's.
use calendar::clock::Clock;
use chip::calls::Supply;
use chip::slaves::Area;
use chip::wires::Levels;

// Where the module stands in a frame.
#[derive(Clone, Copy)]
pub enum Phase {
    // Waiting for a start.
    Deaf,
    // Taking the bits of a byte. `stage` counts the bytes acknowledged in the frame: 0 the slave byte comes, 1 and 2 an address byte,
    // 3 the first data byte, 4 a further one. By a rule a phase carries plain numbers, so stages are no enum.
    Receiving { stage: u8, bits: u8, shift: u8 },
    // Pulling SDA for the byte just taken.
    Acknowledging { stage: u8, byte: u8 },
    // Sending the bits of a byte, the highest first: `sent` bits are over.
    Sending { sent: u8, byte: u8 },
    // Waiting for the ninth level of a byte sent.
    Listening,
}

// The two write latches.
#[derive(Clone, Copy)]
pub struct Latches {
    pub wel: bool,
    pub rwel: bool,
}

// The places for staged bytes: one for each address of a page, and for each register.
pub const STAGED: usize = 64;

// The data bytes of a write that has not been closed yet: where its first goes, and the last byte sent to each address, by the
// address modulo 64.
#[derive(Clone, Copy)]
pub struct Staging {
    pub address: u16,
    pub held: [Option<u8>; STAGED],
}

// The clock with its divider, and the bytes that wait for the next second mark.
#[derive(Clone, Copy)]
pub struct Timer {
    pub rtcf: bool,
    pub divider: u16,
    pub clock: Clock,
    pub waiting: Option<Clock>,
}

// What is known of the two alarms: that each has matched.
#[derive(Clone, Copy)]
pub struct Alarms {
    pub first: bool,
    pub second: bool,
}

// What a frame copied of clock and status, and which alarms matched since.
#[derive(Clone, Copy)]
pub struct Copies {
    pub clock: Clock,
    pub status: u8,
    pub matched: Alarms,
}

// The whole of it.
#[derive(Clone, Copy)]
pub struct State {
    pub levels: Levels,
    pub supply: Supply,
    pub phase: Phase,
    // The area that the frame's slave byte named, and the high address byte.
    pub area: Area,
    pub high: u8,
    pub counter: u16,
    pub staging: Staging,
    pub latches: Latches,
    // The ticks still to come of a write cycle.
    pub cycle: u8,
    pub timer: Timer,
    pub flags: Alarms,
    pub copies: Copies,
}
