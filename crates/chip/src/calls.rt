// The calls that a board makes once the module is put together, and which of them are taken.
ghost use Rattle.std.specs.Prelude.{◌≡◌};
ghost use Rattle.chip.specs.Calls.{accepted};

use crate::refusals::{Line, Refusal};
use crate::wires::Levels;

// Where the module's supply comes from; a board names it by a number.
#[derive(Clone, Copy, PartialEq, Eq, Debug)]
pub enum Supply {
    Off = 0,
    Main = 1,
    Battery = 2,
}

// A call with the numbers that the board passed.
#[derive(Clone, Copy, PartialEq, Eq, Debug)]
pub enum Call {
    Level { scl: u16, sda: u16 },
    Tick,
    Supply { which: u16 },
}

// A call that is taken.
#[derive(Clone, Copy, PartialEq, Eq, Debug)]
pub enum Event {
    Given { levels: Levels },
    Ticked,
    Supplied { supply: Supply },
}

// What a board is told after a call: the level that the module leaves on SDA (low where it pulls), and why it refused.
#[derive(Clone, Copy, PartialEq, Eq, Debug)]
pub struct Answer {
    pub sda: bool,
    pub refusal: Option<Refusal>,
}

impl Call {
    // What the call does to the module, or why its numbers are refused: a level above 1, SCL looked at first; a supply above 2.
    pub fn accepted(self) -> Result<Event, Refusal>
        ensures { result ≡ accepted self }
    {
        match self {
            Call::Level { scl, sda } => {
                let scl = Line::Scl.level(scl)?;
                let sda = Line::Sda.level(sda)?;
                Ok(Event::Given {
                    levels: Levels { scl, sda },
                })
            }
            Call::Tick => Ok(Event::Ticked),
            Call::Supply { which } => Ok(Event::Supplied {
                supply: Supply::try_from(which)?,
            }),
        }
    }
}

ghost use Rattle.chip.specs.Calls.{level_of, supply_of, supply_number};

impl Line {
    // The level that a number on this line means. No conversion of a number alone, since the refusal names the line.
    fn level(self, number: u16) -> Result<bool, Refusal>
        ensures { result ≡ level_of self number }
    {
        match number {
            0 => Ok(false),
            1 => Ok(true),
            _ => Err(Refusal::BadLevel { line: self }),
        }
    }
}

// The supply that a number means.
impl TryFrom<u16> for Supply {
    type Error = Refusal;

    ghost try_from_gives = { λ which answer. answer ≡ supply_of which };

    fn try_from(which: u16) -> Result<Supply, Refusal> {
        match which {
            0 => Ok(Supply::Off),
            1 => Ok(Supply::Main),
            2 => Ok(Supply::Battery),
            _ => Err(Refusal::BadSupply),
        }
    }
}

// The number that means a supply.
impl From<Supply> for u16 {
    ghost from_gives = { λ supply which. which ≡ supply_number supply };

    fn from(supply: Supply) -> u16 {
        supply as u16
    }
}
