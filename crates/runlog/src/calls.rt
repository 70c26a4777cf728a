// The calls of a log: what a value line asks for.
ghost use Rattle.std.specs.Prelude.{◌≡◌};
ghost use Rattle.runlog.specs.Calls.{name_of, asked, line_call};

use crate::lines::{SPACE, cut};
use crate::numbers::number;
use chip::calls::Call;

// The name that a value line begins with. It stands by itself, since a line is read name by name and number by number.
#[derive(Clone, Copy, PartialEq, Eq, Debug)]
pub enum Name {
    Level,
    Tick,
    Supply,
}

// What a value line asks for: a call, and how often it is made.
#[derive(Clone, Copy, PartialEq, Eq, Debug)]
pub struct LineCall {
    pub call: Call,
    pub times: u16,
}

impl Name {
    // The name that a word is.
    fn of(word: &[u8]) -> Option<Name>
        ensures { result ≡ name_of word.now }
    {
        match word {
            b"level" => Some(Name::Level),
            b"tick" => Some(Name::Tick),
            b"supply" => Some(Name::Supply),
            _ => None,
        }
    }
}

impl LineCall {
    // What a name with two numbers asks for: after tick and supply the second is 0.
    fn of(name: Name, one: u16, two: u16) -> Option<LineCall>
        ensures { result ≡ asked name one two }
    {
        match name {
            Name::Level => Some(LineCall {
                call: Call::Level { scl: one, sda: two },
                times: 1,
            }),
            Name::Tick if two == 0 => Some(LineCall {
                call: Call::Tick,
                times: one,
            }),
            Name::Supply if two == 0 => Some(LineCall {
                call: Call::Supply { which: one },
                times: 1,
            }),
            Name::Tick | Name::Supply => None,
        }
    }

    // What a value line asks for; none where it cannot be read.
    pub fn read(line: &[u8]) -> Option<LineCall>
        ensures { result ≡ line_call line.now }
    {
        let (name, numbers) = cut(line, SPACE)?;
        let (one, two) = cut(numbers, SPACE)?;
        LineCall::of(Name::of(name)?, number(one)?, number(two)?)
    }
}
