//! Why a memory refuses a call.
ghost use Rattle.std.specs.Prelude.{◌≡◌};
ghost use Rattle.memory.specs.Refusals.{number, life_left};

use std::fmt;

/// What a memory answers where it does not do what it is asked. It is then as before the call.
#[derive(Clone, Copy, PartialEq, Eq, Debug)]
pub enum Refusal {
    /// The memory is unfit.
    Unfit,
    /// The memory has no such place.
    Place,
    /// The memory is worn out: a write at life 0.
    Worn,
    /// The memory will not take the writes that are claimed: its life is below them.
    Short { life: u32 },
}

impl Refusal {
    /// The number of this refusal.
    // No From: two refusals have one number, and the life is not in it.
    pub fn number(self) -> u8
        ensures { result ≡ number self }
    {
        match self {
            Refusal::Unfit => 3,
            Refusal::Place => 4,
            Refusal::Worn | Refusal::Short { life: _ } => 5,
        }
    }

    /// The life that this refusal carries.
    pub fn life_left(self) -> Option<u32>
        ensures { result ≡ life_left self }
    {
        match self {
            Refusal::Short { life } => Some(life),
            Refusal::Unfit | Refusal::Place | Refusal::Worn => None,
        }
    }
}

impl fmt::Display for Refusal {
    fn fmt<W: fmt::Write>(&self, f: &mut fmt::Formatter<W>) -> fmt::Result {
        match self {
            Refusal::Unfit => write!(f, "refused by 3: the memory is unfit"),
            Refusal::Place => write!(f, "refused by 4: no such place"),
            Refusal::Worn => write!(f, "refused by 5: the memory is worn out"),
            Refusal::Short { life } => write!(f, "refused by 5: only {life} writes are left"),
        }
    }
}
