// Worked cases: dates at an edge, and what the clock shows a second later.
ghost use Rattle.std.specs.Prelude.{◌≡◌};
ghost use Rattle.calendar.specs.Worked.{Holds, case_of, worked};
ghost use Rattle.std.specs.List.{AllByRecursion};

use crate::clock::{Clock, Register};

// Eight bytes, their first bad register, and the bytes one second later.
#[derive(Clone, Copy)]
pub struct Case {
    pub shown: Clock,
    pub bad: Option<Register>,
    pub later: Clock,
}

impl Case {
    fn of(shown: [u8; 8], bad: Option<Register>, later: [u8; 8]) -> Case
        ensures { result ≡ case_of shown bad later }
    {
        Case {
            shown: Clock::from(shown),
            bad,
            later: Clock::from(later),
        }
    }
}

// Turns of the day, the month, the year and the calendar in both hour forms, and a date that does not exist.
#[tactic(auto, unfolding(crate::specs::Dates::first_bad, crate::specs::Next::next))]
pub fn worked_cases() -> [Case; 7]
    ensures value { result ≡ worked }
    ensures hold { AllByRecursion Holds worked }
{
    [
        // 1999-12-31 23:59:59 goes to 2000.
        Case::of(
            [0x59, 0x59, 0xa3, 0x31, 0x12, 0x99, 5, 0x19],
            None,
            [0x00, 0x00, 0x80, 0x01, 0x01, 0x00, 6, 0x20],
        ),
        // 1900-02-28 23:59:59 goes to 1 March.
        Case::of(
            [0x59, 0x59, 0xa3, 0x28, 0x02, 0x00, 3, 0x19],
            None,
            [0x00, 0x00, 0x80, 0x01, 0x03, 0x00, 4, 0x19],
        ),
        // 2000-02-28 23:59:59 goes to 29 February.
        Case::of(
            [0x59, 0x59, 0xa3, 0x28, 0x02, 0x00, 1, 0x20],
            None,
            [0x00, 0x00, 0x80, 0x29, 0x02, 0x00, 2, 0x20],
        ),
        // 2099-12-31 23:59:59 goes to 2000-01-01.
        Case::of(
            [0x59, 0x59, 0xa3, 0x31, 0x12, 0x99, 4, 0x20],
            None,
            [0x00, 0x00, 0x80, 0x01, 0x01, 0x00, 5, 0x20],
        ),
        // Hour 11h at 11:59:59 goes to 32h: from AM to 12:00:00 PM.
        Case::of(
            [0x59, 0x59, 0x11, 0x01, 0x01, 0x00, 6, 0x20],
            None,
            [0x00, 0x00, 0x32, 0x01, 0x01, 0x00, 6, 0x20],
        ),
        // Hour 31h at 11:59:59 goes to 12h: from PM to 12:00:00 AM of the next day.
        Case::of(
            [0x59, 0x59, 0x31, 0x01, 0x01, 0x00, 6, 0x20],
            None,
            [0x00, 0x00, 0x12, 0x02, 0x01, 0x00, 0, 0x20],
        ),
        // 30 February is bad at 33h.
        Case::of(
            [0x00, 0x00, 0x12, 0x30, 0x02, 0x00, 3, 0x20],
            Some(Register::Date),
            [0x00, 0x00, 0x12, 0x30, 0x02, 0x00, 3, 0x20],
        ),
    ]
}
