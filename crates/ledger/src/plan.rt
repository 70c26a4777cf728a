//! The steps planned for a day: the same for every memory that it is worked over.
ghost use Rattle.std.specs.Prelude.{◌≡◌};
ghost use Rattle.ledger.specs.Plan.{planned_step};

use crate::day::Step;

/// The trucks that come in the course of the day.
const FLEET: u16 = 8;

/// The step with this number, or none after the last.
// By its number, so that a contract names one step; a day is walked by `(0..).map_while`.
pub fn planned(n: u16) -> Option<Step>
    ensures { result ≡ planned_step n }
{
    match n {
        0..=7 => Some(Step::SetTare {
            truck: n,
            weight: 6_800 + 420 * u32::from(n),
        }),
        8..=31 => Some(Step::Weigh {
            ticket: n - 8,
            truck: (n - 8) % FLEET,
            gross: 17_500 + 365 * u32::from(n - 8),
        }),
        32 => Some(Step::Weigh {
            ticket: 0,
            truck: 5,
            gross: 19_000,
        }),
        33..=56 => Some(Step::Read { ticket: n - 33 }),
        57..=80 => Some(Step::Bill { ticket: n - 57 }),
        81..=90 => Some(Step::Weigh {
            ticket: n - 81,
            truck: (n - 81) % FLEET,
            gross: 21_000 + 290 * u32::from(n - 81),
        }),
        91..=100 => Some(Step::Read { ticket: n - 91 }),
        101..=110 => Some(Step::Bill { ticket: n - 101 }),
        _ => None,
    }
}
