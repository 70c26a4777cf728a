// The rules of the chip over the list of calls (specs/), and the worked cases that follow from them.
#![tactic(auto)]

ghost use Rattle.std.specs.Prelude.{◌≡◌};
ghost use Rattle.rules.specs.Cases.{WorkedCases, case_count};

// How many worked cases are shown to follow from the rules, all of them by this function's contract.
pub fn worked_cases() -> u8
    ensures count { result ≡ case_count }
    ensures hold { WorkedCases }
{
    CASES
}

// The fields of the record of cases.
const CASES: u8 = 25;
