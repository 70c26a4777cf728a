// A count from 0 to 99 as its two decimal digits, and as the byte that holds them (BCD).
ghost use Rattle.std.specs.Prelude.{◌≡◌, ◌%◌, if◌then◌else◌, Some, None};
ghost use Rattle.calendar.specs.Digits.{AreDigits, bcd_of, count_of, in_range};
ghost use Rattle.calendar.specs.Text.{figures};

use std::fmt;

#[derive(Clone, Copy, PartialEq, Eq, Debug)]
pub struct Digits {
    pub tens: u8,
    pub units: u8,
}

impl Digits {
    // The two digits of a count; of a count above 99 the last two. Not a `From`, which would hide that the rest of it is lost.
    pub fn of(count: u8) -> Digits
        ensures { AreDigits (count % 100) result }
    {
        let count = count % 100;
        let tens = count / 10;
        Digits {
            tens,
            units: count - 10 * tens,
        }
    }
}

impl fmt::Display for Digits {
    ghost output = { λ d. Some (figures d) };

    fn fmt<W: fmt::Write>(&self, f: &mut fmt::Formatter<W>) -> fmt::Result {
        let tens = self.tens;
        let units = self.units;
        write!(f, "{tens}{units}")
    }
}

// The byte that holds a count's two digits: the tens in its high four bits, the units in its low four.
pub(crate) fn bcd(count: u8) -> u8
    ensures { result ≡ bcd_of count }
{
    let digits = Digits::of(count);
    16 * digits.tens + digits.units
}

// The count that a byte of two digits stands for.
pub(crate) fn count(byte: u8) -> u8
    ensures { result ≡ count_of byte }
{
    10 * (byte / 16) + byte % 16
}

// The count of a byte that holds two digits, if it lies from `low` to `high`.
pub(crate) fn count_within(byte: u8, low: u8, high: u8) -> Option<u8>
    ensures { result ≡ (if in_range byte low high then Some (count_of byte) else None) }
{
    let counted = count(byte);
    (byte % 16 < 10 && (low..=high).contains(&counted)).then_some(counted)
}
