// Numbers of a log.
ghost use Rattle.std.specs.Prelude.{◌≡◌};
ghost use Rattle.runlog.specs.Numbers.{number};

// The most digits that a number is written with.
const MOST_DIGITS: usize = 5;

// The largest number.
const LARGEST: u32 = 65_535;

// The number that a word writes: one to five digits, of a value up to 65,535. One walk, since a log is read number by number: with
// `parse`, which wants a text first, a log of level lines took 1.4 times as long.
pub fn number(word: &[u8]) -> Option<u16>
    ensures { result ≡ number word.now }
{
    if word.is_empty() || word.len() > MOST_DIGITS {
        return None;
    }
    let mut value: u32 = 0;
    for digit in word {
        if !digit.is_ascii_digit() {
            return None;
        }
        value = 10 * value + (*digit - b'0') as u32;
    }
    if value > LARGEST {
        None
    } else {
        Some(value as u16)
    }
}
