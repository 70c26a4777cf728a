// The lock: which addresses of the array BL's top three bits close to writes.
ghost use Rattle.std.specs.Prelude.{◌≡◌};
ghost use Rattle.chip.specs.Locks.{stretch_of, is_locked};

use crate::pages::ARRAY;
use std::ops::Range;

// The stretch of the array that a BL byte locks.
fn locked_by(bl: u8) -> Range<u16>
    ensures { result ≡ stretch_of bl }
{
    match bl / 32 {
        0 => 0..0,
        1 => 0x180..ARRAY,
        2 => 0x100..ARRAY,
        4 => 0..0x040,
        5 => 0..0x080,
        6 => 0..0x100,
        _ => 0..ARRAY,
    }
}

// Whether a BL byte locks an address of the array.
pub fn is_locked(bl: u8, address: u16) -> bool
    ensures { result ≡ is_locked bl address }
{
    locked_by(bl).contains(&address)
}
