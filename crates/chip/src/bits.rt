// The bits of a byte in the order in which they are sent: the highest first.
ghost use Rattle.std.specs.Prelude.{◌≡◌};
ghost use Rattle.chip.specs.Bits.{weight, is_zero_bit, shifted};

// What bit `index` of a byte is worth, counted from the highest; past the eighth bit that of the lowest, since any index may be asked.
// A table, as its rule is one: a shift would have to say the same of the indices above 7.
fn weight(index: u8) -> u8
    ensures { result ≡ weight index }
{
    match index {
        0 => 128,
        1 => 64,
        2 => 32,
        3 => 16,
        4 => 8,
        5 => 4,
        6 => 2,
        _ => 1,
    }
}

// Whether bit `index` of a byte, counted from the highest, is 0.
pub fn is_zero_bit(byte: u8, index: u8) -> bool
    ensures { result ≡ is_zero_bit byte index }
{
    byte / weight(index) % 2 == 0
}

// A byte with one bit more at its low end; the highest bit falls out.
pub fn shifted(byte: u8, level: bool) -> u8
    ensures { result ≡ shifted byte level }
{
    byte % 128 * 2 + u8::from(level)
}
