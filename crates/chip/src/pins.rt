// The interrupt pin.
ghost use Rattle.std.specs.Prelude.{◌≡◌};
ghost use Rattle.chip.specs.Pins.{pin_number};

// What the pin does.
#[derive(Clone, Copy, PartialEq, Eq, Debug)]
pub enum Pin {
    Low = 0,
    Released = 1,
    // The crystal's own 32,768 Hz.
    Crystal = 2,
}

// The number by which a board is told.
impl From<Pin> for u8 {
    ghost from_gives = { λ pin n. n ≡ pin_number pin };

    fn from(pin: Pin) -> u8 {
        pin as u8
    }
}
