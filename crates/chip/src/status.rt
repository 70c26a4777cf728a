// The status register.
ghost use Rattle.std.specs.Prelude.{◌≡◌};
ghost use Rattle.chip.specs.Status.{status_byte};

// The bits of status that are not 0 by themselves.
#[derive(Clone, Copy, PartialEq, Eq, Debug)]
pub struct Status {
    // On battery.
    pub bat: bool,
    // Alarm 1 and alarm 0 have matched.
    pub al1: bool,
    pub al0: bool,
    // Registers may be written; data may be written.
    pub rwel: bool,
    pub wel: bool,
    // The clock stands, since supply was lost.
    pub rtcf: bool,
}

// The byte that a read sends: BAT, AL1, AL0, 0, 0, RWEL, WEL, RTCF, from bit 7 down.
impl From<Status> for u8 {
    ghost from_gives = { λ status byte. byte ≡ status_byte status };

    fn from(status: Status) -> u8 {
        128 * u8::from(status.bat)
            + 64 * u8::from(status.al1)
            + 32 * u8::from(status.al0)
            + 4 * u8::from(status.rwel)
            + 2 * u8::from(status.wel)
            + u8::from(status.rtcf)
    }
}
