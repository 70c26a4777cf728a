// An alarm's eight bytes against the clock's.
ghost use Rattle.std.specs.Prelude.{◌≡◌};
ghost use Rattle.calendar.specs.Alarm.{agrees, alarm_of, compared, enabled, matches, pair};

use crate::clock::Clock;

// Bit 7 of a byte enables it; the clock is compared with the bits below, in the hours with bits 5 to 0.
const ENABLE: u8 = 0x80;

const BITS_6_TO_0: u8 = 0x7f;

const BITS_5_TO_0: u8 = 0x3f;

// An alarm's bytes in the order of the clock's. Its year and century are stored and never compared.
#[derive(Clone, Copy, PartialEq, Eq, Debug)]
pub struct Alarm {
    pub bytes: Clock,
}

impl From<[u8; 8]> for Alarm {
    ghost from_gives = { λ bytes a. a ≡ alarm_of bytes };

    fn from(bytes: [u8; 8]) -> Alarm {
        Alarm {
            bytes: Clock::from(bytes),
        }
    }
}

impl Alarm {
    // Whether the alarm has an enable bit, and every enabled byte equals the clock's.
    pub fn matches(self, clock: Clock) -> bool
        ensures { result ≡ matches self clock }
    {
        let compared = self.compared(clock);
        compared.iter().any(|pair| pair.is_enabled()) && compared.iter().all(|pair| pair.agrees())
    }

    // The six bytes that are compared, in the order of their registers.
    fn compared(self, clock: Clock) -> [Compared; 6]
        ensures { result ≡ compared self clock }
    {
        let alarm = self.bytes;
        [
            Compared::of(alarm.seconds, clock.seconds, BITS_6_TO_0),
            Compared::of(alarm.minutes, clock.minutes, BITS_6_TO_0),
            Compared::of(alarm.hours, clock.hours, BITS_5_TO_0),
            Compared::of(alarm.date, clock.date, BITS_6_TO_0),
            Compared::of(alarm.month, clock.month, BITS_6_TO_0),
            Compared::of(alarm.weekday, clock.weekday, BITS_6_TO_0),
        ]
    }
}

// An alarm's byte, the clock's, and the bits in which they are compared.
#[derive(Clone, Copy)]
struct Compared {
    byte: u8,
    shown: u8,
    mask: u8,
}

impl Compared {
    fn of(byte: u8, shown: u8, mask: u8) -> Compared
        ensures { result ≡ pair byte shown mask }
    {
        Compared { byte, shown, mask }
    }

    fn is_enabled(self) -> bool
        ensures { result ≡ enabled self.byte }
    {
        self.byte & ENABLE != 0
    }

    // An enabled byte agrees with the clock's where both have the same bits under the mask; one that is not enabled always does.
    fn agrees(self) -> bool
        ensures { result ≡ agrees self.mask self.byte self.shown }
    {
        !self.is_enabled() || self.byte & self.mask == self.shown & self.mask
    }
}
