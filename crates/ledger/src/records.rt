//! The records of the ledger, and how they lie in bytes.
ghost use Rattle.std.specs.Prelude.{◌≡◌, ℕ, List, Some, Option};
ghost use Rattle.ledger.specs.Records.{clock_from, stamp_from, tare_bytes, tare_of, weighing_bytes, weighing_of};

use calendar::Clock;

/// The bytes of a tare record.
pub const TARE_SIZE: usize = 8;

/// The bytes of a weighing record.
pub const WEIGHING_SIZE: usize = 16;

/// The first byte of a record that is there.
const PRESENT: u8 = 0xA5;

/// A record of `N` bytes.
pub trait Record<const N: usize>: Sized {
    // The bytes of a record.
    ghost encoded: { Self → List ℕ };

    // The record that bytes hold, if they hold one.
    ghost decoded: { List ℕ → Option Self };

    /// The bytes of this record. It comes back from them.
    fn encode(self) -> [u8; N]
        ensures bytes { result ≡ encoded self }
        ensures back { decoded result ≡ Some self };

    /// The record that bytes hold, if they hold one.
    fn decode(bytes: [u8; N]) -> Option<Self>
        ensures { result ≡ decoded bytes.entry };
}

/// The weight of an empty truck, in kilograms.
#[derive(Clone, Copy, PartialEq, Eq, Debug)]
pub struct Tare {
    pub weight: u32,
}

/// The time of a weighing: the eight clock bytes, all 00h where there is no clock.
// No Option of a clock: one of eight zeros would not come back from its bytes.
#[derive(Clone, Copy, PartialEq, Eq, Debug)]
pub struct Stamp {
    pub clock: Clock,
}

/// A truck on the bridge: which it is, what it weighs with its load, in kilograms, and when.
#[derive(Clone, Copy, PartialEq, Eq, Debug)]
pub struct Weighing {
    pub truck: u16,
    pub gross: u32,
    pub stamp: Stamp,
}

impl Stamp {
    /// No time.
    pub const NONE: Stamp = Stamp {
        clock: Clock {
            seconds: 0,
            minutes: 0,
            hours: 0,
            date: 0,
            month: 0,
            year: 0,
            weekday: 0,
            century: 0,
        },
    };
}

impl From<Clock> for Stamp {
    // The clock is in the stamp, and comes back from it.
    ghost from_gives = { λ clock stamp. (stamp ≡ stamp_from clock) × (clock_from stamp ≡ clock) };

    fn from(clock: Clock) -> Stamp {
        Stamp { clock }
    }
}

impl From<Stamp> for Clock {
    // The stamp's clock, from which the stamp comes back.
    ghost from_gives = { λ stamp clock. (clock ≡ clock_from stamp) × (stamp_from clock ≡ stamp) };

    fn from(stamp: Stamp) -> Clock {
        stamp.clock
    }
}

impl Record<TARE_SIZE> for Tare {
    ghost encoded = { tare_bytes };

    ghost decoded = { tare_of };

    fn encode(self) -> [u8; TARE_SIZE]
        ensures bytes { result ≡ tare_bytes self }
        ensures back { tare_of result ≡ Some self }
    {
        let weight = self.weight.to_be_bytes();
        [PRESENT, 0, 0, 0, weight[0], weight[1], weight[2], weight[3]]
    }

    fn decode(bytes: [u8; TARE_SIZE]) -> Option<Tare>
        ensures { result ≡ tare_of bytes }
    {
        if bytes[0] != PRESENT {
            return None;
        }
        let weight = u32::from_be_bytes([bytes[4], bytes[5], bytes[6], bytes[7]]);
        Some(Tare { weight })
    }
}

impl Record<WEIGHING_SIZE> for Weighing {
    ghost encoded = { weighing_bytes };

    ghost decoded = { weighing_of };

    fn encode(self) -> [u8; WEIGHING_SIZE]
        ensures bytes { result ≡ weighing_bytes self }
        ensures back { weighing_of result ≡ Some self }
    {
        let truck = self.truck.to_be_bytes();
        let gross = self.gross.to_be_bytes();
        let clock = Clock::from(self.stamp);
        // The clock's bytes are listed as the others are: arrays cannot be joined without a heap.
        [
            PRESENT,
            0,
            truck[0],
            truck[1],
            gross[0],
            gross[1],
            gross[2],
            gross[3],
            clock.seconds,
            clock.minutes,
            clock.hours,
            clock.date,
            clock.month,
            clock.year,
            clock.weekday,
            clock.century,
        ]
    }

    fn decode(bytes: [u8; WEIGHING_SIZE]) -> Option<Weighing>
        ensures { result ≡ weighing_of bytes }
    {
        if bytes[0] != PRESENT {
            return None;
        }
        let truck = u16::from_be_bytes([bytes[2], bytes[3]]);
        let gross = u32::from_be_bytes([bytes[4], bytes[5], bytes[6], bytes[7]]);
        let clock = Clock::from([
            bytes[8], bytes[9], bytes[10], bytes[11], bytes[12], bytes[13], bytes[14], bytes[15],
        ]);
        Some(Weighing {
            truck,
            gross,
            stamp: Stamp::from(clock),
        })
    }
}
