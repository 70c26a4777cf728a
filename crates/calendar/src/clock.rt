// The eight clock bytes as one value.
ghost use Rattle.std.specs.Prelude.{◌≡◌, ◌+◌, true, if◌then◌else◌, Some, IfOk};
ghost use Rattle.std.specs.Option.{option_map};
ghost use Rattle.std.specs.Result.{result_err};
ghost use Rattle.calendar.specs.Clock.{byte_of, joined, listed, register_number, start_date, unlisted};
ghost use Rattle.calendar.specs.Dates.{Fixed, Plus, bad_register, exists, first_bad, first_second, number, unless_bad};
ghost use Rattle.calendar.specs.Next.{StepsAdd, next};
ghost use Rattle.calendar.specs.Text.{register_text, text_of};

use crate::date::Date;
use std::fmt;

// The registers of the eight bytes, by their numbers.
#[derive(Clone, Copy, PartialEq, Eq, Debug)]
pub enum Register {
    Seconds = 0x30,
    Minutes = 0x31,
    Hours = 0x32,
    Date = 0x33,
    Month = 0x34,
    Year = 0x35,
    Weekday = 0x36,
    Century = 0x37,
}

// The number of the register, 30h to 37h.
impl From<Register> for u8 {
    ghost from_gives = { λ r n. n ≡ register_number r };

    fn from(register: Register) -> u8 {
        register as u8
    }
}

// As 33h.
impl fmt::Display for Register {
    ghost output = { λ r. Some (register_text r) };

    fn fmt<W: fmt::Write>(&self, f: &mut fmt::Formatter<W>) -> fmt::Result {
        let low = u8::from(*self) % 16;
        write!(f, "3{low}h")
    }
}

// Registers 30h to 37h: two decimal digits in each byte but the weekday, and the hour form in bit 7 of the hours.
#[derive(Clone, Copy, PartialEq, Eq, Debug)]
pub struct Clock {
    pub seconds: u8,
    pub minutes: u8,
    pub hours: u8,
    pub date: u8,
    pub month: u8,
    pub year: u8,
    pub weekday: u8,
    pub century: u8,
}

impl Clock {
    // 1 January 2000, 12:00:00 AM.
    pub const START: Clock = Clock {
        seconds: 0x00,
        minutes: 0x00,
        hours: 0x12,
        date: 0x01,
        month: 0x01,
        year: 0x00,
        weekday: 0x00,
        century: 0x20,
    };

    // The start date, which exists. A function beside the constant, since a constant has no contract that says so.
    #[tactic(auto, unfolding(crate::specs::Dates::first_bad))]
    pub fn start() -> Clock
        ensures value { result ≡ start_date }
        ensures is_date { exists result ≡ true }
    {
        Clock::START
    }

    // Byte `k` of the eight, register 30h + k; 0 for a `k` above 7.
    pub fn byte(self, k: usize) -> u8
        ensures { result ≡ byte_of self k }
    {
        let bytes: [u8; 8] = self.into();
        bytes.get(k).copied().unwrap_or(0)
    }

    // This value with byte `k` replaced; a `k` above 7 changes nothing.
    pub fn joined(self, k: usize, byte: u8) -> Clock
        ensures { result ≡ joined self k byte }
    {
        let mut bytes: [u8; 8] = self.into();
        // Not `get_mut`, of which the proof would know the length and no byte.
        if k < bytes.len() {
            bytes[k] = byte;
        }
        Clock::from(bytes)
    }

    // The first register bad by itself, else the date's where the month lacks it; nothing for a date that exists.
    #[tactic(auto, unfolding(crate::specs::Dates::first_bad))]
    pub fn first_bad(self) -> Option<Register>
        ensures register { result ≡ bad_register self }
        ensures number { option_map register_number result ≡ first_bad self }
    {
        Date::try_from(self).err()
    }

    // This value if it is a date that exists, else the register to blame.
    #[tactic(auto, unfolding(crate::specs::Dates::first_bad))]
    pub fn checked(self) -> Result<Clock, Register>
        ensures value { result ≡ unless_bad (bad_register self) self }
        ensures same { IfOk result (λ clock. clock ≡ self) }
        ensures number { option_map register_number (result_err result) ≡ first_bad self }
    {
        Date::try_from(self).and(Ok(self))
    }

    // Whether the eight bytes are a date that exists.
    #[tactic(auto, unfolding(crate::specs::Dates::first_bad))]
    pub fn exists(self) -> bool
        ensures { result ≡ exists self }
    {
        Date::try_from(self).is_ok()
    }

    // The seconds since 1900 began, 86,400 a day; 0 for bytes that are no date.
    pub fn number(self) -> u64
        ensures value { result ≡ (if exists self then number self else 0) }
        ensures fixes { Fixed self }
    {
        Date::try_from(self)
            .ok()
            .and_then(Date::number)
            .unwrap_or(0)
    }

    // One second later; bytes that are no date stay as they are.
    pub fn next(self) -> Clock
        ensures value { result ≡ next self }
        ensures is_date { exists self ≡ true → exists result ≡ true }
        ensures plus { exists self ≡ true → Plus self 1 result }
        ensures rolls { exists self ≡ true → number self + 1 ≡ first_second 2100 → number result ≡ first_second 2000 }
        ensures steps { StepsAdd self }
    {
        Date::try_from(self)
            .map(Date::next)
            .map_or(self, Clock::from)
    }
}

// The eight bytes in the order of their registers.
impl From<Clock> for [u8; 8] {
    ghost from_gives = { λ c bytes. bytes ≡ listed c };

    fn from(clock: Clock) -> [u8; 8] {
        [
            clock.seconds,
            clock.minutes,
            clock.hours,
            clock.date,
            clock.month,
            clock.year,
            clock.weekday,
            clock.century,
        ]
    }
}

// Eight bytes in the order of their registers as one value.
impl From<[u8; 8]> for Clock {
    ghost from_gives = { λ bytes c. c ≡ unlisted bytes };

    fn from(bytes: [u8; 8]) -> Clock {
        let [seconds, minutes, hours, date, month, year, weekday, century] = bytes;
        Clock {
            seconds,
            minutes,
            hours,
            date,
            month,
            year,
            weekday,
            century,
        }
    }
}

// The date, or of bytes that are no date the first bad register, as: no date (register 33h).
impl fmt::Display for Clock {
    ghost output = { λ c. Some (text_of c) };

    fn fmt<W: fmt::Write>(&self, f: &mut fmt::Formatter<W>) -> fmt::Result {
        match Date::try_from(*self) {
            Ok(date) => write!(f, "{date}"),
            Err(register) => write!(f, "no date (register {register})"),
        }
    }
}
