// A time of day, and the hours byte that shows its hour.
ghost use Rattle.std.specs.Prelude.{◌≡◌, if◌then◌else◌, Some, None};
ghost use Rattle.calendar.specs.Hours.{form_of, good_hours, hour_of, hours_byte, twelve};
ghost use Rattle.calendar.specs.Dates.{second_of_day};
ghost use Rattle.calendar.specs.Next.{time_after};
ghost use Rattle.calendar.specs.Text.{half};

use crate::digits::{bcd, count_within};

// How the hours byte shows the hour: 1 to 12 with a PM bit, or 0 to 23.
#[derive(Clone, Copy)]
pub enum HourForm {
    TwelveHour,
    TwentyFourHour,
}

impl HourForm {
    // Bit 7 of the hours byte means 24-hour form. Not a `From`, which would hide that the hour is lost.
    pub fn of(hours: u8) -> HourForm
        ensures { result ≡ form_of hours }
    {
        if hours < 0x80 {
            HourForm::TwelveHour
        } else {
            HourForm::TwentyFourHour
        }
    }
}

// The hour is that of the day, 0 to 23.
#[derive(Clone, Copy)]
pub struct Time {
    pub hour: u8,
    pub minute: u8,
    pub second: u8,
}

impl Time {
    pub const MIDNIGHT: Time = Time {
        hour: 0,
        minute: 0,
        second: 0,
    };

    // One second later on the same day; nothing where the day is over.
    pub fn next(self) -> Option<Time>
        ensures { result ≡ time_after self }
    {
        if self.second < 59 {
            Some(Time {
                second: self.second + 1,
                ..self
            })
        } else if self.minute < 59 {
            Some(Time {
                minute: self.minute + 1,
                second: 0,
                ..self
            })
        } else if self.hour < 23 {
            Some(Time {
                hour: self.hour + 1,
                minute: 0,
                second: 0,
            })
        } else {
            None
        }
    }

    // The seconds since midnight.
    pub fn second_of_day(self) -> u32
        ensures { result ≡ second_of_day self }
    {
        3600 * u32::from(self.hour) + 60 * u32::from(self.minute) + u32::from(self.second)
    }

    // The hour as a hand of a clock shows it, 1 to 12.
    pub fn twelve_hour(self) -> u8
        ensures { result ≡ twelve self.hour }
    {
        match self.hour % 12 {
            0 => 12,
            hour => hour,
        }
    }

    // The half of the day that the hour lies in.
    pub fn half(self) -> &'static str
        ensures { result.now ≡ half self.hour }
    {
        if self.hour < 12 { "AM" } else { "PM" }
    }

    // The hours byte that shows the hour.
    pub fn hours(self, form: HourForm) -> u8
        ensures { result ≡ hours_byte self.hour form }
    {
        match form {
            HourForm::TwelveHour => bcd(self.twelve_hour()) + if self.hour < 12 { 0 } else { 0x20 },
            HourForm::TwentyFourHour => bcd(self.hour % 24) + 0x80,
        }
    }
}

// The hour of the day that a good hours byte shows: 1 to 12 in 12-hour form, where 12 AM is 0 and 12 PM is 12, or 0 to 23 in
// 24-hour form. Bit 6 of a good byte is 0.
pub fn hour_of(hours: u8) -> Option<u8>
    ensures { result ≡ (if good_hours hours then Some (hour_of hours) else None) }
{
    match HourForm::of(hours) {
        HourForm::TwelveHour if hours >= 0x40 => None,
        HourForm::TwelveHour => {
            count_within(hours % 32, 1, 12).map(|hour| hour % 12 + 12 * (hours / 32))
        }
        HourForm::TwentyFourHour => count_within(hours - 0x80, 0, 23),
    }
}
