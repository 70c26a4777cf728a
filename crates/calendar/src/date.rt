// A date taken out of the eight clock bytes: a day, a time of day, a weekday and an hour form.
ghost use Rattle.std.specs.Prelude.{◌≡◌, ◌&&◌, if◌then◌else◌, Some, None};
ghost use Rattle.calendar.specs.Dates.{bad_register, date_of, seconds_of, unless_bad};
ghost use Rattle.calendar.specs.Next.{clock_of, date_after, weekday_after};
ghost use Rattle.calendar.specs.Text.{date_text};
ghost use Rattle.calendar.specs.Years.{in_table, in_year};

use crate::clock::{Clock, Register};
use crate::day::Day;
use crate::digits::{Digits, bcd, count_within};
use crate::time::{HourForm, Time, hour_of};
use std::fmt;

#[derive(Clone, Copy)]
pub struct Date {
    pub day: Day,
    pub time: Time,
    pub weekday: u8,
    pub form: HourForm,
}

impl Date {
    // One second later: the next day begins at midnight.
    pub fn next(self) -> Date
        ensures { result ≡ date_after self }
    {
        match self.time.next() {
            Some(time) => Date { time, ..self },
            None => Date {
                day: self.day.next(),
                time: Time::MIDNIGHT,
                weekday: weekday_after(self.weekday),
                ..self
            },
        }
    }

    // The seconds since 1900 began.
    pub fn number(self) -> Option<u64>
        ensures { result ≡ (if in_table self.day.year && in_year self.day.month then Some (seconds_of self) else None) }
    {
        let days = self.day.number()?;
        Some(86_400 * u64::from(days) + u64::from(self.time.second_of_day()))
    }
}

// What the eight bytes say, if it is a date that exists; else the first register bad by itself, or the date's where the month lacks it.
impl TryFrom<Clock> for Date {
    type Error = Register;

    ghost try_from_gives = { λ c r. r ≡ unless_bad (bad_register c) (date_of c) };

    fn try_from(clock: Clock) -> Result<Date, Register> {
        let second = count_within(clock.seconds, 0, 59).ok_or(Register::Seconds)?;
        let minute = count_within(clock.minutes, 0, 59).ok_or(Register::Minutes)?;
        let hour = hour_of(clock.hours).ok_or(Register::Hours)?;
        let date = count_within(clock.date, 1, 31).ok_or(Register::Date)?;
        let month = count_within(clock.month, 1, 12).ok_or(Register::Month)?;
        let year = count_within(clock.year, 0, 99).ok_or(Register::Year)?;
        if clock.weekday > 6 {
            return Err(Register::Weekday);
        }
        let century = count_within(clock.century, 19, 20).ok_or(Register::Century)?;
        let day = Day {
            date,
            month,
            year: 100 * u16::from(century) + u16::from(year),
        };
        let date = Date {
            day,
            time: Time {
                hour,
                minute,
                second,
            },
            weekday: clock.weekday,
            form: HourForm::of(clock.hours),
        };
        day.is_in_month().then_some(date).ok_or(Register::Date)
    }
}

// The eight bytes that say a date.
impl From<Date> for Clock {
    ghost from_gives = { λ d c. c ≡ clock_of d };

    fn from(date: Date) -> Clock {
        Clock {
            seconds: bcd(date.time.second),
            minutes: bcd(date.time.minute),
            hours: date.time.hours(date.form),
            date: bcd(date.day.date),
            month: bcd(date.day.month),
            year: bcd(date.day.year_of_century()),
            weekday: date.weekday,
            century: bcd(date.day.century()),
        }
    }
}

// As 1999-12-31 23:59:59, or in 12-hour form 1999-12-31 11:59:59 PM.
impl fmt::Display for Date {
    ghost output = { λ d. Some (date_text d) };

    fn fmt<W: fmt::Write>(&self, f: &mut fmt::Formatter<W>) -> fmt::Result {
        let day = self.day;
        let minute = Digits::of(self.time.minute);
        let second = Digits::of(self.time.second);
        match self.form {
            HourForm::TwentyFourHour => {
                let hour = Digits::of(self.time.hour);
                write!(f, "{day} {hour}:{minute}:{second}")
            }
            HourForm::TwelveHour => {
                let hour = Digits::of(self.time.twelve_hour());
                let half = self.time.half();
                write!(f, "{day} {hour}:{minute}:{second} {half}")
            }
        }
    }
}

// The weekday after 6 is 0.
fn weekday_after(weekday: u8) -> u8
    ensures { result ≡ weekday_after weekday }
{
    if weekday < 6 { weekday + 1 } else { 0 }
}
