// A day as date, month and year.
ghost use Rattle.std.specs.Prelude.{◌≡◌, ◌/◌, ◌%◌, ◌&&◌, if◌then◌else◌, Some, None};
ghost use Rattle.calendar.specs.Dates.{day_number, in_month};
ghost use Rattle.calendar.specs.Next.{day_after, year_after};
ghost use Rattle.calendar.specs.Text.{day_text};
ghost use Rattle.calendar.specs.Years.{days_before_month, in_table, in_year, leap_year, month_length};

use crate::digits::Digits;
use crate::year::{LAST_YEAR, days_before_year, is_leap};
use std::fmt;

// The days before each month of a common year.
const DAYS_BEFORE_MONTH: [u16; 12] = [0, 31, 59, 90, 120, 151, 181, 212, 243, 273, 304, 334];

// The year that follows the last one of the calendar.
const RETURN_YEAR: u16 = 2000;

#[derive(Clone, Copy)]
pub struct Day {
    pub date: u8,
    pub month: u8,
    pub year: u16,
}

impl Day {
    // The days of its month; 0 for a month that is none.
    pub fn days_in_month(self) -> u8
        ensures { result ≡ month_length (leap_year self.year) self.month }
    {
        match self.month {
            2 => 28 + u8::from(is_leap(self.year)),
            4 | 6 | 9 | 11 => 30,
            1 | 3 | 5 | 7 | 8 | 10 | 12 => 31,
            _ => 0,
        }
    }

    // The days from 1 January to the first of its month; nothing for a month that is none.
    pub fn days_before_month(self) -> Option<u16>
        ensures { result ≡ (if in_year self.month then Some (days_before_month (leap_year self.year) self.month) else None) }
    {
        let place = self.month.checked_sub(1)?;
        let days = DAYS_BEFORE_MONTH.get(usize::from(place)).copied()?;
        Some(days + u16::from(self.month > 2 && is_leap(self.year)))
    }

    // The last two digits of the year.
    pub fn year_of_century(self) -> u8
        ensures { result ≡ self.year % 100 }
    {
        (self.year % 100) as u8
    }

    // The two digits of the year before these.
    pub fn century(self) -> u8
        ensures { result ≡ self.year / 100 % 100 }
    {
        (self.year / 100 % 100) as u8
    }

    // Whether the month has the date.
    pub fn is_in_month(self) -> bool
        ensures { result ≡ in_month self }
    {
        self.date <= self.days_in_month()
    }

    // The day after this one.
    pub fn next(self) -> Day
        ensures { result ≡ day_after self }
    {
        if self.date < self.days_in_month() {
            Day {
                date: self.date + 1,
                ..self
            }
        } else if self.month < 12 {
            Day {
                date: 1,
                month: self.month + 1,
                ..self
            }
        } else {
            Day {
                date: 1,
                month: 1,
                year: year_after(self.year),
            }
        }
    }

    // The days from 1 January 1900 to this one; nothing where the table or the year does not hold it.
    #[tactic(auto, using(crate::proofs::Lengths::before_year_le))]
    pub fn number(self) -> Option<u32>
        ensures { result ≡ (if in_table self.year && in_year self.month then Some (day_number self) else None) }
    {
        let before_year = days_before_year(self.year)?;
        let before_month = self.days_before_month()?;
        Some(before_year + u32::from(before_month) + u32::from(self.date).saturating_sub(1))
    }
}

// As 1999-12-31.
impl fmt::Display for Day {
    ghost output = { λ d. Some (day_text d) };

    fn fmt<W: fmt::Write>(&self, f: &mut fmt::Formatter<W>) -> fmt::Result {
        let century = Digits::of(self.century());
        let year = Digits::of(self.year_of_century());
        let month = Digits::of(self.month);
        let date = Digits::of(self.date);
        write!(f, "{century}{year}-{month}-{date}")
    }
}

// After 2099 comes 2000.
fn year_after(year: u16) -> u16
    ensures { result ≡ year_after year }
{
    if year < LAST_YEAR {
        year + 1
    } else {
        RETURN_YEAR
    }
}
