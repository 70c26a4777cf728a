// A calendar for a clock chip: eight clock bytes as a date, one second later, and an alarm's match.
#![tactic(auto)]

pub mod alarm;
pub mod clock;
mod date;
mod day;
pub mod digits;
#[cfg(test)]
mod tests;
mod time;
pub mod worked;
pub mod year;

pub use alarm::Alarm;
pub use clock::{Clock, Register};
pub use digits::Digits;
