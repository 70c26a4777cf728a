// The terminal at the other end of the two wires: scripts of calls, and what it takes off the rows that come back.
#![tactic(auto)]

mod error;
mod frames;
mod rows;
mod script;
#[cfg(test)]
mod tests;
mod tickets;

pub use error::BusError;
pub use frames::Latch;
pub use rows::{Rows, read_bytes, write_outcome};
pub use script::{Reply, Script};
pub use tickets::{bill, tare_address, weighing_address};
