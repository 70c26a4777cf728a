//! A weighbridge's ledger over any memory: tare weights of trucks, and weighings not yet billed.
#![tactic(auto)]

mod book;
mod day;
mod error;
mod plan;
mod records;

pub use book::{
    Invoice, TICKETS, TRUCKS, bill, due, set_tare, tare, tare_place, weigh, weighing,
    weighing_place,
};
pub use day::{Outcome, Step};
pub use error::LedgerError;
pub use plan::planned;
pub use records::{Record, Stamp, TARE_SIZE, Tare, WEIGHING_SIZE, Weighing};
