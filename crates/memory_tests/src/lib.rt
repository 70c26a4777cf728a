//! Examples of what the memories and the ledger answer, proved safe and run.
#![tactic(auto)]

pub mod chosen;
#[cfg(test)]
mod images;
#[cfg(test)]
mod journals;
#[cfg(test)]
mod ledgers;
