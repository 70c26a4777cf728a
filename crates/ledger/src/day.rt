//! The steps of a day at the weighbridge.
ghost use Rattle.std.specs.Prelude.{◌≡◌};
ghost use Rattle.ledger.specs.Day.{step_answer, step_after};

use crate::book::{Invoice, bill, set_tare, weigh, weighing};
use crate::error::LedgerError;
use crate::records::{Stamp, Tare, Weighing};
use memory::Memory;
use std::fmt;

/// One step of a day. Weights are in kilograms.
#[derive(Clone, Copy, PartialEq, Eq, Debug)]
pub enum Step {
    /// Set the tare of a truck.
    SetTare { truck: u16, weight: u32 },
    /// Enter a weighing on a ticket.
    Weigh { ticket: u16, truck: u16, gross: u32 },
    /// Read a ticket back.
    Read { ticket: u16 },
    /// Bill a ticket.
    Bill { ticket: u16 },
}

/// What a step did.
#[derive(Clone, Copy, PartialEq, Eq, Debug)]
pub enum Outcome {
    TareSet,
    Weighed,
    Held(Option<Weighing>),
    Billed(Invoice),
}

impl Step {
    /// Works this step over a memory.
    // A match, since steps are values that are planned, compared and printed.
    pub fn work<M: Memory>(self, memory: &mut M) -> Result<Outcome, LedgerError>
        ensures answer { result ≡ step_answer (M.holds memory.old) self }
        ensures after { M.holds memory.new ≡ step_after (M.holds memory.old) self }
    {
        match self {
            Step::SetTare { truck, weight } => {
                set_tare(memory, truck, Tare { weight })?;
                Ok(Outcome::TareSet)
            }
            Step::Weigh {
                ticket,
                truck,
                gross,
            } => {
                let load = Weighing {
                    truck,
                    gross,
                    stamp: Stamp::NONE,
                };
                weigh(memory, ticket, load)?;
                Ok(Outcome::Weighed)
            }
            Step::Read { ticket } => Ok(Outcome::Held(weighing(memory, ticket)?)),
            Step::Bill { ticket } => Ok(Outcome::Billed(bill(memory, ticket)?)),
        }
    }
}

impl fmt::Display for Step {
    fn fmt<W: fmt::Write>(&self, f: &mut fmt::Formatter<W>) -> fmt::Result {
        match self {
            Step::SetTare { truck, weight } => write!(f, "truck {truck}: set tare {weight} kg"),
            Step::Weigh {
                ticket,
                truck,
                gross,
            } => write!(f, "ticket {ticket}: weigh truck {truck}, gross {gross} kg"),
            Step::Read { ticket } => write!(f, "ticket {ticket}: read back"),
            Step::Bill { ticket } => write!(f, "ticket {ticket}: bill"),
        }
    }
}

impl fmt::Display for Outcome {
    fn fmt<W: fmt::Write>(&self, f: &mut fmt::Formatter<W>) -> fmt::Result {
        match self {
            Outcome::TareSet => write!(f, "set"),
            Outcome::Weighed => write!(f, "entered"),
            Outcome::Held(None) => write!(f, "nothing to bill"),
            Outcome::Held(Some(load)) => write!(f, "truck {}, gross {} kg", load.truck, load.gross),
            Outcome::Billed(invoice) => write!(
                f,
                "truck {}, net {} kg",
                invoice.truck, invoice.net
            ),
        }
    }
}
