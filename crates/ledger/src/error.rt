//! Why the ledger refuses a call.
ghost use Rattle.std.specs.Prelude.{◌≡◌};
ghost use Rattle.ledger.specs.declared.error.LedgerError.TheVariants.{Memory};

use memory::Refusal;
use std::fmt;

/// What the ledger answers where it does not do what it is asked. Memory and ledger are then as before the call.
#[derive(Clone, Copy, PartialEq, Eq, Debug)]
pub enum LedgerError {
    /// The memory refuses.
    Memory(Refusal),
    /// There is no such truck.
    NoTruck,
    /// There is no such ticket.
    NoTicket,
    /// The truck has no tare.
    NoTare,
    /// The ticket holds a weighing that is not yet billed.
    NotBilled,
    /// The ticket holds no weighing to bill.
    NotOpen,
    /// The truck weighs less than its tare.
    Light,
}

impl From<Refusal> for LedgerError {
    ghost from_gives = { λ r e. e ≡ Memory r };

    fn from(refusal: Refusal) -> LedgerError {
        LedgerError::Memory(refusal)
    }
}

impl fmt::Display for LedgerError {
    fn fmt<W: fmt::Write>(&self, f: &mut fmt::Formatter<W>) -> fmt::Result {
        match self {
            LedgerError::Memory(refusal) => write!(f, "{refusal}"),
            LedgerError::NoTruck => write!(f, "refused: there is no such truck"),
            LedgerError::NoTicket => write!(f, "refused: there is no such ticket"),
            LedgerError::NoTare => write!(f, "refused: the truck has no tare"),
            LedgerError::NotBilled => write!(
                f,
                "refused: the ticket holds a weighing that is not yet billed"
            ),
            LedgerError::NotOpen => write!(f, "refused: the ticket holds no weighing to bill"),
            LedgerError::Light => write!(f, "refused: the truck weighs less than its tare"),
        }
    }
}
