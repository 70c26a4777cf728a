//! The ledger over any memory: set a tare, enter a weighing, read both back, and bill.
ghost use Rattle.std.specs.Prelude.{◌≡◌, ◌^◌, ◌<◌, is_ok, if◌then◌else◌};
ghost use Rattle.memory.specs.Runs.{store, with_run};
ghost use Rattle.ledger.specs.Layout.{tare_place, weighing_place};
ghost use Rattle.ledger.specs.Book.{from_memory, record_answer, truck_check, tare_answer, weighing_answer, set_tare_answer, set_tare_after, free_answer, weigh_answer, weigh_after, invoice_answer, due, bill_answer, bill_after};

use crate::error::LedgerError;
use crate::records::{Record, Stamp, TARE_SIZE, Tare, WEIGHING_SIZE, Weighing};
use memory::{Memory, fetch, store};

/// The trucks that have a tare, numbered from 0.
pub const TRUCKS: u16 = 16;

/// The tickets for weighings not yet billed, numbered from 0.
pub const TICKETS: u16 = 24;

/// The first byte of a weighing that is billed.
const BILLED: u8 = 0x00;

/// What a customer owes for: the load of a truck, in kilograms, and when it was weighed.
// The figures as they are printed, and no load with a tare to reckon from.
#[derive(Clone, Copy, PartialEq, Eq, Debug)]
pub struct Invoice {
    pub truck: u16,
    pub gross: u32,
    pub tare: u32,
    pub net: u32,
    pub stamp: Stamp,
}

impl Invoice {
    /// The invoice for a load, by the tare of its truck.
    pub fn of(load: Weighing, tare: Tare) -> Result<Invoice, LedgerError>
        ensures { result ≡ invoice_answer load tare }
    {
        if load.gross < tare.weight {
            return Err(LedgerError::Light);
        }
        Ok(Invoice {
            truck: load.truck,
            gross: load.gross,
            tare: tare.weight,
            net: load.gross - tare.weight,
            stamp: load.stamp,
        })
    }
}

/// Where the tare of a truck lies.
pub fn tare_place(truck: u16) -> usize
    ensures { result ≡ tare_place truck }
{
    usize::from(truck) * TARE_SIZE
}

/// Where the weighing of a ticket lies.
pub fn weighing_place(ticket: u16) -> usize
    ensures { result ≡ weighing_place ticket }
{
    usize::from(TRUCKS) * TARE_SIZE + usize::from(ticket) * WEIGHING_SIZE
}

/// Refuses a truck that there is not.
fn check_truck(truck: u16) -> Result<(), LedgerError>
    ensures { result ≡ truck_check truck }
{
    if truck >= TRUCKS {
        return Err(LedgerError::NoTruck);
    }
    Ok(())
}

/// The record at a place, if there is one.
fn record_at<M: Memory, R: Record<N>, const N: usize>(
    memory: &M,
    place: usize,
) -> Result<Option<R>, LedgerError>
    requires { N < 2 ^ 63 }
    ensures { result ≡ record_answer R.decoded (M.holds memory.now) place N }
{
    let mut bytes = [0; N];
    fetch(memory, place, &mut bytes)?;
    Ok(R::decode(bytes))
}

/// Stores a record at a place, all of it or nothing.
fn store_record<M: Memory, R: Record<N>, const N: usize>(
    memory: &mut M,
    place: usize,
    kept: R,
) -> Result<(), LedgerError>
    requires { N < 2 ^ 63 }
    ensures answer { result ≡ from_memory (store (M.holds memory.old) place N) }
    ensures after { M.holds memory.new ≡ (if is_ok result then with_run (M.holds memory.old) place (R.encoded kept) else M.holds memory.old) }
{
    store(memory, place, &kept.encode())?;
    Ok(())
}

/// The tare of a truck.
pub fn tare<M: Memory>(memory: &M, truck: u16) -> Result<Tare, LedgerError>
    ensures { result ≡ tare_answer (M.holds memory.now) truck }
{
    check_truck(truck)?;
    record_at(memory, tare_place(truck))?.ok_or(LedgerError::NoTare)
}

/// The weighing that a ticket holds, if it holds one that is not yet billed.
// A memory is lent to each call, as to the chip's, and a ticket is any number: together they would make no value.
pub fn weighing<M: Memory>(memory: &M, ticket: u16) -> Result<Option<Weighing>, LedgerError>
    ensures { result ≡ weighing_answer (M.holds memory.now) ticket }
{
    if ticket >= TICKETS {
        return Err(LedgerError::NoTicket);
    }
    record_at(memory, weighing_place(ticket))
}

/// Sets the tare of a truck, over the one it had.
pub fn set_tare<M: Memory>(memory: &mut M, truck: u16, tare: Tare) -> Result<(), LedgerError>
    ensures answer { result ≡ set_tare_answer (M.holds memory.old) truck }
    ensures after { M.holds memory.new ≡ set_tare_after (M.holds memory.old) truck tare }
{
    check_truck(truck)?;
    store_record(memory, tare_place(truck), tare)
}

/// Refuses a ticket that holds a weighing not yet billed.
fn check_free<M: Memory>(memory: &M, ticket: u16) -> Result<(), LedgerError>
    ensures { result ≡ free_answer (M.holds memory.now) ticket }
{
    if weighing(memory, ticket)?.is_some() {
        return Err(LedgerError::NotBilled);
    }
    Ok(())
}

/// Enters a weighing on a free ticket.
pub fn weigh<M: Memory>(memory: &mut M, ticket: u16, load: Weighing) -> Result<(), LedgerError>
    ensures answer { result ≡ weigh_answer (M.holds memory.old) ticket load.truck }
    ensures after { M.holds memory.new ≡ weigh_after (M.holds memory.old) ticket load }
{
    check_truck(load.truck)?;
    check_free(memory, ticket)?;
    store_record(memory, weighing_place(ticket), load)
}

/// What the weighing of a ticket will be billed.
pub fn due<M: Memory>(memory: &M, ticket: u16) -> Result<Invoice, LedgerError>
    ensures { result ≡ due (M.holds memory.now) ticket }
{
    let load = weighing(memory, ticket)?.ok_or(LedgerError::NotOpen)?;
    let tare = tare(memory, load.truck)?;
    Invoice::of(load, tare)
}

/// Bills the weighing of a ticket, and frees the ticket for the next.
pub fn bill<M: Memory>(memory: &mut M, ticket: u16) -> Result<Invoice, LedgerError>
    ensures answer { result ≡ bill_answer (M.holds memory.old) ticket }
    ensures after { M.holds memory.new ≡ bill_after (M.holds memory.old) ticket }
{
    let bill = due(memory, ticket)?;
    memory.write(weighing_place(ticket), BILLED)?;
    Ok(bill)
}
