// Where the ledger's records lie in the array, and the bill of what is read there.
ghost use Rattle.std.specs.Prelude.{◌≡◌, ◌^◌, ◌<◌};
ghost use Rattle.chip.specs.Counter.{address_at};
ghost use Rattle.chip.specs.declared.slaves.Area.TheVariants.{Array};
ghost use Rattle.ledger.specs.Layout.{tare_place, weighing_place};
ghost use Rattle.terminal.specs.Bills.{bill_of};

use chip::counter::Address;
use chip::slaves::Area;
use ledger::{Invoice, LedgerError, Record, TARE_SIZE, Tare, WEIGHING_SIZE, Weighing};

// The address of the array that a place has.
fn array_address(place: usize) -> Address
    requires { place < 2 ^ 16 }
    ensures { result ≡ address_at Array place }
{
    Area::Array.at(place as u16)
}

// The address of a truck's tare.
pub fn tare_address(truck: u8) -> Address
    ensures { result ≡ address_at Array (tare_place truck) }
{
    array_address(ledger::tare_place(u16::from(truck)))
}

// The address of a ticket's weighing: behind sixteen tares.
pub fn weighing_address(ticket: u8) -> Address
    ensures { result ≡ address_at Array (weighing_place ticket) }
{
    array_address(ledger::weighing_place(u16::from(ticket)))
}

// The bill of a weighing by a tare, from the bytes of both.
pub fn bill(weighing: [u8; WEIGHING_SIZE], tare: [u8; TARE_SIZE]) -> Result<Invoice, LedgerError>
    ensures { result ≡ bill_of weighing tare }
{
    let load = Weighing::decode(weighing).ok_or(LedgerError::NotOpen)?;
    let tare = Tare::decode(tare).ok_or(LedgerError::NoTare)?;
    Invoice::of(load, tare)
}
