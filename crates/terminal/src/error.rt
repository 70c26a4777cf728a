// What the bus refuses.
use chip::refusals::Refusal;
use std::fmt;

// Why a write did nothing.
#[derive(Clone, Copy, PartialEq, Eq, Debug)]
pub enum BusError {
    // A byte was not acknowledged.
    Silent,
    // The stop was refused.
    Refused(Refusal),
}

// A refusal by its number, layer, area and address.
impl fmt::Display for BusError {
    fn fmt<W: fmt::Write>(&self, f: &mut fmt::Formatter<W>) -> fmt::Result {
        match self {
            BusError::Silent => write!(f, "not acknowledged"),
            BusError::Refused(refusal) => {
                let report = refusal.report();
                let number = report.number;
                let layer = u8::from(report.layer);
                let area = report.area_number();
                let address = report.address;
                write!(
                    f,
                    "refused by {number}: layer {layer}, area {area}, address {address}"
                )
            }
        }
    }
}
