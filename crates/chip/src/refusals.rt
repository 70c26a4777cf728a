// Refusals: what a call answers where it does not do its work, and who has to look into it.
ghost use Rattle.std.specs.Prelude.{◌≡◌};
ghost use Rattle.chip.specs.Refusals.{report, unplaced, placed, layer_number, area_number};

use crate::slaves::Area;

// A wire of the bus.
#[derive(Clone, Copy, PartialEq, Eq, Debug)]
pub enum Line {
    Scl = 0,
    Sda = 1,
}

// Who has to look into a refusal.
#[derive(Clone, Copy, PartialEq, Eq, Debug)]
pub enum Layer {
    Board = 1,
    Bus = 2,
    Memory = 3,
    Log = 4,
}

// The number by which a report names a layer.
impl From<Layer> for u8 {
    ghost from_gives = { λ layer n. n ≡ layer_number layer };

    fn from(layer: Layer) -> u8 {
        layer as u8
    }
}

// Why a call was refused.
#[derive(Clone, Copy, PartialEq, Eq, Debug)]
pub enum Refusal {
    // A level above 1 was given.
    BadLevel { line: Line },
    // A supply above 2 was given.
    BadSupply,
    // The memory is unfit.
    Unfit,
    // There is no such place.
    BadPlace { place: u16 },
    // The memory's life is below the places that the write sends.
    Worn { area: Area, address: u16, life: u32 },
    // The latch RWEL is off.
    RwelOff { register: u16 },
    // The clock bytes are not a date that exists; the register is the one to blame.
    NotADate { register: u16 },
    // The page is locked.
    PageLocked { address: u16 },
    // The first line of a log is not the names.
    NoNames,
    // A line of a log cannot be read.
    Unreadable,
    // A log is too long, or the room for its reply too small.
    LogSize,
}

// A refusal as it is reported, by its number; area, address and life only where a rule names them.
#[derive(Clone, Copy, PartialEq, Eq, Debug)]
pub struct Report {
    pub number: u8,
    pub layer: Layer,
    pub area: Option<Area>,
    pub address: u16,
    pub life: Option<u32>,
}

impl Refusal {
    // Its number, layer, area, address and life.
    pub fn report(self) -> Report
        ensures { result ≡ report self }
    {
        match self {
            Refusal::BadLevel { line } => Report {
                address: line.into(),
                ..Report::of(Layer::Board, 1)
            },
            Refusal::BadSupply => Report::of(Layer::Board, 2),
            Refusal::Unfit => Report::of(Layer::Board, 3),
            Refusal::BadPlace { place } => Report {
                address: place,
                ..Report::of(Layer::Board, 4)
            },
            Refusal::Worn {
                area,
                address,
                life,
            } => Report {
                life: Some(life),
                ..Report::at(Layer::Memory, 5, area, address)
            },
            Refusal::RwelOff { register } => Report::at(Layer::Bus, 6, Area::Registers, register),
            Refusal::NotADate { register } => Report::at(Layer::Bus, 7, Area::Registers, register),
            Refusal::PageLocked { address } => Report::at(Layer::Bus, 8, Area::Array, address),
            Refusal::NoNames => Report::of(Layer::Log, 9),
            Refusal::Unreadable => Report::of(Layer::Log, 10),
            Refusal::LogSize => Report::of(Layer::Log, 11),
        }
    }
}

impl Report {
    // A report that names no area, no address and no life.
    fn of(layer: Layer, number: u8) -> Report
        ensures { result ≡ unplaced layer number }
    {
        Report {
            number,
            layer,
            area: None,
            address: 0,
            life: None,
        }
    }

    // A report that names an area and an address.
    fn at(layer: Layer, number: u8, area: Area, address: u16) -> Report
        ensures { result ≡ placed layer number area address }
    {
        Report {
            area: Some(area),
            address,
            ..Report::of(layer, number)
        }
    }

    // The number by which it names its area; 0 for none.
    pub fn area_number(self) -> u8
        ensures { result ≡ area_number self.area }
    {
        self.area.map_or(0, u8::from)
    }
}

ghost use Rattle.std.specs.Prelude.{Some};
ghost use Rattle.chip.specs.Refusals.{line_address};

// The address by which a report names a line.
impl From<Line> for u16 {
    ghost from_gives = { λ line address. address ≡ line_address line };

    fn from(line: Line) -> u16 {
        line as u16
    }
}

// The number by which a report names an area.
impl From<Area> for u8 {
    ghost from_gives = { λ area n. n ≡ area_number (Some area) };

    fn from(area: Area) -> u8 {
        area as u8
    }
}
