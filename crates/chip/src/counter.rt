// The address counter: the addresses that it takes and how it moves, and which data bytes are taken where it stands.
ghost use Rattle.std.specs.Prelude.{◌≡◌, ◌%◌};
ghost use Rattle.chip.specs.Counter.{address_at, address_in, next_written, next_read, at_status, takes_data};
ghost use Rattle.chip.specs.Registers.{section_of};
ghost use Rattle.chip.specs.Sizes.{register_space};

use crate::pages::{ARRAY, next_in_array, next_in_page};
use crate::registers::{REGISTER_SPACE, Section, next_register};
use crate::slaves::Area;

// An address of an area. The counter is one: it may stand past the registers, and names one of them modulo 64.
#[derive(Clone, Copy, PartialEq, Eq, Debug)]
pub struct Address {
    pub area: Area,
    pub offset: u16,
}

impl Area {
    // An address of this area.
    pub fn at(self, offset: u16) -> Address
        ensures { result ≡ address_at self offset }
    {
        Address { area: self, offset }
    }

    // The address that two bytes name: modulo 512 in the array, modulo 64 among the registers.
    pub fn address(self, high: u8, low: u8) -> Address
        ensures { result ≡ address_at self (address_in self high low) }
    {
        let both = u16::from_be_bytes([high, low]);
        match self {
            Area::Array => self.at(both % ARRAY),
            Area::Registers => self.at(both % REGISTER_SPACE),
        }
    }
}

impl Address {
    // The section of the register that this address names.
    fn section(self) -> Option<Section>
        ensures { result ≡ section_of (self.offset % register_space) }
    {
        Section::of(self.offset % REGISTER_SPACE)
    }

    // Where the counter goes after an acknowledged data byte: one on inside its page or section.
    pub fn next_written(self) -> u16
        ensures { result ≡ next_written self.area self.offset }
    {
        match self.area {
            Area::Array => next_in_page(self.offset),
            Area::Registers => next_register(self.offset),
        }
    }

    // Where the counter goes after a byte sent: one on across the array, or inside its section; status and empty addresses do not
    // move it.
    pub fn next_read(self) -> u16
        ensures { result ≡ next_read self.area self.offset }
    {
        match self.area {
            Area::Array => next_in_array(self.offset),
            Area::Registers => match self.section() {
                None | Some(Section::Status) => self.offset,
                Some(section) => section.next(self.offset % REGISTER_SPACE),
            },
        }
    }

    // Whether a read here sends status.
    pub fn is_status(self) -> bool
        ensures { result ≡ at_status self.area self.offset }
    {
        self.area == Area::Registers && self.section() == Some(Section::Status)
    }

    // Whether a data byte of a write that began here is taken: where WEL is on; by status its first always and no other; outside all
    // sections none.
    pub fn takes_data(self, wel: bool, is_first: bool) -> bool
        ensures { result ≡ takes_data wel self.area self.offset is_first }
    {
        match self.area {
            Area::Array => wel,
            Area::Registers => match Section::of(self.offset) {
                None => false,
                Some(Section::Status) => is_first,
                Some(_) => wel,
            },
        }
    }
}
