// Places: where the memory keeps an address, and what a write stores there.
ghost use Rattle.std.specs.Prelude.{◌≡◌};
ghost use Rattle.chip.specs.Places.{place_of, stores};

use crate::counter::Address;
use crate::pages::ARRAY;
use crate::registers::masked;
use crate::slaves::Area;

impl Address {
    // The memory's place for it: the array first, then the registers from 00h on.
    pub fn place(self) -> usize
        ensures { result ≡ place_of self.area self.offset }
    {
        let offset = usize::from(self.offset);
        match self.area {
            Area::Array => offset,
            Area::Registers => usize::from(ARRAY) + offset,
        }
    }

    // What a byte sent to it stores: all of it in the array, in a register what its mask lets through.
    pub fn stored_as(self, byte: u8) -> u8
        ensures { result ≡ stores self.area self.offset byte }
    {
        match self.area {
            Area::Array => byte,
            Area::Registers => masked(self.offset, byte),
        }
    }
}
