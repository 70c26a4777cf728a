// The staging record: data bytes of a write that no stop has closed yet.
ghost use Rattle.std.specs.Prelude.{◌≡◌, ◌<◌};
ghost use Rattle.x1226.specs.State.{nothing_staged};
ghost use Rattle.x1226.specs.Stop.{count_held};
ghost use Rattle.x1226.specs.Store.{staged_from, sent_to, clock_joined};

use crate::state::{STAGED, Staging};
use calendar::clock::Clock;
use chip::registers::Section;
use std::array;

impl Staging {
    // No byte staged yet, of a write whose first data byte goes to an address.
    pub fn from_address(address: u16) -> Staging
        ensures { result ≡ staged_from address }
    {
        Staging {
            address,
            held: [None; STAGED],
        }
    }

    // Nothing staged.
    pub fn nothing() -> Staging
        ensures { result ≡ nothing_staged }
    {
        Staging::from_address(0)
    }

    // How many places have a byte.
    pub fn count(&self) -> u32
        ensures { result ≡ count_held self.now.held 64 }
    {
        self.held.iter().filter(|held| held.is_some()).count() as u32
    }

    // The byte staged for a register; none for a register that there is not.
    pub fn sent_to(&self, register: u16) -> Option<u8>
        ensures { result ≡ sent_to self.now register }
    {
        self.held.get(usize::from(register)).copied().flatten()
    }

    // The clock bytes that the staged ones make of the clock copied.
    pub fn joined_to(&self, copied: Clock) -> Clock
        ensures { result ≡ clock_joined copied self.now }
    {
        let bytes: [u8; 8] = copied.into();
        let first = usize::from(Section::Clock.first());
        Clock::from(array::from_fn(|k| { self.held[first + k].unwrap_or(bytes[k]) }))
    }
}

// A staging record that is empty once this is let go, whichever way a stop is left.
pub struct Emptied<'a>(pub &'a mut Staging);

impl Drop for Emptied<'_> {
    fn drop(self)
        ensures { self.exit.0.now ≡ nothing_staged }
    {
        *self.0 = Staging::nothing();
        let Emptied(_) = self;
    }
}
