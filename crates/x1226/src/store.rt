// How staged bytes go to the memory: all that its life lasts for, or none.
ghost use Rattle.std.specs.Prelude.{◌≡◌, ◌<◌};
ghost use Rattle.chip.specs.Counter.{address_at};
ghost use Rattle.x1226.specs.Memories.{holding};
ghost use Rattle.x1226.specs.Stop.{address_staged, lock_byte, store_held, stored_held};
ghost use Rattle.x1226.specs.Store.{store, store_page, store_registers, date_asked};

use crate::fit::Fit;
use crate::state::{Latches, Staging};
use calendar::clock::Clock;
use chip::counter::Address;
use chip::locks::is_locked;
use chip::pages::page_first;
use chip::refusals::Refusal;
use chip::registers::Section;
use chip::slaves::Area;
use memory::Memory;

// The byte stored for BL, the first of the control registers.
fn lock_byte<M: Memory>(fit: &Fit<M>) -> u8
    ensures { result ≡ lock_byte fit.now.mem }
{
    fit.byte(Section::Control.address().place())
}

// The area comes beside the record: a frame has its area from its slave byte, before there is a record of what it sends.
impl Staging {
    // The address that staged place `k` stands for.
    fn address_staged(&self, area: Area, k: u16) -> Address
        requires { k < 64 }
        ensures { result ≡ address_at area (address_staged area self.now.address k) }
    {
        let offset = match area {
            Area::Array => page_first(self.address) + k,
            Area::Registers => k,
        };
        area.at(offset)
    }

    // Stores what is held in staged place `k`, under the mask where it is a register's.
    fn store_held<M: Memory>(&self, fit: &mut Fit<M>, area: Area, k: u16, held: Option<u8>)
        requires { k < 64 }
        ensures { fit.new ≡ holding (store_held area self.now.address k held fit.old.mem) fit.old }
    {
        if let Some(byte) = held {
            let to = self.address_staged(area, k);
            fit.put(to.place(), to.stored_as(byte));
        }
    }

    // Stores every staged byte, rising.
    fn store_all<M: Memory>(&self, fit: &mut Fit<M>, area: Area)
        ensures { fit.new ≡ holding (stored_held area self.now.address self.now.held 64 fit.old.mem) fit.old }
    {
        for (k, held) in self.held.iter().enumerate() {
            self.store_held(fit, area, k as u16, *held);
        }
    }

    // Stores the staged bytes if the memory's life lasts for all of them.
    fn store<M: Memory>(&self, fit: &mut Fit<M>, area: Area) -> Result<(), Refusal>
        ensures answer { result ≡ (store area self.now fit.old.mem).answer }
        ensures after { fit.new ≡ holding (store area self.now fit.old.mem).mem fit.old }
    {
        let address = self.address;
        fit.claim(self.count()).map_err(|life| Refusal::Worn {
            area,
            address,
            life,
        })?;
        self.store_all(fit, area);
        Ok(())
    }

    // Stores a page, unless BL locks it.
    pub fn store_page<M: Memory>(&self, fit: &mut Fit<M>) -> Result<(), Refusal>
        ensures answer { result ≡ (store_page self.now fit.old.mem).answer }
        ensures after { fit.new ≡ holding (store_page self.now fit.old.mem).mem fit.old }
    {
        let address = self.address;
        if is_locked(lock_byte(fit), address) {
            return Err(Refusal::PageLocked { address });
        }
        self.store(fit, Area::Array)
    }

    // Stores registers, if RWEL is on.
    pub fn store_registers<M: Memory>(
        &self,
        fit: &mut Fit<M>,
        latches: Latches,
    ) -> Result<(), Refusal>
        ensures answer { result ≡ (store_registers latches self.now fit.old.mem).answer }
        ensures after { fit.new ≡ holding (store_registers latches self.now fit.old.mem).mem fit.old }
    {
        latches.check_rwel(self.address)?;
        self.store(fit, Area::Registers)
    }

    // The clock that the staged bytes ask for, if RWEL is on and it is a date that exists.
    pub fn date_asked(&self, latches: Latches, copied: Clock) -> Result<Clock, Refusal>
        ensures { result ≡ date_asked latches self.now copied }
    {
        latches.check_rwel(self.address)?;
        self.joined_to(copied)
            .checked()
            .map_err(|register| Refusal::NotADate {
                register: u8::from(register).into(),
            })
    }
}
