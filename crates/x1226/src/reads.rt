// What a read sends: stored bytes from the memory, clock and status as they were copied.
ghost use Rattle.std.specs.Prelude.{◌≡◌};
ghost use Rattle.x1226.specs.Frame.{status_of, register_to_send, to_send};
ghost use Rattle.chip.specs.Registers.{section_of};

use crate::fit::Fit;
use crate::state::State;
use chip::calls::Supply;
use chip::registers::{REGISTER_SPACE, Section};
use chip::slaves::Area;
use chip::status::Status;
use memory::Memory;

impl State {
    // Status as it stands.
    pub fn status(&self) -> u8
        ensures { result ≡ status_of self.now }
    {
        Status {
            bat: self.supply == Supply::Battery,
            al1: self.flags.second,
            al0: self.flags.first,
            rwel: self.latches.rwel,
            wel: self.latches.wel,
            rtcf: self.timer.rtcf,
        }
        .into()
    }

    // The byte of a register: the memory's; of the clock and of status as copied; 00h at an empty address.
    fn register_to_send<M: Memory>(&self, fit: &Fit<M>, register: u16) -> u8
        ensures { result ≡ register_to_send self.now fit.now.mem (section_of register) register }
    {
        match Section::of(register) {
            None => 0,
            Some(Section::Alarm0 | Section::Alarm1 | Section::Control) => {
                fit.byte(Area::Registers.at(register).place())
            }
            Some(Section::Clock) => {
                let k = register.saturating_sub(Section::Clock.first());
                self.copies.clock.byte(usize::from(k))
            }
            Some(Section::Status) => self.copies.status,
        }
    }

    // The byte that a read sends where the counter stands.
    pub fn to_send<M: Memory>(&self, fit: &Fit<M>) -> u8
        ensures { result ≡ to_send self.now fit.now.mem self.now.area }
    {
        match self.area {
            Area::Array => fit.byte(self.counted().place()),
            Area::Registers => self.register_to_send(fit, self.counter % REGISTER_SPACE),
        }
    }
}
