// What a stop does: it closes a write, and on every way out nothing is staged and the module is deaf.
ghost use Rattle.std.specs.Prelude.{◌≡◌};
ghost use Rattle.x1226.specs.Stop.{stopped};
ghost use Rattle.x1226.specs.Memories.{holding};
ghost use Rattle.x1226.specs.Store.{verdict};

use crate::fit::Fit;
use crate::staging::Emptied;
use crate::state::{Phase, State};
use chip::refusals::Refusal;
use chip::registers::Section;
use chip::slaves::Area;
use memory::Memory;

// The ticks of a write cycle.
const WRITE_CYCLE: u8 = 164;

impl State {
    // A stop: a write that it closes is worked or refused, and the staged bytes are emptied on every way out.
    pub fn stop<M: Memory>(&mut self, fit: &mut Fit<M>) -> Result<(), Refusal>
        ensures state { self.new ≡ (stopped self.old fit.old.mem).state }
        ensures mem { fit.new ≡ holding (stopped self.old fit.old.mem).mem fit.old }
        ensures answer { result ≡ verdict (stopped self.old fit.old.mem).refusal }
    {
        let closes = self.phase.closes();
        self.phase = Phase::Deaf;
        let staged = Emptied(&mut self.staging);
        if !closes {
            return Ok(());
        }
        match self.area {
            Area::Array => {
                staged.0.store_page(fit)?;
                self.cycle = WRITE_CYCLE;
                Ok(())
            }
            Area::Registers => match Section::of(staged.0.address) {
                Some(Section::Alarm0 | Section::Alarm1 | Section::Control) => {
                    staged.0.store_registers(fit, self.latches)?;
                    self.latches.rwel = false;
                    self.cycle = WRITE_CYCLE;
                    Ok(())
                }
                Some(Section::Clock) => {
                    let asked = staged.0.date_asked(self.latches, self.copies.clock)?;
                    self.timer.wait(asked, &mut self.latches);
                    Ok(())
                }
                Some(Section::Status) => {
                    let byte = staged.0.sent_to(Section::Status.first()).unwrap_or(0);
                    self.latches = self.latches.after(byte);
                    Ok(())
                }
                None => Ok(()),
            },
        }
    }
}
