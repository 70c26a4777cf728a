// What a tick does to the module.
ghost use Rattle.std.specs.Prelude.{◌≡◌};
ghost use Rattle.x1226.specs.Timer.{noted, timed, ticked};

use crate::fit::Fit;
use crate::state::{Alarms, State};
use chip::calls::Supply;
use memory::Memory;

impl State {
    // After a mark the alarms are looked at.
    fn note<M: Memory>(&mut self, fit: &Fit<M>)
        ensures { self.new ≡ noted self.old fit.now.mem }
    {
        let came = Alarms::matching(fit, self.timer.clock);
        self.flags = self.flags.joined(came);
        self.copies.matched = self.copies.matched.joined(came);
    }

    // The divider counts; a full second with RTCF off is a mark.
    fn time<M: Memory>(&mut self, fit: &Fit<M>)
        ensures { self.new ≡ timed self.old fit.now.mem }
    {
        if self.timer.completes() && !self.timer.rtcf {
            self.timer.mark();
            self.note(fit);
        } else {
            self.timer.count();
        }
    }

    // A tick: one less of the write cycle; the divider counts while supplied.
    pub fn tick<M: Memory>(&mut self, fit: &Fit<M>)
        ensures { self.new ≡ ticked self.old fit.now.mem }
    {
        if self.supply != Supply::Off {
            self.cycle = self.cycle.saturating_sub(1);
            self.time(fit);
        }
    }
}
