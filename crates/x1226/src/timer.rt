// The clock with its divider: what a tick and a second mark do.
ghost use Rattle.std.specs.Prelude.{◌≡◌};
ghost use Rattle.x1226.specs.Store.{waiting_for, rwel_spent};
ghost use Rattle.x1226.specs.Timer.{divider_after, completes, marked, counted};

use crate::state::{Latches, Timer};
use calendar::clock::Clock;

// The ticks of a second.
pub const SECOND: u16 = 32_768;

impl Timer {
    // Whether the next tick completes a second.
    pub fn completes(self) -> bool
        ensures { result ≡ completes self.divider }
    {
        self.divider >= SECOND - 1
    }

    // The divider after the next tick: it begins anew at a full second.
    fn divided(self) -> u16
        ensures { result ≡ divider_after self.divider }
    {
        if self.completes() {
            0
        } else {
            self.divider + 1
        }
    }

    // Clock bytes wait for the next second mark; RTCF goes off, and RWEL with it.
    pub fn wait(&mut self, asked: Clock, latches: &mut Latches)
        ensures timer { self.new ≡ waiting_for asked self.old }
        ensures latches { latches.new ≡ rwel_spent latches.old }
    {
        self.waiting = Some(asked);
        self.rtcf = false;
        latches.rwel = false;
    }

    // A second mark: the bytes that wait are taken over, else one second passes.
    pub fn mark(&mut self)
        ensures { self.new ≡ marked self.old }
    {
        self.divider = self.divided();
        self.clock = self.waiting.take().unwrap_or_else(|| self.clock.next());
    }

    // A tick that is no mark.
    pub fn count(&mut self)
        ensures { self.new ≡ counted self.old }
    {
        self.divider = self.divided();
    }
}
