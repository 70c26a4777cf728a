// What a change of the supply does to the module.
ghost use Rattle.std.specs.Prelude.{◌≡◌};
ghost use Rattle.x1226.specs.State.{unsupplied};
ghost use Rattle.x1226.specs.Step.{off_main, switched};

use crate::state::{Alarms, Copies, Latches, Phase, Staging, State, Timer};
use calendar::clock::Clock;
use chip::calls::Supply;
use chip::slaves::Area;
use chip::wires::Levels;

impl State {
    // Without supply, under the levels that are remembered: all else as after making.
    pub fn unsupplied(levels: Levels) -> State
        ensures { result ≡ unsupplied levels }
    {
        State {
            levels,
            supply: Supply::Off,
            phase: Phase::Deaf,
            area: Area::Array,
            high: 0,
            counter: 0,
            staging: Staging::nothing(),
            latches: Latches::OFF,
            cycle: 0,
            timer: Timer {
                rtcf: true,
                divider: 0,
                clock: Clock::start(),
                waiting: None,
            },
            flags: Alarms::NONE,
            copies: Copies {
                clock: Clock::start(),
                status: 0,
                matched: Alarms::NONE,
            },
        }
    }

    // Off main supply: latches off, frame and write cycle dropped, counter 0.
    fn leave_main(&mut self)
        ensures { self.new ≡ off_main self.old }
    {
        self.latches = Latches::OFF;
        self.phase = Phase::Deaf;
        self.staging = Staging::nothing();
        self.cycle = 0;
        self.counter = 0;
    }

    // The supply changes, or is the same once more.
    pub fn switch(&mut self, to: Supply)
        ensures { self.new ≡ switched to self.old }
    {
        match to {
            Supply::Off => *self = State::unsupplied(self.levels),
            Supply::Main => self.supply = Supply::Main,
            Supply::Battery => {
                self.leave_main();
                self.supply = Supply::Battery;
            }
        }
    }
}
