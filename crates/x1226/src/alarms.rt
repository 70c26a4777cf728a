// The alarms, read from the memory at a second mark.
ghost use Rattle.std.specs.Prelude.{◌≡◌};
ghost use Rattle.x1226.specs.Timer.{alarm, matching, joined};

use crate::fit::Fit;
use crate::state::Alarms;
use calendar::alarm::Alarm;
use calendar::clock::Clock;
use chip::registers::Section;
use memory::Memory;
use std::array;

// The eight bytes of an alarm, as stored.
fn alarm<M: Memory>(fit: &Fit<M>, section: Section) -> Alarm
    ensures { result ≡ alarm fit.now.mem section }
{
    let first = section.address().place();
    Alarm::from(array::from_fn(|k| fit.byte(first + k)))
}

impl Alarms {
    // None of them.
    pub const NONE: Alarms = Alarms {
        first: false,
        second: false,
    };

    // The alarms that match a date shown.
    pub fn matching<M: Memory>(fit: &Fit<M>, clock: Clock) -> Alarms
        ensures { result ≡ matching fit.now.mem clock }
    {
        Alarms {
            first: alarm(fit, Section::Alarm0).matches(clock),
            second: alarm(fit, Section::Alarm1).matches(clock),
        }
    }

    // What was on, and what came.
    pub fn joined(self, came: Alarms) -> Alarms
        ensures { result ≡ joined self came }
    {
        Alarms {
            first: self.first || came.first,
            second: self.second || came.second,
        }
    }
}
