// The law over every run of the module, on the contract of the call that works a list of calls.
#![tactic(auto)]

ghost use Rattle.std.specs.Prelude.{◌≡◌, min, true, false, length, take};
ghost use Rattle.law.specs.Run.{Lawful, Unmoved};
ghost use Rattle.x1226.specs.Replay.{Replayed};

use chip::calls::{Answer, Call};
use memory::Memory;
use x1226::{Module, replay};

// Makes a module over a memory and works calls on it in order, each with its row of answers: as many as there are rows for.
//
// Over a fit memory the whole law of a run holds (`lawful`): every call answers as the rules say; the clock always holds a date that
// exists, the one last taken over and one second more for each second mark since; a stored byte changes exactly at a stop that closes a
// lawful write which last sends its place another byte; before the first call and after each, what `show` and `pin` answer is what the
// rules say of registers, flags, latches and pin; ten pulses with SDA released free the wire, and a start is then heard. Module and
// memory at the end are those of the calls one after the other (`replayed`). An unfit memory refuses every call (`unmoved`).
pub fn run<M: Memory>(memory: &mut M, calls: &[Call], rows: &mut [Answer]) -> Module
    ensures lawful { (M.holds memory.old).fit ≡ true → Lawful (M.holds memory.old) (take (min (length calls.now) (length rows.old)) calls.now) rows.new }
    ensures replayed { Replayed (min (length calls.now) (length rows.old)) (M.holds memory.old) calls.now rows.old rows.new result.state (M.holds memory.new) }
    ensures unmoved { (M.holds memory.old).fit ≡ false → Unmoved (min (length calls.now) (length rows.old)) (M.holds memory.old) rows.new result.state (M.holds memory.new) }
{
    replay(memory, calls, rows)
}
