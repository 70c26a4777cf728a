// A list of calls, worked one after the other on a module of its own.
ghost use Rattle.std.specs.Prelude.{min, length};
ghost use Rattle.x1226.specs.Replay.{Replayed};

use crate::board::Module;
use chip::calls::{Answer, Call};
use memory::Memory;

// Makes a module over a memory and works calls on it in order, each with its row of answers; as many as there are rows for.
#[tactic(auto, using(crate::proofs::Replaying::replayed_whole))]
pub fn replay<M: Memory>(memory: &mut M, calls: &[Call], rows: &mut [Answer]) -> Module
    ensures { Replayed (min (length calls.now) (length rows.old)) (M.holds memory.old) calls.now rows.old rows.new result.state (M.holds memory.new) }
{
    let mut module = Module::make();
    // Not a zip: of a slice behind an adapter of iter_mut a proof would know nothing.
    let mut left = calls;
    for row in rows.iter_mut() {
        let Some((call, later)) = left.split_first() else {
            break;
        };
        *row = module.work(memory, *call);
        left = later;
    }
    module
}
