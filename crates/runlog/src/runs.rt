// A log worked on a module, line by line.
ghost use Rattle.std.specs.Prelude.{◌≡◌, ◌≤◌, length, IfOk};
ghost use Rattle.runlog.specs.Back.{RowsReadBack};
ghost use Rattle.runlog.specs.Run.{log_worked, run_log};

use crate::board::Board;
use crate::reply::Reply;
use chip::refusals::Refusal;
use memory::Memory;
use x1226::Module;

/// The bytes of the longest log.
pub const MOST_LOG: usize = 8_192;

/// The bytes of the least room for a reply.
pub const LEAST_REPLY: usize = 32_768;

// The first line of a reply.
const REPLY_NAMES: &[u8] = b"line sda fault area address\n";

/// Works a module from a log, and writes the reply: a row for each line. Answers the bytes written.
///
/// A log above 8,192 bytes or room below 32,768 is refused and leaves all as it was, as an unfit memory is before that. Else the reply
/// is what `run_log` says, byte for byte, for every log; the bytes of the room after it are as they were. The rows of the reply can be
/// read back from their text as they were written.
pub fn run_log<M: Memory>(
    chip: &mut Module,
    memory: &mut M,
    log: &[u8],
    reply: &mut [u8],
) -> Result<usize, Refusal>
    ensures answer { result ≡ (run_log chip.old.state (M.holds memory.old) log.now reply.old).answer }
    ensures within { IfOk result (λ written. written ≤ length reply.new) }
    ensures reply { reply.new ≡ (run_log chip.old.state (M.holds memory.old) log.now reply.old).reply }
    ensures back { IfOk result (λ written. RowsReadBack (log_worked log.now chip.old.state (M.holds memory.old)).rows) }
    ensures state { chip.new.state ≡ (run_log chip.old.state (M.holds memory.old) log.now reply.old).state }
    ensures mem { M.holds memory.new ≡ (run_log chip.old.state (M.holds memory.old) log.now reply.old).mem }
{
    if !memory.is_fit() {
        return Err(Refusal::Unfit);
    }
    if log.len() > MOST_LOG || reply.len() < LEAST_REPLY {
        return Err(Refusal::LogSize);
    }
    let mut reply = Reply {
        room: reply,
        used: 0,
    };
    reply.text(REPLY_NAMES);
    Board { chip, memory }.work_log(log, &mut reply);
    Ok(reply.used)
}
