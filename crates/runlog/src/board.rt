// A module and the memory that it is worked over, lent together.
ghost use Rattle.std.specs.Prelude.{◌≡◌, ◌+◌, ◌≤◌, length};
ghost use Rattle.x1226.specs.Step.{told};
ghost use Rattle.runlog.specs.Back.{ReadsBack, RowsReadBack};
ghost use Rattle.runlog.specs.Board.{IsLeft, told_of, called, lined, ran, logged};
ghost use Rattle.runlog.specs.Calls.{calls_of};
ghost use Rattle.runlog.specs.Lines.{bytes_of, Values};
ghost use Rattle.runlog.specs.Reply.{Appends, most_row, room_left, row_text, rows_room};
ghost use Rattle.runlog.specs.Run.{most_log, rows_text};
ghost use Rattle.runlog.specs.Texts.{lines};

use crate::calls::LineCall;
use crate::lines::Lines;
use crate::reply::{Reply, Row};
use chip::calls::{Answer, Call};
use chip::refusals::Refusal;
use memory::Memory;
use x1226::Module;

// The first line of a log.
const NAMES: &[u8] = b"call one two";

// The value lines of a log; none where its first line is not the names.
fn values(log: &[u8]) -> Option<Lines<'_>>
    ensures { Values log.now result }
{
    let mut lines = Lines::of(log);
    (lines.next()? == NAMES).then_some(lines)
}

// A module and its memory.
#[derive(Drop)]
pub struct Board<'a, M> {
    pub chip: &'a mut Module,
    pub memory: &'a mut M,
}

impl<M: Memory> Board<'_, M> {
    // What a board is told where no call is made: the level on SDA as it stands.
    fn told(&self, refusal: Option<Refusal>) -> Answer
        ensures { result ≡ told_of self.now refusal }
    {
        self.chip.told(refusal)
    }

    // Makes the calls of a line, and answers what a board is told after the last of them.
    fn work(&mut self, line: LineCall) -> Answer
        ensures left { let l = called M.holds self.old (calls_of line) in IsLeft M.holds self.old self.new l.state l.mem }
        ensures answer { result ≡ told (called M.holds self.old (calls_of line)) }
    {
        let mut answer = self.told(None);
        for _ in 0..line.times {
            answer = self.chip.work(self.memory, line.call);
        }
        answer
    }

    // Works a value line, and writes its row. Answers whether the line could be read.
    fn work_line(&mut self, reply: &mut Reply, number: u16, line: &[u8]) -> bool
        requires { most_row ≤ room_left reply.old }
        ensures goes_on { result ≡ (lined M.holds self.old number line.now).goes_on }
        ensures left { let l = lined M.holds self.old number line.now in IsLeft M.holds self.old self.new l.state l.mem }
        ensures written { Appends reply.old reply.new (row_text (lined M.holds self.old number line.now).row) }
        ensures short { reply.new.used ≤ reply.old.used + most_row }
        ensures back { ReadsBack (lined M.holds self.old number line.now).row }
    {
        let Some(call) = LineCall::read(line) else {
            reply.row(Row::of(number, self.told(Some(Refusal::Unreadable))));
            return false;
        };
        reply.row(Row::of(number, self.work(call)));
        true
    }

    // Works value lines from line 2 on, up to the first that cannot be read.
    fn work_lines(&mut self, values: Lines, reply: &mut Reply)
        requires few { bytes_of (lines values.rest.now) ≤ most_log }
        requires room { rows_room ≤ room_left reply.old }
        ensures left { let r = ran M.holds self.old values.entry.rest.now in IsLeft M.holds self.old self.new r.state r.mem }
        ensures written { Appends reply.old reply.new (rows_text (ran M.holds self.old values.entry.rest.now).rows) }
        ensures back { RowsReadBack (ran M.holds self.old values.entry.rest.now).rows }
    {
        for (number, line) in (2..).zip(values) {
            if !self.work_line(reply, number, line) {
                return;
            }
        }
    }

    // Works a log, and writes its rows.
    pub fn work_log(&mut self, log: &[u8], reply: &mut Reply)
        requires few { length log.now ≤ most_log }
        requires room { rows_room ≤ room_left reply.old }
        ensures left { let r = logged M.holds self.old log.now in IsLeft M.holds self.old self.new r.state r.mem }
        ensures written { Appends reply.old reply.new (rows_text (logged M.holds self.old log.now).rows) }
        ensures back { RowsReadBack (logged M.holds self.old log.now).rows }
    {
        match values(log) {
            Some(values) => self.work_lines(values, reply),
            None => reply.row(Row::of(1, self.told(Some(Refusal::NoNames)))),
        }
    }
}
