// The reply to a log: its rows, and the room that they are written to.
ghost use Rattle.std.specs.Prelude.{◌≡◌, ◌+◌, ◌≤◌, decimal, length};

use crate::lines::{LF, SPACE};
use chip::calls::Answer;

// A row of the reply: the number of the line, the level on SDA after it, and its refusal with area and address, or zeros.
// Each is a number, since that is what a column of the reply holds.
#[derive(Clone, Copy, PartialEq, Eq, Debug)]
pub struct Row {
    pub line: u16,
    pub sda: u8,
    pub fault: u8,
    pub area: u8,
    pub address: u16,
}

impl Row {
    ghost use Rattle.runlog.specs.Reply.{row_of};

    // The row of a line that was answered so.
    pub fn of(line: u16, answer: Answer) -> Row
        ensures { result ≡ row_of line answer }
    {
        let sda = u8::from(answer.sda);
        let Some(refusal) = answer.refusal else {
            return Row {
                line,
                sda,
                fault: 0,
                area: 0,
                address: 0,
            };
        };
        let report = refusal.report();
        Row {
            line,
            sda,
            fault: report.number,
            area: report.area_number(),
            address: report.address,
        }
    }
}

// Room for a reply, of which the first `used` bytes are written.
// The length stands beside the room: std's writers over a lent slice do not say what it holds once the loan is over.
#[derive(Drop)]
pub struct Reply<'a> {
    pub room: &'a mut [u8],
    pub used: usize,
    ghost within: { used ≤ length room.now },
}

impl Reply<'_> {
    ghost use Rattle.runlog.specs.Back.{ReadsBack};
    ghost use Rattle.runlog.specs.Reply.{Appends, field, most_field, most_row, room_left, row_text};

    // The bytes of a text.
    pub fn text(&mut self, text: &[u8])
        requires { length text.now ≤ room_left self.old }
        ensures { Appends self.old self.new text.now }
    {
        let end = self.used + text.len();
        self.room[self.used..end].copy_from_slice(text);
        self.used = end;
    }

    // A number in decimal: the digits before its last one, if there are any, and then that. By hand, since the kit's `itoa` would be one
    // crate more to trust.
    fn number(&mut self, n: u16)
        requires { length (decimal n) ≤ room_left self.old }
        ensures { Appends self.old self.new (decimal n) }
    {
        if n >= 10 {
            self.number(n / 10);
        }
        self.text(&[b'0' + (n % 10) as u8]);
    }

    // A number in decimal, and the byte that ends it.
    fn field(&mut self, number: u16, end: u8)
        requires { most_field ≤ room_left self.old }
        ensures written { Appends self.old self.new (field number end) }
        ensures short { self.new.used ≤ self.old.used + most_field }
    {
        self.number(number);
        self.text(&[end]);
    }

    // A row, field by field: `write!` of a Display does not say that it succeeds, and a log that is run always has its reply.
    pub fn row(&mut self, row: Row)
        requires { most_row ≤ room_left self.old }
        ensures written { Appends self.old self.new (row_text row) }
        ensures short { self.new.used ≤ self.old.used + most_row }
        ensures back { ReadsBack row }
    {
        self.field(row.line, SPACE);
        self.field(u16::from(row.sda), SPACE);
        self.field(u16::from(row.fault), SPACE);
        self.field(u16::from(row.area), SPACE);
        self.field(row.address, LF);
    }
}
