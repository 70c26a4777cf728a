// The rows: what the terminal is answered, call by call.
ghost use Rattle.std.specs.Prelude.{◌≡◌, ℕ, ◌<◌, ◌≤◌, true, length, drop, MatchResult, slice_index};
ghost use Rattle.law.specs.Run.{Lawful};
ghost use Rattle.terminal.specs.Rows.{bit_at, byte_at, byte_of, level_at, write_outcome};

use crate::error::BusError;
use crate::script::Script;
use chip::calls::Answer;
use law::run;
use memory::Memory;
use std::alloc::{AllocError, Global};
use std::marker::Model;

// The rows of a byte: two for each of nine pulses.
const BYTE_ROWS: usize = 18;

// A row of its own for each call of a script.
#[derive(Drop)]
pub struct Rows {
    answers: Vec<Answer>,
}

// Rows are the list of their answers.
impl Model for Rows {
    ghost use Rattle.std.specs.Prelude.{List};
    ghost use Rattle.chip.specs.declared.calls.Answer.{Answer};

    ghost Value = { List Answer };

    ghost view = { λ rows. rows.answers.items };
}

impl Rows {
    // Works a script on a module over a memory. Over a fit memory the whole law of a run holds of the script and its rows.
    pub fn of<M: Memory>(heap: Global, script: &Script, memory: &mut M) -> Result<Rows, AllocError>
        ensures lawful { MatchResult result (λ rows. ((M.holds memory.old).fit ≡ true → Lawful (M.holds memory.old) script.now rows)) (λ _. M.holds memory.new ≡ M.holds memory.old) }
    {
        let released = Answer {
            sda: true,
            refusal: None,
        };
        let mut answers = vec![in heap; released; script.mark()]?;
        let _ = run(memory, script.calls(), answers.as_mut_slice());
        Ok(Rows { answers })
    }

    // The rows from a mark on.
    pub fn from(&self, mark: usize) -> &[Answer]
        ensures { result.now ≡ drop mark self.now }
    {
        behind(&self.answers, mark)
    }
}

// The rows behind the first `count`.
fn behind(rows: &[Answer], count: usize) -> &[Answer]
    ensures { result.now ≡ drop count rows.now }
{
    rows.get(count..).unwrap_or(&[])
}

// The level that the module leaves on SDA at a row; past the last row it is released.
fn level_at(rows: &[Answer], row: usize) -> bool
    ensures { result ≡ level_at rows.now row }
{
    rows.get(row).is_none_or(|row| row.sda)
}

fn bit_at(rows: &[Answer], row: usize) -> u8
    ensures value { result ≡ bit_at rows.now row }
    ensures bound { result ≤ 1 }
{
    u8::from(level_at(rows, row))
}

// The byte of nine pulses that begin the rows. Bit by bit, as its rule says it: a fold would be no shorter to compare with that.
fn byte_of(rows: &[Answer]) -> u8
    ensures { result ≡ byte_of rows.now }
{
    128 * bit_at(rows, 1)
        + 64 * bit_at(rows, 3)
        + 32 * bit_at(rows, 5)
        + 16 * bit_at(rows, 7)
        + 8 * bit_at(rows, 9)
        + 4 * bit_at(rows, 11)
        + 2 * bit_at(rows, 13)
        + bit_at(rows, 15)
}

// The byte that the rows begin with; FFh where they have not as many rows.
fn first_byte(rows: &[Answer]) -> u8
    ensures { result ≡ byte_at rows.now 0 }
{
    if rows.len() < BYTE_ROWS {
        0xFF
    } else {
        byte_of(rows)
    }
}

// Fills a buffer with the bytes that the rows begin with.
pub fn read_bytes(rows: &[Answer], bytes: &mut [u8])
    ensures { (k : ℕ) → k < length bytes.new → slice_index bytes.new k ≡ byte_at rows.now k }
{
    // Not a zip: of a slice behind an adapter of iter_mut a proof would know nothing.
    let mut left = rows;
    for byte in bytes.iter_mut() {
        *byte = first_byte(left);
        left = behind(left, BYTE_ROWS);
    }
}

// What became of a write of `count` data bytes whose start is the first row.
pub fn write_outcome(rows: &[Answer], count: u16) -> Result<(), BusError>
    ensures { result ≡ write_outcome rows.now count }
{
    let end = BYTE_ROWS * (usize::from(count) + 3);
    if level_at(rows, end) {
        return Err(BusError::Silent);
    }
    match rows.get(end + 3).and_then(|row| row.refusal) {
        Some(refusal) => Err(BusError::Refused(refusal)),
        None => Ok(()),
    }
}
