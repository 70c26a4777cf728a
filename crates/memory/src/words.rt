//! The words of a journal: records at the front, then blanks.
ghost use Rattle.std.specs.Prelude.{◌≡◌, ◌/◌, ◌%◌, ◌<◌, true, [], ◌≤◌, ◌-◌, ◌++◌, length, replicate};
ghost use Rattle.memory.specs.Sizes.{places, byte_values};
ghost use Rattle.memory.specs.Journal.{blank, blanks, record_word, is_record, factory, bytes_of, used_words, records_of};

use crate::sizes::{ARRAY_PLACES, PLACES};
use std::array;

/// An erased word.
pub const BLANK: u32 = 0xFFFF_FFFF;

/// The values that a byte can have.
const BYTE_VALUES: u32 = 256;

/// A record is below this number.
const RECORD_LIMIT: u32 = PLACES as u32 * BYTE_VALUES;

/// A byte laid down at a place that a memory has; a `ByteWrite` may name any place.
#[derive(Clone, Copy)]
pub(crate) struct Record {
    pub(crate) place: usize,
    pub(crate) byte: u8,
    ghost low: { place < places },
}

/// Whether a word is a record.
fn is_record(word: u32) -> bool
    ensures { result ≡ is_record word }
{
    word < RECORD_LIMIT
}

impl Record {
    /// The record that a word is.
    // No TryFrom: who asks knows that the word is a record.
    pub(crate) fn of_word(word: u32) -> Record
        requires { is_record word ≡ true }
        ensures place { result.place ≡ word / byte_values }
        ensures byte { result.byte ≡ word % byte_values }
    {
        Record {
            place: (word / BYTE_VALUES) as usize,
            byte: (word % BYTE_VALUES) as u8,
        }
    }
}

impl From<Record> for u32 {
    ghost from_gives = { λ given word. word ≡ record_word given.place given.byte };

    fn from(given: Record) -> u32 {
        given.place as u32 * BYTE_VALUES + u32::from(given.byte)
    }
}

/// How many records stand at the front.
pub(crate) fn count_records(words: &[u32]) -> usize
    ensures { result ≡ used_words words.now }
{
    words.iter().take_while(|word| is_record(**word)).count()
}

/// Whether the words are blanks only.
pub(crate) fn are_blank(words: &[u32]) -> bool
    ensures { result ≡ blanks words.now }
{
    words.iter().all(|word| *word == BLANK)
}

/// The byte of a place that has no record.
pub(crate) fn factory_byte(place: usize) -> u8
    ensures { result ≡ factory place }
{
    if place < ARRAY_PLACES {
        0xFF
    } else if place == ARRAY_PLACES + 0x07 || place == ARRAY_PLACES + 0x0F {
        0x20
    } else {
        0x00
    }
}

/// The bytes of places that have no record.
pub fn factory_bytes() -> [u8; PLACES]
    ensures { result ≡ bytes_of [] }
{
    array::from_fn(factory_byte)
}

/// Lays down a record for each place at the front of the words, and makes the others blank.
pub(crate) fn lay_down(words: &mut [u32], bytes: &[u8; PLACES])
    requires { places ≤ length words.old }
    ensures { words.new ≡ records_of bytes.now ++ replicate (length words.old - places) blank }
{
    // Not a zip of the two: of a slice behind an adapter of iter_mut a proof would know nothing.
    words.fill(BLANK);
    for (place, byte) in bytes.iter().enumerate() {
        words[place] = u32::from(Record { place, byte: *byte });
    }
}
