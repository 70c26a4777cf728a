//! The journal: 32-bit words handed in, and an allowance of erasures.
ghost use Rattle.std.specs.Prelude.{◌≡◌, ◌+◌, ◌-◌, ◌<◌, ◌≤◌, true, length, slice_set};
ghost use Rattle.memory.specs.Sizes.{places};
ghost use Rattle.memory.specs.Model.{write};
ghost use Rattle.memory.specs.Journal.{record_word, is_orderly, records, bytes_of, used_words, laid_down, with_room, words_after, erasures_after, journal};
ghost use Rattle.memory.specs.Laws.{journal_whole, journal_lifeless};

use crate::checked::{Checked, Keeper};
use crate::sizes::{FEWEST_WORDS, MOST_ERASURES, MOST_WORDS, PLACES};
use crate::words::{Record, are_blank, count_records, factory_byte, factory_bytes, lay_down};

/// The words, how many of them are used, and the erasures left.
#[derive(Drop)]
pub struct Log<'a> {
    words: &'a mut [u32],
    used: usize,
    erasures: u32,
    ghost counted: { used ≡ used_words words.now },
    ghost within: { used ≤ length words.now },
}

impl Log<'_> {
    /// The bytes at all places, gathered from the records in one walk.
    fn gather(&self) -> [u8; PLACES]
        ensures { result ≡ bytes_of (records self.now.words.now) }
    {
        let mut bytes = factory_bytes();
        for word in &self.words[..self.used] {
            let record = Record::of_word(*word);
            bytes[record.place] = record.byte;
        }
        bytes
    }

    /// Spends one erasure, and lays the bytes down anew, as they were.
    fn renew(&mut self)
        requires long { places ≤ length self.old.words.now }
        requires spare { 0 < self.old.erasures }
        ensures words { self.new.words.now ≡ laid_down self.old.words.now }
        ensures erasures { self.new.erasures ≡ self.old.erasures - 1 }
    {
        let bytes = self.gather();
        self.erasures -= 1;
        lay_down(self.words, &bytes);
        self.used = PLACES;
    }

    /// Makes room for a record where every word is used.
    fn make_room(&mut self)
        requires { 0 < (journal self.old.words.now self.old.erasures).life }
        ensures words { self.new.words.now ≡ with_room self.old.words.now }
        ensures erasures { self.new.erasures ≡ erasures_after self.old.words.now self.old.erasures }
    {
        if self.used == self.words.len() {
            self.renew();
        }
    }

    /// Puts a record after the others.
    fn append(&mut self, next: Record)
        requires room { self.old.used < length self.old.words.now }
        requires tidy { is_orderly self.old.words.now ≡ true }
        ensures words { self.new.words.now ≡ slice_set self.old.words.now self.old.used (record_word next.place next.byte) }
        ensures erasures { self.new.erasures ≡ self.old.erasures }
    {
        let used = self.used;
        self.words[used] = u32::from(next);
        self.used += 1;
    }
}

impl Keeper for Log<'_> {
    // The memory is what the words and the erasures left say.
    ghost holds = { λ s. journal s.words.now s.erasures };

    // A record follows the others, and an erasure is spent if and only if every word was used.
    ghost put_gives = { λ s place byte t. (t.words.now ≡ words_after s.words.now place byte) × (t.erasures ≡ erasures_after s.words.now s.erasures) };

    fn is_fit(&self) -> bool {
        (FEWEST_WORDS..=MOST_WORDS).contains(&self.words.len())
            && self.erasures <= MOST_ERASURES
            && are_blank(&self.words[self.used..])
    }

    /// The words left, and for each erasure the words that it wins.
    fn life(&self) -> u32 {
        let left = (self.words.len() - self.used) as u32;
        let won = (self.words.len() - PLACES) as u32;
        left + self.erasures * won
    }

    fn byte_at(&self, place: usize) -> u8 {
        let used = self.used;
        let mut byte = factory_byte(place);
        // A rule prescribes this loop: over the words with their index, keeping the latest record of the place.
        for (i, word) in self.words.iter().enumerate() {
            if i == used {
                break;
            }
            let record = Record::of_word(*word);
            if record.place == place {
                byte = record.byte;
            }
        }
        byte
    }

    fn put(&mut self, place: usize, byte: u8) {
        self.make_room();
        self.append(Record { place, byte });
    }

    ghost whole = { λ s _. journal_whole s.words.now s.erasures };

    ghost lifeless = { λ s. journal_lifeless s.words.now s.erasures };
}

/// A memory over words handed in. A write appends a record, and the last record of a place counts.
pub type Journal<'a> = Checked<Log<'a>>;

impl<'a> Journal<'a> {
    /// Puts a journal together from any words and any allowance of erasures. One walk over the words decides whether it is fit.
    pub fn new(words: &'a mut [u32], erasures: u32) -> Journal<'a>
        ensures words { result.keeper.words.now ≡ words.old }
        ensures erasures { result.keeper.erasures ≡ erasures }
    {
        let used = count_records(words);
        Checked::over(Log {
            words,
            used,
            erasures,
        })
    }

    /// The words that are used: the records at the front.
    pub fn words_used(&self) -> usize
        ensures { result ≡ used_words self.now.keeper.words.now }
    {
        self.keeper.used
    }

    /// The erasures that are left.
    pub fn erasures_left(&self) -> u32
        ensures { result ≡ self.now.keeper.erasures }
    {
        self.keeper.erasures
    }
}
