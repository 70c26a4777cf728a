//! What a memory is: four calls, their refusals, two memories, and work over any of them.
#![tactic(auto)]

ghost use Rattle.std.specs.Prelude.{◌≡◌, true};
ghost use Rattle.memory.specs.Model.{Mem, Whole, read, claim, write, written};

mod checked;
mod image;
mod journal;
mod refusal;
mod runs;
mod sizes;
mod words;

pub use image::Image;
pub use journal::Journal;
pub use refusal::Refusal;
pub use runs::{ByteWrite, fetch, life_left, store, write_each};
pub use sizes::{ARRAY_PLACES, FEWEST_WORDS, MOST_ERASURES, MOST_WORDS, MOST_WRITES, PLACES};
pub use words::{BLANK, factory_bytes};

/// A memory: places with one byte each, and a life, the byte writes that it will still take.
pub trait Memory {
    // The memory as its user sees it.
    ghost holds: { Self → Mem };

    /// Whether the memory is fit. An unfit memory refuses all else.
    fn is_fit(&self) -> bool
        ensures answer { result ≡ (holds self.now).fit }
        ensures whole { result ≡ true → Whole (holds self.now) };

    /// The byte at a place.
    fn read(&self, place: usize) -> Result<u8, Refusal>
        ensures { result ≡ read (holds self.now) place };

    /// Asks whether the memory will take `n` more writes.
    fn claim(&self, n: u32) -> Result<(), Refusal>
        ensures { result ≡ claim (holds self.now) n };

    /// Puts a byte at a place, and spends one write of the life.
    // Place and byte are two numbers, as boards have them; only a list of writes has a struct of the two.
    fn write(&mut self, place: usize, byte: u8) -> Result<(), Refusal>
        ensures answer { result ≡ write (holds self.old) place }
        ensures after { holds self.new ≡ written (holds self.old) place byte };

    // A fit memory has one byte for each place. `is_fit` says so too, since of a memory behind a `dyn` no law is known.
    ghost whole: { (s : Self) → (holds s).fit ≡ true → Whole (holds s) };
}
