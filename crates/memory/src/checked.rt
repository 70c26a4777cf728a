//! A memory over what keeps its bytes: it looks at each call, and passes on those that it does not refuse.
ghost use Rattle.std.specs.Prelude.{◌≡◌, ℕ, ◌<◌, true, false, OnOk, OnErr, Ok, slice_index};
ghost use Rattle.memory.specs.Model.{Mem, Whole, place_check, write, written, with_byte};

use crate::Memory;
use crate::refusal::Refusal;
use crate::sizes::PLACES;

/// What keeps the bytes of a memory. It is asked only for what the memory does not refuse.
pub trait Keeper {
    // The memory that is kept.
    ghost holds: { Self → Mem };

    // What becomes of the keeper where a byte is put at a place.
    ghost put_gives: { Self → ℕ → ℕ → Self → Type 0 };

    /// Whether the memory is fit.
    fn is_fit(&self) -> bool
        ensures { result ≡ (holds self.now).fit };

    /// The byte writes that a fit memory will still take.
    fn life(&self) -> u32
        requires { (holds self.now).fit ≡ true }
        ensures { result ≡ (holds self.now).life };

    /// The byte at a place that a fit memory has.
    fn byte_at(&self, place: usize) -> u8
        requires { place_check (holds self.now).fit place ≡ Ok tt }
        ensures { result ≡ slice_index (holds self.now).bytes place };

    /// Puts a byte at a place, where the memory takes the write.
    fn put(&mut self, place: usize, byte: u8)
        requires { write (holds self.old) place ≡ Ok tt }
        ensures after { holds self.new ≡ with_byte (holds self.old) place byte }
        ensures gives { put_gives self.old place byte self.new };

    // A fit memory has one byte for each place.
    ghost whole: { (s : Self) → (holds s).fit ≡ true → Whole (holds s) };

    // An unfit memory takes no writes.
    ghost lifeless: { (s : Self) → (holds s).fit ≡ false → (holds s).life ≡ 0 };
}

/// A memory over a keeper. Whether it is fit is decided once, where it is put together.
// A flag beside the keeper and no enum, since what an unfit one keeps is told too, as the words used.
#[derive(Drop)]
pub struct Checked<K: Keeper> {
    pub(crate) keeper: K,
    fit: bool,
    ghost decided: { fit ≡ (K.holds keeper).fit },
}

impl<K: Keeper> Checked<K> {
    /// Puts a memory together.
    pub(crate) fn over(keeper: K) -> Checked<K>
        ensures { result.keeper ≡ keeper }
    {
        let fit = keeper.is_fit();
        Checked { keeper, fit }
    }

    /// The byte writes that the memory will still take: none where it is unfit.
    pub fn life(&self) -> u32
        ensures { result ≡ (K.holds self.now.keeper).life }
    {
        if self.fit { self.keeper.life() } else { 0 }
    }

    /// Refuses an unfit memory, then a place that it has not.
    fn check_place(&self, place: usize) -> Result<(), Refusal>
        ensures { result ≡ place_check (K.holds self.now.keeper).fit place }
    {
        if !self.fit {
            return Err(Refusal::Unfit);
        }
        if place >= PLACES {
            return Err(Refusal::Place);
        }
        Ok(())
    }
}

impl<K: Keeper> Memory for Checked<K> {
    ghost holds = { λ s. K.holds s.keeper };

    fn is_fit(&self) -> bool {
        self.fit
    }

    fn read(&self, place: usize) -> Result<u8, Refusal> {
        self.check_place(place)?;
        Ok(self.keeper.byte_at(place))
    }

    fn claim(&self, n: u32) -> Result<(), Refusal> {
        if !self.fit {
            return Err(Refusal::Unfit);
        }
        let life = self.life();
        if life < n {
            return Err(Refusal::Short { life });
        }
        Ok(())
    }

    fn write(&mut self, place: usize, byte: u8) -> Result<(), Refusal>
        ensures answer { result ≡ write (K.holds self.old.keeper) place }
        ensures after { K.holds self.new.keeper ≡ written (K.holds self.old.keeper) place byte }
        ensures made { OnOk result (K.put_gives self.old.keeper place byte self.new.keeper) }
        ensures refused { OnErr result (self.new.keeper ≡ self.old.keeper) }
    {
        self.check_place(place)?;
        if self.life() == 0 {
            return Err(Refusal::Worn);
        }
        self.keeper.put(place, byte);
        Ok(())
    }

    ghost whole = { λ s fit. K.whole s.keeper fit };
}
