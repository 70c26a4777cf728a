//! The byte image: bytes handed in, and an allowance of writes.
ghost use Rattle.std.specs.Prelude.{◌≡◌, ◌<◌, length, slice_index, slice_set};
ghost use Rattle.memory.specs.Image.{image};
ghost use Rattle.memory.specs.Laws.{image_whole, image_lifeless};

use crate::checked::{Checked, Keeper};
use crate::sizes::{MOST_WRITES, PLACES};

/// The byte at a place. It is asked of the slice alone, whose items a proof knows to be bytes.
fn byte_at(bytes: &[u8], place: usize) -> u8
    requires { place < length bytes.now }
    ensures { result ≡ slice_index bytes.now place }
{
    bytes[place]
}

/// The bytes, and the writes that they may still take.
#[derive(Drop)]
pub struct Cells<'a> {
    bytes: &'a mut [u8],
    writes: u32,
}

impl Keeper for Cells<'_> {
    // The memory is what the bytes and the writes left say.
    ghost holds = { λ s. image s.bytes.now s.writes };

    // Of the bytes handed in only the one at the place changes.
    ghost put_gives = { λ s place byte t. t.bytes.now ≡ slice_set s.bytes.now place byte };

    fn is_fit(&self) -> bool {
        self.bytes.len() >= PLACES && self.writes <= MOST_WRITES
    }

    fn life(&self) -> u32 {
        self.writes
    }

    fn byte_at(&self, place: usize) -> u8 {
        byte_at(self.bytes, place)
    }

    fn put(&mut self, place: usize, byte: u8) {
        self.bytes[place] = byte;
        self.writes -= 1;
    }

    ghost whole = { λ s. image_whole s.bytes.now s.writes };

    ghost lifeless = { λ s. image_lifeless s.bytes.now s.writes };
}

/// A memory over bytes handed in: byte p is place p. Later bytes are never written.
pub type Image<'a> = Checked<Cells<'a>>;

impl<'a> Image<'a> {
    /// Puts an image together from any bytes and any allowance of writes.
    pub fn new(bytes: &'a mut [u8], allowance: u32) -> Image<'a>
        ensures bytes { result.keeper.bytes.now ≡ bytes.old }
        ensures writes { result.keeper.writes ≡ allowance }
    {
        Checked::over(Cells {
            bytes,
            writes: allowance,
        })
    }
}
