// A memory that was found fit, lent to the module's inner work: it has a byte at each place.
ghost use Rattle.std.specs.Prelude.{◌≡◌, slice_index};
ghost use Rattle.memory.specs.Model.{written};
ghost use Rattle.x1226.specs.Memories.{life_for, holding};

use memory::Memory;
use std::marker::Model;

#[derive(Drop)]
pub struct Fit<'a, M: Memory> {
    pub memory: &'a mut M,
}

// A caller sees the memory and the loan.
impl<'a, M: Memory> Model for Fit<'a, M> {
    ghost use Rattle.x1226.specs.Memories.{Lent, Ready};

    ghost Value = { Lent };

    ghost view = { λ fit. record { mem = M.holds fit.memory.now; loan = fit.memory.ghost_name } };

    ghost invariant = { λ fit. Ready (M.holds fit.memory.now) };
}

impl<M: Memory> Fit<'_, M> {
    // The byte at a place; 0 where the memory has no such place.
    pub fn byte(&self, place: usize) -> u8
        ensures { result ≡ slice_index self.now.mem.bytes place }
    {
        self.memory.read(place).unwrap_or(0)
    }

    // Asks whether the memory will take `n` more writes; where it will not, the life left, for which alone a fit memory refuses.
    pub fn claim(&self, n: u32) -> Result<(), u32>
        ensures { result ≡ life_for n self.now.mem }
    {
        self.memory
            .claim(n)
            .map_err(|refusal| refusal.life_left().unwrap_or(0))
    }

    // Puts a byte at a place; where the memory refuses nothing changes.
    pub fn put(&mut self, place: usize, byte: u8)
        ensures { self.new ≡ holding (written self.old.mem place byte) self.old }
    {
        let _ = self.memory.write(place, byte);
    }
}
