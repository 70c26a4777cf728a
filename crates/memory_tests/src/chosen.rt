//! A memory chosen when the program runs.
ghost use Rattle.std.specs.Prelude.{◌≡◌, true};
ghost use Rattle.memory.specs.Model.{Whole};

use memory::Memory;

/// Whether a memory is fit. Then it has one byte for each place, whichever memory it is.
pub fn is_whole(memory: &dyn Memory) -> bool
    ensures answer { result ≡ (holds memory.now).fit }
    ensures whole { result ≡ true → Whole (holds memory.now) }
{
    memory.is_fit()
}
