// Phases: how bytes come in bit by bit, where the module pulls SDA, and where a stop closes a write.
ghost use Rattle.std.specs.Prelude.{◌≡◌, ◌+◌, ◌<◌};
ghost use Rattle.chip.specs.Bits.{shifted};
ghost use Rattle.x1226.specs.Frame.{pulls};
ghost use Rattle.x1226.specs.Stop.{closes};
ghost use Rattle.x1226.specs.declared.state.Phase.TheVariants.{Receiving};

use crate::state::Phase;
use chip::bits::{is_zero_bit, shifted};

impl Phase {
    // Before the first bit of a byte.
    pub fn awaiting(stage: u8) -> Phase
        ensures { result ≡ Receiving stage 0 0 }
    {
        Phase::Receiving {
            stage,
            bits: 0,
            shift: 0,
        }
    }

    // One bit more of a byte.
    pub fn with_bit(stage: u8, bits: u8, shift: u8, level: bool) -> Phase
        requires { bits < 8 }
        ensures { result ≡ Receiving stage (bits + 1) (shifted shift level) }
    {
        Phase::Receiving {
            stage,
            bits: bits + 1,
            shift: shifted(shift, level),
        }
    }

    // The module pulls SDA for an acknowledge and for a 0 sent.
    pub fn pulls(self) -> bool
        ensures { result ≡ pulls self }
    {
        match self {
            Phase::Acknowledging { .. } => true,
            Phase::Sending { sent, byte } => is_zero_bit(byte, sent),
            Phase::Deaf | Phase::Receiving { .. } | Phase::Listening => false,
        }
    }

    // A stop closes a write exactly where one bit of a further byte has come after a data byte.
    pub fn closes(self) -> bool
        ensures { result ≡ closes self }
    {
        matches!(
            self,
            Phase::Receiving {
                stage: 4,
                bits: 1,
                ..
            }
        )
    }
}
