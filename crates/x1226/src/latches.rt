// The two write latches.
ghost use Rattle.std.specs.Prelude.{◌≡◌, if◌then◌else◌, Ok, Err};
ghost use Rattle.chip.specs.declared.refusals.Refusal.TheVariants.{RwelOff};
ghost use Rattle.x1226.specs.Stop.{latches_after};

use crate::state::Latches;
use chip::refusals::Refusal;

impl Latches {
    // Both off.
    pub const OFF: Latches = Latches {
        wel: false,
        rwel: false,
    };

    // Refuses a write to a register where RWEL is off.
    pub fn check_rwel(self, register: u16) -> Result<(), Refusal>
        ensures { result ≡ (if self.rwel then Ok tt else Err (RwelOff register)) }
    {
        if self.rwel {
            Ok(())
        } else {
            Err(Refusal::RwelOff { register })
        }
    }

    // What a status write makes of the latches: 02h puts WEL on and RWEL off, 00h puts both off, 06h puts RWEL on where WEL is on.
    pub fn after(self, byte: u8) -> Latches
        ensures { result ≡ latches_after byte self }
    {
        match byte {
            0x02 => Latches {
                wel: true,
                rwel: false,
            },
            0x00 => Latches::OFF,
            0x06 if self.wel => Latches {
                wel: true,
                rwel: true,
            },
            _ => self,
        }
    }
}
