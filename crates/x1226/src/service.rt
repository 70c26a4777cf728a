// What a board is told without the bus: the byte at a place, and the pin. Nothing changes by it.
ghost use Rattle.std.specs.Prelude.{◌≡◌, ◌<◌};
ghost use Rattle.memory.specs.Sizes.{places};
ghost use Rattle.x1226.specs.Service.{alarm_interrupts, byte_read, interrupt_read, low_while, pin, pin_by, show};

use crate::state::State;
use crate::timer::SECOND;
use chip::calls::Supply;
use chip::pins::Pin;
use chip::refusals::Refusal;
use chip::slaves::Area;
use memory::{Memory, PLACES};

// The bytes of the clock, shown after the stored ones.
const CLOCK_BYTES: usize = 8;

// The place at which status is shown, the last.
const STATUS_PLACE: usize = PLACES + CLOCK_BYTES;

// INT, the interrupt register.
const INT: u16 = 0x11;

// The bits of INT that let AL1 and AL0 pull the pin.
const AL1E: u8 = 0x40;

const AL0E: u8 = 0x20;

// The byte stored at a place; an unfit memory is refused.
fn stored_byte<M: Memory>(memory: &M, place: usize) -> Result<u8, Refusal>
    requires { place < places }
    ensures { result ≡ byte_read (M.holds memory.now) place }
{
    memory.read(place).map_err(|_| Refusal::Unfit)
}

// The byte stored for INT; an unfit memory is refused.
fn interrupt_byte<M: Memory>(memory: &M) -> Result<u8, Refusal>
    ensures { result ≡ interrupt_read (M.holds memory.now) }
{
    stored_byte(memory, Area::Registers.at(INT).place())
}

// The pin is low while this holds, else released.
fn low_while(condition: bool) -> Pin
    ensures { result ≡ low_while condition }
{
    if condition { Pin::Low } else { Pin::Released }
}

impl State {
    // The byte at a place: the memory's, then the clock's and status as they stand; a place above that of status is refused.
    pub fn show<M: Memory>(&self, memory: &M, place: u16) -> Result<u8, Refusal>
        ensures { result ≡ show self.now (M.holds memory.now) place }
    {
        if !memory.is_fit() {
            return Err(Refusal::Unfit);
        }
        let at = usize::from(place);
        if at < PLACES {
            stored_byte(memory, at)
        } else if at < STATUS_PLACE {
            Ok(self.timer.clock.byte(at - PLACES))
        } else if at == STATUS_PLACE {
            Ok(self.status())
        } else {
            Err(Refusal::BadPlace { place })
        }
    }

    // Whether an alarm flag is on that INT lets through to the pin.
    fn alarm_interrupts(&self, int: u8) -> bool
        ensures { result ≡ alarm_interrupts self.now int }
    {
        (self.flags.second && int / AL1E % 2 == 1) || (self.flags.first && int / AL0E % 2 == 1)
    }

    // The pin by INT bits 4 and 3: the alarms, the crystal, 4,096 Hz, or once a second.
    fn pin_by(&self, int: u8) -> Pin
        ensures { result ≡ pin_by self.now int }
    {
        match int / 8 % 4 {
            0 => low_while(self.alarm_interrupts(int)),
            1 => Pin::Crystal,
            2 => low_while(self.timer.divider % 8 < 4),
            _ => low_while(self.timer.divider < SECOND / 2),
        }
    }

    // The pin as it stands: by INT while supplied, else released.
    pub fn pin<M: Memory>(&self, memory: &M) -> Result<Pin, Refusal>
        ensures { result ≡ pin self.now (M.holds memory.now) }
    {
        if !memory.is_fit() {
            return Err(Refusal::Unfit);
        }
        // INT is read only where it counts: a journal walks all its records for it.
        match self.supply {
            Supply::Off => Ok(Pin::Released),
            Supply::Main | Supply::Battery => Ok(self.pin_by(interrupt_byte(memory)?)),
        }
    }
}
