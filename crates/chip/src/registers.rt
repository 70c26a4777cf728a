// The registers: their sections, how an address moves inside one, and what a write may set of each.
ghost use Rattle.std.specs.Prelude.{◌≡◌, ◌+◌, ◌<◌, ◌≤◌};
ghost use Rattle.chip.specs.Counter.{address_at};
ghost use Rattle.chip.specs.declared.slaves.Area.TheVariants.{Registers};
ghost use Rattle.chip.specs.Registers.{section_of, first_of, length_of, next_in, next_register, masked};

use crate::counter::Address;
use crate::pages::next_in;
use crate::slaves::Area;
use calendar::Register;
use std::ops::Range;

// The register addresses, most of them empty.
pub const REGISTER_SPACE: u16 = 64;

// The clock's registers, as the calendar numbers them.
pub const SECONDS: u8 = Register::Seconds as u8;

pub const MINUTES: u8 = Register::Minutes as u8;

pub const HOURS: u8 = Register::Hours as u8;

pub const DATE: u8 = Register::Date as u8;

pub const MONTH: u8 = Register::Month as u8;

pub const YEAR: u8 = Register::Year as u8;

pub const WEEKDAY: u8 = Register::Weekday as u8;

pub const CENTURY: u8 = Register::Century as u8;

// Registers that lie together: an address moves only inside its section.
#[derive(Clone, Copy, PartialEq, Eq, Debug)]
pub enum Section {
    // 00h to 07h: seconds, minutes, hours, date, month, year, weekday, century.
    Alarm0,
    // 08h to 0Fh, in the same order.
    Alarm1,
    // 10h to 13h: BL, INT, ATR, DTR.
    Control,
    // 30h to 37h: the clock.
    Clock,
    // 3Fh alone.
    Status,
}

impl Section {
    // The section that a register address lies in; none at an empty address. No TryFrom: the address is not in it.
    pub fn of(register: u16) -> Option<Section>
        ensures { result ≡ section_of register }
    {
        match register {
            0x00..=0x07 => Some(Section::Alarm0),
            0x08..=0x0F => Some(Section::Alarm1),
            0x10..=0x13 => Some(Section::Control),
            0x30..=0x37 => Some(Section::Clock),
            0x3F => Some(Section::Status),
            _ => None,
        }
    }

    // Its registers.
    fn registers(self) -> Range<u16>
        ensures start { result.start ≡ first_of self }
        ensures end { result.end ≡ first_of self + length_of self }
    {
        match self {
            Section::Alarm0 => 0x00..0x08,
            Section::Alarm1 => 0x08..0x10,
            Section::Control => 0x10..0x14,
            Section::Clock => 0x30..0x38,
            Section::Status => 0x3F..0x40,
        }
    }

    // Its first register.
    pub fn first(self) -> u16
        ensures { result ≡ first_of self }
    {
        self.registers().start
    }

    // The address of its first register.
    pub fn address(self) -> Address
        ensures { result ≡ address_at Registers (first_of self) }
    {
        Area::Registers.at(self.first())
    }

    // One register on inside the section; after its last comes its first.
    pub(crate) fn next(self, register: u16) -> u16
        ensures { result ≡ next_in self register }
    {
        let Range { start, end } = self.registers();
        next_in(start, end - start, register)
    }
}

// One register on inside its section. Status is alone, and an empty address does not move.
pub(crate) fn next_register(register: u16) -> u16
    ensures { result ≡ next_register register }
{
    Section::of(register).map_or(register, |section| section.next(register))
}

// The bits that a write may set in each register that the memory stores: two alarms, then BL, INT, ATR, DTR.
const MASKS: [u8; 20] = [
    0xFF, 0xFF, 0xBF, 0xBF, 0x9F, 0x00, 0x87, 0x39, 0xFF, 0xFF, 0xBF, 0xBF, 0x9F, 0x00, 0x87, 0x39,
    0xE0, 0xF8, 0x3F, 0x07,
];

// What a write of a byte stores in a register: the byte under the register's mask; all of it where no mask is listed.
pub(crate) fn masked(register: u16, byte: u8) -> u8
    ensures { result ≡ masked register byte }
{
    MASKS
        .get(usize::from(register))
        .map_or(byte, |mask| byte & *mask)
}
