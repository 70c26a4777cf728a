// Slave bytes: which part of the chip a frame names, and whether it reads or writes.
ghost use Rattle.std.specs.Prelude.{◌≡◌};
ghost use Rattle.chip.specs.Slaves.{slave_named, slave_byte, slave_of, area_of, reads};

// The two address spaces.
#[derive(Clone, Copy, PartialEq, Eq, Debug)]
pub enum Area {
    Array = 1,
    Registers = 2,
}

// Who sends the data bytes of a frame: the master in a write, the module in a read.
#[derive(Clone, Copy, PartialEq, Eq, Debug)]
pub enum Direction {
    Write,
    Read,
}

// What a frame asks for by its first byte. Four cases and no pair of area and direction, since a case is a byte of its own.
#[derive(Clone, Copy, PartialEq, Eq, Debug)]
pub enum Slave {
    ArrayWrite = 0xAE,
    ArrayRead = 0xAF,
    RegisterWrite = 0xDE,
    RegisterRead = 0xDF,
}

impl Slave {
    // The slave by which an area is written or read.
    pub fn of(area: Area, direction: Direction) -> Slave
        ensures { result ≡ slave_of area direction }
    {
        match (area, direction) {
            (Area::Array, Direction::Write) => Slave::ArrayWrite,
            (Area::Array, Direction::Read) => Slave::ArrayRead,
            (Area::Registers, Direction::Write) => Slave::RegisterWrite,
            (Area::Registers, Direction::Read) => Slave::RegisterRead,
        }
    }

    // The slave that a byte names, or none of ours. No TryFrom, since a byte of another chip is no error: as with char::from_u32,
    // nobody would look at what it says.
    pub fn named(byte: u8) -> Option<Slave>
        ensures { result ≡ slave_named byte }
    {
        match byte {
            0xAE => Some(Slave::ArrayWrite),
            0xAF => Some(Slave::ArrayRead),
            0xDE => Some(Slave::RegisterWrite),
            0xDF => Some(Slave::RegisterRead),
            _ => None,
        }
    }

    // The address space that it names.
    pub fn area(self) -> Area
        ensures { result ≡ area_of self }
    {
        match self {
            Slave::ArrayWrite | Slave::ArrayRead => Area::Array,
            Slave::RegisterWrite | Slave::RegisterRead => Area::Registers,
        }
    }

    // Whether the module sends.
    pub fn is_read(self) -> bool
        ensures { result ≡ reads self }
    {
        matches!(self, Slave::ArrayRead | Slave::RegisterRead)
    }
}

// The byte that names a slave.
impl From<Slave> for u8 {
    ghost from_gives = { λ slave byte. byte ≡ slave_byte slave };

    fn from(slave: Slave) -> u8 {
        slave as u8
    }
}
