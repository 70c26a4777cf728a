// Whole frames of a script.
ghost use Rattle.std.specs.Prelude.{◌≡◌, ◌-◌, ◌++◌, OnOk};
ghost use Rattle.terminal.specs.Calls.{all_received, all_sent, tick_calls, with_clock, with_head, with_latch, with_seek, with_write};

use crate::script::{Reply, Script};
use calendar::Clock;
use chip::calls::Call;
use chip::counter::Address;
use chip::registers::Section;
use chip::slaves::{Direction, Slave};
use std::alloc::AllocError;

// A write latch. The second can be put on only where the first is.
#[derive(Clone, Copy, PartialEq, Eq, Debug)]
pub enum Latch {
    Wel = 0x02,
    Rwel = 0x06,
}

ghost use Rattle.terminal.specs.Calls.{latch_byte};

// The byte that status takes to put a latch on.
impl From<Latch> for u8 {
    ghost from_gives = { λ latch byte. byte ≡ latch_byte latch };

    fn from(latch: Latch) -> u8 {
        latch as u8
    }
}

impl Script {
    // Lets ticks pass.
    pub fn wait(&mut self, ticks: u32) -> Result<(), AllocError>
        ensures { OnOk result (self.new ≡ self.old ++ tick_calls ticks) }
    {
        for _tick in 0..ticks {
            self.add(&[Call::Tick])?;
        }
        Ok(())
    }

    // Sends bytes one after the other.
    pub fn send_all(&mut self, bytes: &[u8]) -> Result<(), AllocError>
        ensures { OnOk result (self.new ≡ self.old ++ all_sent bytes.now) }
    {
        for byte in bytes {
            self.send(*byte)?;
        }
        Ok(())
    }

    // Begins a write: a start, the slave byte and the address.
    pub fn head(&mut self, to: Address) -> Result<(), AllocError>
        ensures { OnOk result (self.new ≡ with_head self.old to.area to.offset) }
    {
        let [high, low] = to.offset.to_be_bytes();
        self.start()?;
        self.send(Slave::of(to.area, Direction::Write).into())?;
        self.send(high)?;
        self.send(low)
    }

    // A whole write.
    pub fn write(&mut self, to: Address, bytes: &[u8]) -> Result<(), AllocError>
        ensures { OnOk result (self.new ≡ with_write self.old to.area to.offset bytes.now) }
    {
        self.head(to)?;
        self.send_all(bytes)?;
        self.stop()
    }

    // Sets the counter, and begins a read there.
    pub fn seek(&mut self, to: Address) -> Result<(), AllocError>
        ensures { OnOk result (self.new ≡ with_seek self.old to.area to.offset) }
    {
        self.head(to)?;
        self.restart()?;
        self.send(Slave::of(to.area, Direction::Read).into())
    }

    // Reads bytes one after the other, at least one.
    pub fn receive_all(&mut self, count: u16) -> Result<(), AllocError>
        ensures { OnOk result (self.new ≡ self.old ++ all_received (count - 1)) }
    {
        for _k in 1..count {
            self.receive(Reply::More)?;
        }
        self.receive(Reply::Last)?;
        Ok(())
    }

    // Puts a latch on: status takes its byte.
    pub fn unlock(&mut self, latch: Latch) -> Result<(), AllocError>
        ensures { OnOk result (self.new ≡ with_latch self.old latch) }
    {
        self.write(Section::Status.address(), &[latch.into()])
    }

    // Writes the clock.
    pub fn write_clock(&mut self, clock: Clock) -> Result<(), AllocError>
        ensures { OnOk result (self.new ≡ with_clock self.old clock) }
    {
        self.write(Section::Clock.address(), &<[u8; 8]>::from(clock))
    }
}
