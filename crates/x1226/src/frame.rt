// What a start, and a fall of SCL, do in a frame.
ghost use Rattle.std.specs.Prelude.{◌≡◌};
ghost use Rattle.chip.specs.Counter.{address_at};
ghost use Rattle.x1226.specs.Answers.{answered, sent_bit};
ghost use Rattle.x1226.specs.Frame.{started, takes, sending, copied, addressed_as, located, staged, acknowledged, sent_whole};

use crate::fit::Fit;
use crate::state::{Alarms, Copies, Phase, STAGED, Staging, State};
use chip::counter::Address;
use chip::slaves::Slave;
use memory::Memory;

impl State {
    // Where the counter stands, in the area of the frame.
    pub fn counted(&self) -> Address
        ensures { result ≡ address_at self.now.area self.now.counter }
    {
        self.area.at(self.counter)
    }

    // A start opens a frame with nothing staged.
    pub fn start(&mut self)
        ensures { self.new ≡ started self.old }
    {
        self.staging = Staging::nothing();
        self.phase = Phase::awaiting(0);
    }

    // Whether the byte just received is acknowledged. Stage and byte are plain numbers, as a rule has the phase carry them.
    fn takes(&self, stage: u8, byte: u8) -> bool
        ensures { result ≡ takes self.now stage byte }
    {
        match stage {
            0 => Slave::named(byte).is_some(),
            1 | 2 => true,
            _ => self
                .area
                .at(self.staging.address)
                .takes_data(self.latches.wel, stage == 3),
        }
    }

    // A byte is whole: it is acknowledged, or the module is deaf.
    pub fn answer(&mut self, stage: u8, byte: u8)
        ensures { self.new ≡ answered stage byte self.old }
    {
        self.phase = if self.takes(stage, byte) {
            Phase::Acknowledging { stage, byte }
        } else {
            Phase::Deaf
        };
    }

    // The next byte is sent, from its highest bit on.
    pub fn send<M: Memory>(&mut self, fit: &Fit<M>)
        ensures { self.new ≡ sending self.old fit.now.mem }
    {
        let byte = self.to_send(fit);
        self.phase = Phase::Sending { sent: 0, byte };
    }

    // Clock and status are copied, and no alarm has matched since.
    fn copy(&mut self)
        ensures { self.new ≡ copied self.old }
    {
        let status = self.status();
        self.copies = Copies {
            clock: self.timer.clock,
            status,
            matched: Alarms::NONE,
        };
    }

    // The slave byte's acknowledge ends: a read copies and sends, a write goes on to its address.
    fn addressed<M: Memory>(&mut self, fit: &Fit<M>, slave: Option<Slave>)
        ensures { self.new ≡ addressed_as slave self.old fit.now.mem }
    {
        let Some(slave) = slave else {
            self.phase = Phase::Deaf;
            return;
        };
        self.area = slave.area();
        if slave.is_read() {
            self.copy();
            self.send(fit);
        } else {
            self.phase = Phase::awaiting(1);
        }
    }

    // The second address byte's acknowledge ends: the counter takes the address, and the clock is copied.
    fn locate(&mut self, address: u16)
        ensures { self.new ≡ located address self.old }
    {
        self.copies.clock = self.timer.clock;
        self.staging = Staging::from_address(address);
        self.counter = address;
        self.phase = Phase::awaiting(3);
    }

    // A data byte's acknowledge ends: the byte is staged, and the counter moves on.
    fn stage(&mut self, byte: u8)
        ensures { self.new ≡ staged byte self.old }
    {
        self.staging.held[usize::from(self.counter) % STAGED] = Some(byte);
        self.counter = self.counted().next_written();
        self.phase = Phase::awaiting(4);
    }

    // An acknowledge ends.
    pub fn acknowledged<M: Memory>(&mut self, fit: &Fit<M>, stage: u8, byte: u8)
        ensures { self.new ≡ acknowledged stage byte self.old fit.now.mem }
    {
        match stage {
            0 => self.addressed(fit, Slave::named(byte)),
            1 => {
                self.high = byte;
                self.phase = Phase::awaiting(2);
            }
            2 => self.locate(self.area.address(self.high, byte).offset),
            _ => self.stage(byte),
        }
    }

    // The eighth bit of a byte sent is over. Status is sent once, and clears the flags that did not match again since it was copied;
    // else the counter moves on and the master is asked for more.
    fn sent_whole(&mut self)
        ensures { self.new ≡ sent_whole self.old }
    {
        if self.counted().is_status() {
            self.flags = self.copies.matched;
            self.phase = Phase::Deaf;
        } else {
            self.counter = self.counted().next_read();
            self.phase = Phase::Listening;
        }
    }

    // A bit sent is over: the next one follows, or the byte is whole.
    pub fn sent_bit(&mut self, sent: u8, byte: u8)
        ensures { self.new ≡ sent_bit sent byte self.old }
    {
        if sent < 7 {
            self.phase = Phase::Sending {
                sent: sent + 1,
                byte,
            };
        } else {
            self.sent_whole();
        }
    }
}
