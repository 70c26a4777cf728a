//! A night over the two wires: the terminal writes its script, has it worked, and shows what it saw.
use calendar::Clock;
use chip::calls::{Answer, Supply};
use chip::counter::Address;
use chip::registers::Section;
use chip::slaves::Slave;
use ledger::{Record, TARE_SIZE, Tare, WEIGHING_SIZE, Weighing};
use memory::Memory;
use std::alloc::{AllocError, Global};
use std::io;
use terminal::{
    Latch, Reply, Rows, Script, bill, read_bytes, tare_address, weighing_address, write_outcome,
};

/// The ticks of a second, and of a write cycle, as a terminal has them from the chip's sheet.
const SECOND: u32 = 32_768;

const WRITE_CYCLE: u32 = 164;

/// The trucks of the night, whose tares fill a page.
const TRUCKS: u8 = 8;

/// Two seconds before a leap day, in 24-hour form.
const LEAP_EVE: Clock = Clock {
    seconds: 0x58,
    minutes: 0x59,
    hours: 0xA3,
    date: 0x28,
    month: 0x02,
    year: 0x28,
    weekday: 1,
    century: 0x20,
};

/// One second before its end, in 12-hour form.
const LEAP_END: Clock = Clock {
    seconds: 0x59,
    minutes: 0x59,
    hours: 0x31,
    date: 0x29,
    month: 0x02,
    year: 0x28,
    weekday: 2,
    century: 0x20,
};

/// A leap day in a year that has none.
const NO_LEAP_DAY: Clock = Clock {
    date: 0x29,
    year: 0x27,
    ..LEAP_EVE
};

/// What the terminal did, with the row where its part of the script begins.
// Cases and no closures, since a deed is shown only once the rows are there.
#[derive(Clone, Copy)]
enum Deed {
    Supplied(Supply),
    FirstByte {
        mark: usize,
    },
    Unlocked,
    RegistersUnlocked,
    ClockWritten {
        clock: Clock,
        mark: usize,
    },
    TaresWritten {
        mark: usize,
    },
    Weighed {
        ticket: u8,
        load: Weighing,
        mark: usize,
    },
    HalfSent {
        ticket: u8,
    },
    SecondPassed {
        clock: Clock,
    },
    ClockRead {
        mark: usize,
    },
    TicketRead {
        ticket: u8,
        mark: usize,
    },
    Released {
        mark: usize,
    },
    Billed {
        ticket: u8,
        weighing: usize,
        tare: usize,
    },
}

/// The night as it is written: the script, what it does, and the time by the terminal's own reckoning.
#[derive(Drop)]
struct Night {
    script: Script,
    deeds: Vec<Deed>,
    clock: Clock,
    ticks: u32,
}

impl Night {
    fn new(heap: Global) -> Night {
        Night {
            script: Script::new(heap),
            deeds: Vec::new(heap),
            clock: Clock::START,
            ticks: 0,
        }
    }

    fn note(&mut self, deed: Deed) -> Result<(), AllocError> {
        self.deeds.push(deed)?;
        Ok(())
    }

    fn supply(&mut self, supply: Supply) -> Result<(), AllocError> {
        self.script.supply(supply)?;
        self.note(Deed::Supplied(supply))
    }

    /// Reads one byte where the counter stands.
    fn read_first(&mut self) -> Result<(), AllocError> {
        self.script.start()?;
        self.script.send(Slave::ArrayRead.into())?;
        let mark = self.script.mark();
        self.script.receive(Reply::Last)?;
        self.script.stop()?;
        self.note(Deed::FirstByte { mark })
    }

    fn unlock(&mut self) -> Result<(), AllocError> {
        self.script.unlock(Latch::Wel)?;
        self.note(Deed::Unlocked)
    }

    fn unlock_registers(&mut self) -> Result<(), AllocError> {
        self.script.unlock(Latch::Wel)?;
        self.script.unlock(Latch::Rwel)?;
        self.note(Deed::RegistersUnlocked)
    }

    fn write_clock(&mut self, clock: Clock) -> Result<(), AllocError> {
        let mark = self.script.mark();
        self.script.write_clock(clock)?;
        self.note(Deed::ClockWritten { clock, mark })
    }

    /// Lets the rest of a second pass.
    fn wait_for_mark(&mut self) -> Result<(), AllocError> {
        self.script.wait(SECOND.saturating_sub(self.ticks))?;
        self.ticks = 0;
        Ok(())
    }

    /// Sets the clock, which takes the date over at the next second mark.
    fn set_clock(&mut self, clock: Clock) -> Result<(), AllocError> {
        self.unlock_registers()?;
        self.write_clock(clock)?;
        self.wait_for_mark()?;
        self.clock = clock;
        self.note(Deed::SecondPassed { clock })
    }

    fn pass_second(&mut self) -> Result<(), AllocError> {
        self.wait_for_mark()?;
        let clock = self.clock.next();
        self.clock = clock;
        self.note(Deed::SecondPassed { clock })
    }

    /// Waits out a write cycle.
    fn wait_for_cycle(&mut self) -> Result<(), AllocError> {
        self.script.wait(WRITE_CYCLE)?;
        self.ticks = self.ticks.saturating_add(WRITE_CYCLE);
        Ok(())
    }

    /// Stores the tares of all trucks by one write of a page.
    fn write_tares(&mut self, heap: Global) -> Result<(), AllocError> {
        let mut page = Vec::new(heap);
        for truck in 0..TRUCKS {
            let tare = Tare {
                weight: 6_800 + 420 * u32::from(truck),
            };
            page.extend_from_slice(&tare.encode())?;
        }
        let mark = self.script.mark();
        self.script.write(tare_address(0), page.as_slice())?;
        self.note(Deed::TaresWritten { mark })?;
        self.wait_for_cycle()
    }

    /// A truck on the bridge now.
    fn load(&self, truck: u16, gross: u32) -> Weighing {
        Weighing {
            truck,
            gross,
            stamp: self.clock.into(),
        }
    }

    /// Stores a weighing by one write.
    fn weigh(&mut self, ticket: u8, gross: u32) -> Result<(), AllocError> {
        let load = self.load(u16::from(ticket), gross);
        let mark = self.script.mark();
        self.script.write(weighing_address(ticket), &load.encode())?;
        self.note(Deed::Weighed { ticket, load, mark })?;
        self.wait_for_cycle()
    }

    /// Main supply fails in the middle of a write, and comes back a second later.
    fn weigh_half(&mut self, ticket: u8, gross: u32) -> Result<(), AllocError> {
        let bytes = self.load(u16::from(ticket), gross).encode();
        self.script.head(weighing_address(ticket))?;
        self.script.send_all(&bytes[0..8])?;
        self.note(Deed::HalfSent { ticket })?;
        self.supply(Supply::Battery)?;
        self.pass_second()?;
        self.supply(Supply::Main)
    }

    /// Reads bytes from an address on, and answers the row where they begin.
    fn read(&mut self, from: Address, count: u16) -> Result<usize, AllocError> {
        self.script.seek(from)?;
        let mark = self.script.mark();
        self.script.receive_all(count)?;
        self.script.stop()?;
        Ok(mark)
    }

    fn read_clock(&mut self) -> Result<(), AllocError> {
        let mark = self.read(Section::Clock.address(), 8)?;
        self.note(Deed::ClockRead { mark })
    }

    fn read_ticket(&mut self, ticket: u8) -> Result<(), AllocError> {
        let mark = self.read(weighing_address(ticket), WEIGHING_SIZE as u16)?;
        self.note(Deed::TicketRead { ticket, mark })
    }

    /// Breaks a read off behind its first byte, and frees the wire.
    fn lose_place(&mut self) -> Result<(), AllocError> {
        self.script.seek(weighing_address(0))?;
        self.script.receive(Reply::More)?;
        let mark = self.script.mark();
        self.script.release()?;
        self.note(Deed::Released { mark })
    }

    /// Reads a ticket and its truck's tare to bill it.
    fn bill(&mut self, ticket: u8) -> Result<(), AllocError> {
        let weighing = self.read(weighing_address(ticket), WEIGHING_SIZE as u16)?;
        let tare = self.read(tare_address(ticket), TARE_SIZE as u16)?;
        self.note(Deed::Billed {
            ticket,
            weighing,
            tare,
        })
    }

    /// From power-up to the clock: a first byte, two writes that are refused, and one that is not.
    fn begin(&mut self) -> Result<(), AllocError> {
        self.supply(Supply::Main)?;
        self.read_first()?;
        self.weigh(0, 17_500)?;
        self.unlock()?;
        self.write_clock(LEAP_EVE)?;
        self.unlock_registers()?;
        self.write_clock(NO_LEAP_DAY)?;
        self.set_clock(LEAP_EVE)?;
        self.read_clock()
    }

    /// Across the midnight into the leap day, with a supply cut behind it.
    fn cross_midnight(&mut self, heap: Global) -> Result<(), AllocError> {
        self.write_tares(heap)?;
        self.weigh(0, 17_500)?;
        self.pass_second()?;
        self.weigh(1, 17_865)?;
        self.pass_second()?;
        self.weigh(2, 18_230)?;
        self.read_clock()?;
        self.weigh_half(3, 18_595)?;
        self.read_ticket(3)?;
        self.weigh(3, 18_595)?;
        self.unlock()?;
        self.weigh(3, 18_595)
    }

    /// Out of the leap day in 12-hour form, the wire freed, and all tickets billed.
    fn end(&mut self) -> Result<(), AllocError> {
        self.set_clock(LEAP_END)?;
        self.weigh(4, 18_960)?;
        self.pass_second()?;
        self.weigh(5, 19_325)?;
        self.lose_place()?;
        self.read_clock()?;
        for ticket in 0..6 {
            self.bill(ticket)?;
        }
        Ok(())
    }
}

/// The bytes that rows begin with.
fn bytes_of<const N: usize>(rows: &[Answer]) -> [u8; N] {
    let mut bytes = [0; N];
    read_bytes(rows, &mut bytes);
    bytes
}

// What prints takes the narrowest handle of the runtime beside the rows that it shows; the two make no value.

/// Prints what became of a write.
fn show_write(rt: &impl Print, rows: &[Answer], count: u16) -> io::Result<()> {
    match write_outcome(rows, count) {
        Ok(()) => println!(rt; "taken"),
        Err(error) => println!(rt; "{error}"),
    }
}

fn show_ticket(rt: &impl Print, ticket: u8, rows: &[Answer]) -> io::Result<()> {
    let Some(load) = Weighing::decode(bytes_of(rows)) else {
        return println!(rt; "ticket {ticket} holds nothing to bill");
    };
    let truck = load.truck;
    let gross = load.gross;
    let clock = Clock::from(load.stamp);
    println!(rt; "ticket {ticket} holds truck {truck}, gross {gross} kg, {clock}")
}

/// Prints how many of ten pulses found the wire high.
fn show_pulses(rt: &impl Print, rows: &[Answer]) -> io::Result<()> {
    let rises = rows.iter().skip(1).step_by(2).take(10);
    let high = rises.filter(|row| row.sda).count();
    println!(rt;
        "a read broken off, and ten pulses with SDA released: the wire is high at {high} of them"
    )
}

fn show_bill(rt: &impl Print, ticket: u8, weighing: &[Answer], tare: &[Answer]) -> io::Result<()> {
    match bill(bytes_of(weighing), bytes_of(tare)) {
        Ok(invoice) => {
            let truck = invoice.truck;
            let gross = invoice.gross;
            let tare = invoice.tare;
            let net = invoice.net;
            let clock = Clock::from(invoice.stamp);
            println!(rt;
                "ticket {ticket}, {clock}: truck {truck}, gross {gross} kg, tare {tare} kg, net {net} kg"
            )
        }
        Err(error) => println!(rt; "ticket {ticket}: {error}"),
    }
}

/// Prints one deed and what the terminal saw of it.
fn show(rt: &impl Print, rows: &Rows, deed: Deed) -> io::Result<()> {
    match deed {
        Deed::Supplied(Supply::Off) => println!(rt; "no supply"),
        Deed::Supplied(Supply::Main) => println!(rt; "main supply"),
        Deed::Supplied(Supply::Battery) => println!(rt; "battery supply"),
        Deed::FirstByte { mark } => {
            let [byte] = bytes_of::<1>(rows.from(mark));
            println!(rt; "a read without an address answers {byte:02X}h")
        }
        Deed::Unlocked => println!(rt; "WEL on"),
        Deed::RegistersUnlocked => println!(rt; "WEL and RWEL on"),
        Deed::ClockWritten { clock, mark } => {
            print!(rt; "write the clock, {clock}: ")?;
            show_write(rt, rows.from(mark), 8)
        }
        Deed::TaresWritten { mark } => {
            print!(rt; "store {TRUCKS} tares: ")?;
            show_write(rt, rows.from(mark), 64)
        }
        Deed::Weighed { ticket, load, mark } => {
            let gross = load.gross;
            let clock = Clock::from(load.stamp);
            print!(rt; "store ticket {ticket}, gross {gross} kg, {clock}: ")?;
            show_write(rt, rows.from(mark), 16)
        }
        Deed::HalfSent { ticket } => println!(rt; "store ticket {ticket}: half of it is sent"),
        Deed::SecondPassed { clock } => println!(rt; "a second mark: it should be {clock}"),
        Deed::ClockRead { mark } => {
            let bytes: [u8; 8] = bytes_of(rows.from(mark));
            let clock = Clock::from(bytes);
            println!(rt; "the clock registers say {clock}")
        }
        Deed::TicketRead { ticket, mark } => show_ticket(rt, ticket, rows.from(mark)),
        Deed::Released { mark } => show_pulses(rt, rows.from(mark)),
        Deed::Billed {
            ticket,
            weighing,
            tare,
        } => show_bill(rt, ticket, rows.from(weighing), rows.from(tare)),
    }
}

/// Works the night over a memory, and prints it.
pub fn show_night<M: Memory>(rt: &(impl Print + AllocGlobal), memory: &mut M) -> io::Result<()> {
    let heap = rt.alloc();
    let mut night = Night::new(heap);
    night.begin()?;
    night.cross_midnight(heap)?;
    night.end()?;
    let rows = Rows::of(heap, &night.script, memory)?;
    let calls = night.script.mark();
    println!(rt; "The night over the two wires: {calls} calls")?;
    for deed in night.deeds.iter() {
        show(rt, &rows, *deed)?;
    }
    Ok(())
}
