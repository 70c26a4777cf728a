//! The bench: works a module from a log on standard input, and writes the reply to standard output.
#![tactic(auto)]

ghost use Rattle.std.specs.Prelude.{◌≤◌, length, IfOk};

use chip::refusals::Refusal;
use memory::{Image, Memory, factory_bytes};
use runlog::{LEAST_REPLY, MOST_LOG, run_log};
use std::alloc::AllocError;
use std::io::{Read, Write};
use std::process::ExitCode;
use std::rt::Env;
use std::{env, fmt, io};
use x1226::Module;

/// The byte writes that the image takes.
const WRITES: u32 = 1_000_000;

const HELP: &str = "usage: bench < LOG > REPLY

Works a clock module from a log, over a byte image of factory bytes with 1000000 writes.
The log is the line 'call one two' and then lines 'level SCL SDA', 'tick N 0' or 'supply WHICH 0';
the reply has a row for each: the line, the level on SDA, the refusal or 0, its area, its address.
";

/// What the program could not do.
#[derive(Drop)]
enum Trouble {
    Arguments,
    Memory,
    Input(io::Error),
    Output(io::Error),
    Refused(Refusal),
}

impl fmt::Display for Trouble {
    fn fmt<W: fmt::Write>(&self, f: &mut fmt::Formatter<W>) -> fmt::Result {
        match self {
            Trouble::Arguments => write!(
                f,
                "bench takes no arguments but --help; the log comes on standard input."
            ),
            Trouble::Memory => write!(f, "There is not enough memory for a log and its reply."),
            Trouble::Input(error) => write!(f, "The log could not be read: {error}."),
            Trouble::Output(error) => write!(f, "The reply could not be written: {error}."),
            Trouble::Refused(Refusal::LogSize) => {
                write!(
                    f,
                    "The log is above {MOST_LOG} bytes, so nothing of it was run (refusal 11)."
                )
            }
            Trouble::Refused(refusal) => {
                let number = refusal.report().number;
                write!(f, "Nothing was run (refusal {number}).")
            }
        }
    }
}

impl Trouble {
    /// A refusal is an answer, and no error of the program's.
    fn status(&self) -> ExitCode {
        match self {
            Trouble::Refused(_) => ExitCode::SUCCESS,
            Trouble::Arguments | Trouble::Memory | Trouble::Input(_) | Trouble::Output(_) => {
                ExitCode::FAILURE
            }
        }
    }
}

impl From<AllocError> for Trouble {
    fn from(_: AllocError) -> Trouble {
        Trouble::Memory
    }
}

impl From<Refusal> for Trouble {
    fn from(refusal: Refusal) -> Trouble {
        Trouble::Refused(refusal)
    }
}

/// Reads a log up to its end, or up to the first byte that makes it too long.
fn read_log(rt: &(impl Input + AllocGlobal)) -> Result<Vec<u8>, Trouble> {
    let most = MOST_LOG + 1;
    // One byte more than is read, so that the read that finds the end asks for no more room.
    let mut log = Vec::with_capacity(rt.alloc(), most + 1)?;
    rt.reader()
        .take(most as u64)
        .read_to_end(&mut log)
        .map_err(Trouble::Input)?;
    Ok(log)
}

/// Works a log over a new module and a factory image; answers the bytes that the reply takes.
fn answer(log: &[u8], reply: &mut [u8]) -> Result<usize, Refusal>
    ensures { IfOk result (λ written. written ≤ length reply.new) }
{
    let mut bytes = factory_bytes();
    let mut memory = Image::new(&mut bytes, WRITES);
    run_log(&mut Module::make(), &mut memory, log, reply)
}

/// Writes bytes to standard output.
fn put(rt: &impl Print, text: &[u8]) -> Result<(), Trouble> {
    io::writer(rt).write_all(text).map_err(Trouble::Output)
}

/// Works the log on standard input. All the room is there before a byte is read.
fn bench(rt: &(impl Input + Print + AllocGlobal)) -> Result<(), Trouble> {
    let mut reply = vec![in rt.alloc(); 0u8; LEAST_REPLY]?;
    let log = read_log(rt)?;
    let written = answer(&log, &mut reply)?;
    put(rt, &reply[..written])
}

/// Does what the arguments ask for: help, or the log where there are none.
fn work(rt: &(impl Input + Print + Env + AllocGlobal)) -> Result<(), Trouble> {
    let words = env::args(rt).map_err(|_| Trouble::Arguments)?;
    let mut words = words.skip(1).peekable();
    if words.peek().is_none() {
        bench(rt)
    } else if words.all(|word| word.as_str() == "--help") {
        put(rt, HELP.as_bytes())
    } else {
        Err(Trouble::Arguments)
    }
}

fn main(rt: HostRuntime) -> io::Result<ExitCode> {
    let Err(trouble) = work(&rt) else {
        return Ok(ExitCode::SUCCESS);
    };
    eprintln!(rt; "{trouble}")?;
    Ok(trouble.status())
}
