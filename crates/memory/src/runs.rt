//! Work over any memory: a run of bytes stored or fetched as a whole, and a list of writes.
ghost use Rattle.std.specs.Prelude.{◌≡◌, ◌+◌, length, is_ok, if◌then◌else◌, Ok};
ghost use Rattle.memory.specs.Runs.{life_answer, fetch, run_at, store, stored, with_run, after, made};

use crate::Memory;
use crate::refusal::Refusal;
use crate::sizes::PLACES;

/// Refuses an unfit memory, then a run that leaves its places.
fn check_run(fit: bool, place: usize, n: usize) -> Result<(), Refusal>
    ensures { result ≡ fetch fit place n }
{
    if !fit {
        return Err(Refusal::Unfit);
    }
    if n > PLACES || place > PLACES - n {
        return Err(Refusal::Place);
    }
    Ok(())
}

/// The life, as far as a number of 32 bits tells it: a claim above it is refused with the life left.
pub fn life_left<M: Memory>(memory: &M) -> Result<u32, Refusal>
    ensures { result ≡ life_answer (M.holds memory.now) }
{
    match memory.claim(u32::MAX) {
        Ok(()) => Ok(u32::MAX),
        Err(Refusal::Short { life }) => Ok(life),
        Err(refusal) => Err(refusal),
    }
}

/// Writes a run of bytes that the memory has room and life for.
fn write_run<M: Memory>(memory: &mut M, place: usize, bytes: &[u8]) -> Result<(), Refusal>
    requires { store (M.holds memory.old) place (length bytes.now) ≡ Ok tt }
    ensures answer { result ≡ Ok tt }
    ensures after { M.holds memory.new ≡ with_run (M.holds memory.old) place bytes.now }
{
    for (i, byte) in bytes.iter().enumerate() {
        memory.write(place + i, *byte)?;
    }
    Ok(())
}

/// Stores a run of bytes from a place on, all of it or nothing.
pub fn store<M: Memory>(memory: &mut M, place: usize, bytes: &[u8]) -> Result<(), Refusal>
    ensures answer { result ≡ store (M.holds memory.old) place (length bytes.now) }
    ensures after { M.holds memory.new ≡ stored (M.holds memory.old) place bytes.now }
{
    check_run(memory.is_fit(), place, bytes.len())?;
    memory.claim(bytes.len() as u32)?;
    write_run(memory, place, bytes)
}

/// Reads the bytes from a place on into a buffer, all of it or nothing.
pub fn fetch<M: Memory>(memory: &M, place: usize, into: &mut [u8]) -> Result<(), Refusal>
    ensures answer { result ≡ fetch (M.holds memory.now).fit place (length into.old) }
    ensures after { into.new ≡ (if is_ok result then run_at (M.holds memory.now) place (length into.old) else into.old) }
{
    check_run(memory.is_fit(), place, into.len())?;
    for (i, byte) in into.iter_mut().enumerate() {
        *byte = memory.read(place + i)?;
    }
    Ok(())
}

/// A byte to be written at a place.
#[derive(Clone, Copy, PartialEq, Eq, Debug)]
pub struct ByteWrite {
    pub place: usize,
    pub byte: u8,
}

/// Makes a list of writes, one after the other, passing over those that are refused. Answers how many were made.
pub fn write_each<M: Memory>(memory: &mut M, writes: &[ByteWrite]) -> usize
    ensures count { result ≡ made (M.holds memory.old) writes.now }
    ensures after { M.holds memory.new ≡ after (M.holds memory.old) writes.now }
    ensures spent { result + (M.holds memory.new).life ≡ (M.holds memory.old).life }
{
    // A loop, since of a closure that writes a proof would not know what it wrote.
    let mut count = 0;
    for write in writes {
        let made = memory.write(write.place, write.byte).is_ok();
        count += usize::from(made);
    }
    count
}
