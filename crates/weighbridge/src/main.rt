//! A weighbridge's day over a small journal, the same day over a byte image, a memory that wears out, and a night over the two wires.
#![tactic(auto)]

mod wires;

use ledger::{Step, planned};
use memory::{BLANK, Image, Journal, Memory, PLACES, factory_bytes, fetch, life_left};
use std::io;
use wires::show_night;

/// The words and erasures of the journal: so few that the day fills it.
const WORDS: usize = 600;

const ERASURES: u32 = 1;

/// The writes that the image is good for at night.
const NIGHT_LIFE: u32 = 1_000;

// What prints takes the narrowest handle of the runtime beside its memory; the two make no value.

/// Works one step, and prints it with the life before and after.
fn show<M: Memory>(rt: &impl Print, memory: &mut M, step: Step) -> io::Result<()> {
    let before = life_left(memory).unwrap_or(0);
    let done = step.work(memory);
    let after = life_left(memory).unwrap_or(0);
    match done {
        Ok(outcome) => println!(rt; "{step}: {outcome} (life {before} -> {after})"),
        Err(error) => println!(rt; "{step}: {error} (life {before} -> {after})"),
    }
}

/// Works the planned day, and prints each step.
fn show_day<M: Memory>(rt: &impl Print, memory: &mut M) -> io::Result<()> {
    for step in (0..u16::MAX).map_while(|n| planned(n)) {
        show(rt, memory, step)?;
    }
    Ok(())
}

/// Works the planned day, and answers how many steps were done and how many refused.
fn work_day<M: Memory>(memory: &mut M) -> (usize, usize) {
    let steps = (0..u16::MAX).map_while(|n| planned(n)).count();
    let done = (0..u16::MAX)
        .map_while(|n| planned(n))
        .filter(|step| step.work(memory).is_ok())
        .count();
    (done, steps.saturating_sub(done))
}

/// Prints how many places hold the same byte in both memories.
fn compare<A: Memory, B: Memory>(rt: &impl Print, a: &A, b: &B) -> io::Result<()> {
    let mut first = [0; PLACES];
    let mut second = [0; PLACES];
    if fetch(a, 0, &mut first).is_err() || fetch(b, 0, &mut second).is_err() {
        return println!(rt; "a memory cannot be read");
    }
    let same = first.iter().zip(&second).filter(|(a, b)| a == b).count();
    println!(rt; "{same} of {PLACES} bytes are the same in both memories")
}

/// Writes until the memory is worn out, and prints what it answers then.
fn wear_out<M: Memory>(rt: &impl Print, memory: &mut M) -> io::Result<()> {
    for ticket in 0..2 {
        show(
            rt,
            memory,
            Step::Weigh {
                ticket,
                truck: 1,
                gross: 20_000,
            },
        )?;
    }
    let left = life_left(memory).unwrap_or(0);
    for _ in 0..left {
        let _ = memory.write(PLACES - 1, 0);
    }
    println!(rt; "{left} bytes written to the last place")?;
    match memory.write(PLACES - 1, 0) {
        Ok(()) => println!(rt; "one write more: made")?,
        Err(refusal) => println!(rt; "one write more: {refusal}")?,
    }
    match memory.claim(1) {
        Ok(()) => println!(rt; "a claim of one write: granted")?,
        Err(refusal) => println!(rt; "a claim of one write: {refusal}")?,
    }
    show(rt, memory, Step::Read { ticket: 0 })
}

fn main(rt: HostRuntime) -> io::Result<()> {
    let mut words = [BLANK; WORDS];
    let mut journal = Journal::new(&mut words, ERASURES);
    let life = journal.life();
    println!(rt;
        "The day over a journal of {WORDS} blank words and {ERASURES} erasure: life {life}"
    )?;
    show_day(&rt, &mut journal)?;
    let used = journal.words_used();
    let erasures = journal.erasures_left();
    let left = journal.life();
    println!(rt; "The day is over: {used} words used, {erasures} erasures left, life {left}")?;

    let mut bytes = factory_bytes();
    let mut image = Image::new(&mut bytes, life);
    let (done, refused) = work_day(&mut image);
    let left = image.life();
    println!(rt;
        "The same day over a byte image of {life} writes: {done} steps done, {refused} refused, life {left}"
    )?;
    compare(&rt, &journal, &image)?;

    println!(rt; "The journal wears out")?;
    wear_out(&rt, &mut journal)?;

    let mut image = Image::new(&mut bytes, NIGHT_LIFE);
    show_night(&rt, &mut image)
}
