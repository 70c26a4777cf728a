// What a board is told without the bus: bytes shown, and the pin.
use crate::modules::write;
use chip::pins::Pin;
use chip::refusals::Refusal;
use memory::{Image, Memory, PLACES};
use std::test::Fail;
use x1226::Module;

// Where the memory keeps alarm 0's seconds, and INT.
const ALARM_SECONDS: usize = 512;

const INT: usize = 529;

// Lets ticks pass.
fn wait<M: Memory>(module: &mut Module, memory: &mut M, ticks: u16) -> Result<(), Refusal> {
    for _ in 0..ticks {
        module.tick(memory)?;
    }
    Ok(())
}

// The pin on main supply after some ticks, by the byte stored for INT.
fn pin_after(int: u8, ticks: u16) -> Result<Pin, Refusal> {
    let mut bytes = [0; PLACES];
    bytes[INT] = int;
    let mut memory = Image::new(&mut bytes, 0);
    let mut module = Module::make();
    module.supply(&mut memory, 1)?;
    wait(&mut module, &mut memory, ticks)?;
    module.pin(&memory)
}

// A module whose clock goes, a second after its date was set; alarm 0 has matched at that second.
fn alarmed<M: Memory>(memory: &mut M) -> Result<Module, Refusal> {
    let mut module = Module::make();
    module.supply(memory, 1)?;
    write(&mut module, memory, 0xDE, 0x3F, 0x02)?;
    write(&mut module, memory, 0xDE, 0x3F, 0x06)?;
    write(&mut module, memory, 0xDE, 0x30, 0x00)?;
    wait(&mut module, memory, 32_768)?;
    Ok(module)
}

#[test]
fn shows_stored_bytes_clock_and_status(rt: HostRuntime) -> Result<(), Fail> {
    let mut bytes = [0; PLACES];
    bytes[0] = 0x5A;
    bytes[531] = 0xA5;
    let mut memory = Image::new(&mut bytes, 0);
    let mut module = Module::make();
    assert_eq!(rt; module.show(&memory, 0)?, 0x5A);
    assert_eq!(rt; module.show(&memory, 531)?, 0xA5);
    let start = [0x00, 0x00, 0x12, 0x01, 0x01, 0x00, 0x00, 0x20];
    for (place, byte) in (532..540u16).zip(start) {
        assert_eq!(rt; module.show(&memory, place)?, byte);
    }
    assert_eq!(rt; module.show(&memory, 540)?, 0x01);
    module.supply(&mut memory, 2)?;
    assert_eq!(rt; module.show(&memory, 540)?, 0x81);
    Ok(())
}

#[test]
fn refuses_places_above_status(rt: HostRuntime) {
    let mut bytes = [0; PLACES];
    let memory = Image::new(&mut bytes, 0);
    let module = Module::make();
    assert_eq!(rt;
        module.show(&memory, 541),
        Err(Refusal::BadPlace { place: 541 })
    );
    assert_eq!(rt;
        module.show(&memory, 65_535),
        Err(Refusal::BadPlace { place: 65_535 })
    );
}

#[test]
fn refuses_an_unfit_memory_first(rt: HostRuntime) {
    let mut bytes = [0; 10];
    let memory = Image::new(&mut bytes, 0);
    let module = Module::make();
    assert_eq!(rt; module.show(&memory, 0), Err(Refusal::Unfit));
    assert_eq!(rt; module.show(&memory, 541), Err(Refusal::Unfit));
    assert_eq!(rt; module.pin(&memory), Err(Refusal::Unfit));
}

#[test]
fn releases_the_pin_without_supply(rt: HostRuntime) {
    let mut bytes = [0; PLACES];
    bytes[INT] = 0x08;
    let memory = Image::new(&mut bytes, 0);
    assert_eq!(rt; Module::make().pin(&memory), Ok(Pin::Released));
}

#[test]
fn drives_the_pin_by_crystal_and_divider(rt: HostRuntime) -> Result<(), Fail> {
    assert_eq!(rt; pin_after(0x08, 0)?, Pin::Crystal);
    assert_eq!(rt; pin_after(0x10, 3)?, Pin::Low);
    assert_eq!(rt; pin_after(0x10, 4)?, Pin::Released);
    assert_eq!(rt; pin_after(0x10, 8)?, Pin::Low);
    assert_eq!(rt; pin_after(0x18, 16_383)?, Pin::Low);
    assert_eq!(rt; pin_after(0x18, 16_384)?, Pin::Released);
    Ok(())
}

#[test]
fn drives_the_pin_by_an_alarm(rt: HostRuntime) -> Result<(), Fail> {
    assert_eq!(rt; pin_after(0x60, 0)?, Pin::Released);
    let mut bytes = [0; PLACES];
    bytes[ALARM_SECONDS] = 0x80;
    bytes[INT] = 0x20;
    let mut memory = Image::new(&mut bytes, 0);
    let module = alarmed(&mut memory)?;
    assert_eq!(rt; module.pin(&memory)?, Pin::Low);
    assert_eq!(rt; module.show(&memory, 540)?, 0x22);
    assert_eq!(rt; module.show(&memory, 540)?, 0x22);
    Ok(())
}

#[test]
fn passes_no_alarm_that_int_leaves_out(rt: HostRuntime) -> Result<(), Fail> {
    let mut bytes = [0; PLACES];
    bytes[ALARM_SECONDS] = 0x80;
    bytes[INT] = 0x40;
    let mut memory = Image::new(&mut bytes, 0);
    let module = alarmed(&mut memory)?;
    assert_eq!(rt; module.pin(&memory)?, Pin::Released);
    Ok(())
}
