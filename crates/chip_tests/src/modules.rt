// A master on the two wires, and a few frames.
use chip::bits::is_zero_bit;
use chip::calls::{Answer, Call};
use chip::refusals::{Line, Refusal};
use law::run;
use memory::{Image, Memory, PLACES};
use std::test::Fail;
use x1226::Module;

// Module and memory are lent to each of these, as to the module's own calls.

// Gives a bit, and answers the level that the module leaves after SCL's fall.
fn pulse<M: Memory>(module: &mut Module, memory: &mut M, bit: u16) -> Result<bool, Refusal> {
    let level = module.level(memory, 0, bit)?;
    module.level(memory, 1, bit)?;
    Ok(level)
}

// Sends a byte, and answers whether it is acknowledged.
fn send<M: Memory>(module: &mut Module, memory: &mut M, byte: u8) -> Result<bool, Refusal> {
    for index in 0..8u8 {
        pulse(module, memory, u16::from(!is_zero_bit(byte, index)))?;
    }
    Ok(!pulse(module, memory, 1)?)
}

// A whole frame that writes one byte; answers whether that byte was acknowledged.
pub(crate) fn write<M: Memory>(
    module: &mut Module,
    memory: &mut M,
    slave: u8,
    address: u8,
    byte: u8,
) -> Result<bool, Refusal> {
    module.level(memory, 1, 1)?;
    module.level(memory, 1, 0)?;
    send(module, memory, slave)?;
    send(module, memory, 0)?;
    send(module, memory, address)?;
    let taken = send(module, memory, byte)?;
    pulse(module, memory, 0)?;
    module.level(memory, 1, 1)?;
    Ok(taken)
}

#[test]
fn stores_a_byte_once_unlocked(rt: HostRuntime) -> Result<(), Fail> {
    let mut bytes = [0xFF; PLACES];
    bytes[528] = 0;
    let mut memory = Image::new(&mut bytes, 1000);
    let mut module = Module::make();
    module.supply(&mut memory, 1)?;
    assert!(rt; !write(&mut module, &mut memory, 0xAE, 0x40, 0x5A)?);
    assert!(rt; write(&mut module, &mut memory, 0xDE, 0x3F, 0x02)?);
    assert!(rt; write(&mut module, &mut memory, 0xAE, 0x40, 0x5A)?);
    assert_eq!(rt; memory.read(0x40), Ok(0x5A));
    Ok(())
}

#[test]
fn refuses_numbers_out_of_range(rt: HostRuntime) {
    let mut bytes = [0; PLACES];
    let mut memory = Image::new(&mut bytes, 0);
    let mut module = Module::make();
    assert_eq!(rt;
        module.level(&mut memory, 2, 2),
        Err(Refusal::BadLevel { line: Line::Scl })
    );
    assert_eq!(rt;
        module.level(&mut memory, 1, 2),
        Err(Refusal::BadLevel { line: Line::Sda })
    );
    assert_eq!(rt; module.supply(&mut memory, 3), Err(Refusal::BadSupply));
    assert_eq!(rt; module.level(&mut memory, 1, 0), Ok(true));
}

#[test]
fn an_unfit_memory_comes_first(rt: HostRuntime) {
    let mut bytes = [0; 10];
    let mut memory = Image::new(&mut bytes, 0);
    let mut module = Module::make();
    assert_eq!(rt; module.level(&mut memory, 2, 2), Err(Refusal::Unfit));
    assert_eq!(rt; module.tick(&mut memory), Err(Refusal::Unfit));
}

#[test]
fn replays_as_many_calls_as_rows(rt: HostRuntime) {
    let mut bytes = [0; PLACES];
    let mut memory = Image::new(&mut bytes, 0);
    let calls = [
        Call::Supply { which: 1 },
        Call::Supply { which: 3 },
        Call::Tick,
    ];
    let mut rows = [Answer {
        sda: false,
        refusal: None,
    }; 2];
    let module = run(&mut memory, &calls, &mut rows);
    assert!(rt; !module.pulls());
    assert_eq!(rt;
        rows[0],
        Answer {
            sda: true,
            refusal: None,
        }
    );
    assert_eq!(rt;
        rows[1],
        Answer {
            sda: true,
            refusal: Some(Refusal::BadSupply),
        }
    );
}
