// The limits of a log, of its reply's room, and of a memory.
use chip::refusals::Refusal;
use memory::{Image, factory_bytes};
use runlog::{LEAST_REPLY, MOST_LOG, run_log};
use std::test::Fail;
use x1226::Module;

// What a room holds before anything is written.
const BLANK_ROOM: u8 = 0xA5;

// A log of so many bytes: the names, and one unreadable line.
fn push_log(log: &mut Vec<u8>, bytes: usize) -> Result<(), Fail> {
    log.extend_from_slice(b"call one two\n")?;
    for _ in 13..bytes {
        log.push(b'x')?;
    }
    Ok(())
}

#[test]
fn takes_8192_bytes_and_no_more(rt: HostRuntime) -> Result<(), Fail> {
    let mut bytes = factory_bytes();
    let mut memory = Image::new(&mut bytes, 1_000);
    let mut chip = Module::make();
    let mut log = Vec::new(rt.alloc());
    push_log(&mut log, MOST_LOG)?;
    assert_eq!(rt; log.len(), 8_192);
    let mut reply = vec![in rt.alloc(); BLANK_ROOM; LEAST_REPLY]?;
    assert_eq!(rt; run_log(&mut chip, &mut memory, &log, &mut reply), Ok(39));
    assert!(rt; reply.starts_with(b"line sda fault area address\n2 1 10 0 0\n\xA5"));

    log.push(b'x')?;
    let mut reply = vec![in rt.alloc(); BLANK_ROOM; LEAST_REPLY]?;
    assert_eq!(rt;
        run_log(&mut chip, &mut memory, &log, &mut reply),
        Err(Refusal::LogSize)
    );
    assert!(rt; reply.iter().all(|byte| *byte == BLANK_ROOM));
    Ok(())
}

#[test]
fn wants_32768_bytes_of_room(rt: HostRuntime) -> Result<(), Fail> {
    let mut bytes = factory_bytes();
    let mut memory = Image::new(&mut bytes, 1_000);
    let mut chip = Module::make();
    let log = b"call one two\ntick 1 0\n";
    let mut reply = vec![in rt.alloc(); BLANK_ROOM; 32_767]?;
    assert_eq!(rt;
        run_log(&mut chip, &mut memory, log, &mut reply),
        Err(Refusal::LogSize)
    );
    assert!(rt; reply.iter().all(|byte| *byte == BLANK_ROOM));

    reply.push(BLANK_ROOM)?;
    assert_eq!(rt; run_log(&mut chip, &mut memory, log, &mut reply), Ok(38));
    assert!(rt; reply.starts_with(b"line sda fault area address\n2 1 0 0 0\n\xA5"));
    Ok(())
}

#[test]
fn an_unfit_memory_comes_first(rt: HostRuntime) {
    let mut bytes = [0; 10];
    let mut memory = Image::new(&mut bytes, 0);
    let mut room = [BLANK_ROOM; 4];
    assert_eq!(rt;
        run_log(&mut Module::make(), &mut memory, b"tick", &mut room),
        Err(Refusal::Unfit)
    );
    assert_eq!(rt; room, [BLANK_ROOM; 4]);
}
