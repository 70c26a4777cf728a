// Examples: a byte on the wires, a write and its read, and a bill.
use crate::frames::Latch;
use crate::rows::{Rows, read_bytes, write_outcome};
use crate::script::Script;
use chip::calls::Supply;
use chip::slaves::Area;
use memory::{Image, Memory, factory_bytes};
use std::test::Fail;

// The row behind that of the next call; there always is such a number.
fn row_behind(script: &Script) -> usize {
    script.mark() + 1
}

#[test]
fn a_mark_can_be_counted_on_from(rt: HostRuntime) -> Result<(), Fail> {
    let mut script = Script::new(rt.alloc());
    script.supply(Supply::Main)?;
    script.start()?;
    assert_eq!(rt; row_behind(&script), 3);
    Ok(())
}

// A byte stored at address 40h is read back; without WEL the write is not acknowledged.
#[test]
fn stores_and_reads(rt: HostRuntime) -> Result<(), Fail> {
    let mut script = Script::new(rt.alloc());
    let to = Area::Array.at(0x40);
    script.supply(Supply::Main)?;
    let silent = script.mark();
    script.write(to, &[0x5A])?;
    script.unlock(Latch::Wel)?;
    let taken = script.mark();
    script.write(to, &[0x5A])?;
    script.wait(164)?;
    script.seek(to)?;
    let read = script.mark();
    script.receive_all(2)?;
    script.stop()?;
    let mut bytes = factory_bytes();
    let mut image = Image::new(&mut bytes, 10);
    let rows = Rows::of(rt.alloc(), &script, &mut image)?;
    assert!(rt; write_outcome(rows.from(silent), 1).is_err());
    assert!(rt; write_outcome(rows.from(taken), 1).is_ok());
    let mut back = [0; 2];
    read_bytes(rows.from(read), &mut back);
    assert_eq!(rt; back, [0x5A, 0xFF]);
    Ok(())
}
