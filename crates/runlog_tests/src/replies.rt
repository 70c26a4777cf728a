// Logs, and the replies that the rules of the log give them.
use memory::{Image, factory_bytes};
use runlog::{LEAST_REPLY, run_log};
use std::alloc::{AllocError, Global};
use std::test::Fail;
use x1226::Module;

// The byte writes that the image takes where a test names none.
const WRITES: u32 = 1_000;

const REPLY_NAMES: &[u8] = b"line sda fault area address\n";

// The reply to a log, over a new module and a factory image of so many writes.
fn reply_to(alloc: Global, log: &str, writes: u32) -> Result<Vec<u8>, Fail> {
    let mut bytes = factory_bytes();
    let mut memory = Image::new(&mut bytes, writes);
    let mut reply = vec![in alloc; 0u8; LEAST_REPLY]?;
    let written = run_log(&mut Module::make(), &mut memory, log.as_bytes(), &mut reply)?;
    reply.truncate(written);
    Ok(reply)
}

// Whether the reply to a log is the names and these rows.
fn has_rows(alloc: Global, log: &str, rows: &str) -> Result<bool, Fail> {
    let reply = reply_to(alloc, log, WRITES)?;
    Ok(reply.strip_prefix(REPLY_NAMES) == Some(rows.as_bytes()))
}

// The same of value lines.
fn value_rows(alloc: Global, lines: &str, rows: &str) -> Result<bool, Fail> {
    let log = format!(in alloc; "call one two\n{lines}")?;
    has_rows(alloc, &log, rows)
}

#[test]
fn replies_to_the_examples(rt: HostRuntime) -> Result<(), Fail> {
    for (lines, rows) in [
        ("", ""),
        ("supply 1 0\nlevel 2 0", "2 1 0 0 0\n3 1 1 0 0\n"),
        (
            "level 0 7\nsupply 1 0\nlevel 1 1\nlevel 1 0\ntick 32768 0\nsupply 3 0\nlevel 1\ntick 1 0\n",
            "2 1 1 0 1\n3 1 0 0 0\n4 1 0 0 0\n5 1 0 0 0\n6 1 0 0 0\n7 1 2 0 0\n8 1 10 0 0\n",
        ),
        (
            "supply 1 00000\ntick 65535 0\ntick 0 0\n",
            "2 1 0 0 0\n3 1 0 0 0\n4 1 0 0 0\n",
        ),
        ("level 65535 0\nsupply 65535 0\n", "2 1 1 0 0\n3 1 2 0 0\n"),
    ] {
        assert!(rt; value_rows(rt.alloc(), lines, rows)?, "{lines:?}");
    }
    Ok(())
}

#[test]
fn refuses_other_first_lines(rt: HostRuntime) -> Result<(), Fail> {
    for log in [
        "",
        "\n",
        "call one  two",
        "call one two \ntick 1 0\n",
        "call one two\r\ntick 1 0\n",
        "Call one two\ntick 1 0\n",
        "call one\ntick 1 0\n",
        "\ncall one two\n",
    ] {
        assert!(rt; has_rows(rt.alloc(), log, "1 1 9 0 0\n")?, "{log:?}");
    }
    assert!(rt; has_rows(rt.alloc(), "call one two", "")?);
    Ok(())
}

#[test]
fn stops_at_an_unreadable_line(rt: HostRuntime) -> Result<(), Fail> {
    for line in [
        "level 1  0",
        " level 1 0",
        "level 1 0 ",
        "level 1 0\r",
        "level\t1 0",
        "",
        "level",
        "level 1",
        "level 1 0 0",
        "level 000001 1",
        "level 65536 0",
        "level +1 0",
        "level -1 0",
        "level 0x1 0",
        "level 1 \u{e9}",
        "Level 1 0",
        "levels 1 0",
        "tick 1 1",
        "tick  0",
        "supply 3 1",
    ] {
        let lines = format!(in rt.alloc(); "supply 1 0\n{line}\ntick 1 0\n")?;
        assert!(rt;
            value_rows(rt.alloc(), &lines, "2 1 0 0 0\n3 1 10 0 0\n")?,
            "{line:?}"
        );
    }
    assert!(rt; value_rows(rt.alloc(), "tick 1 0\n\n", "2 1 0 0 0\n3 1 10 0 0\n")?);
    Ok(())
}

// A bit under one clock pulse.
fn push_bit(log: &mut String, bit: bool) -> Result<(), AllocError> {
    log.push_str(if bit {
        "level 0 1\nlevel 1 1\n"
    } else {
        "level 0 0\nlevel 1 0\n"
    })
}

// A byte, and a pulse with SDA released.
fn push_byte(log: &mut String, byte: u8) -> Result<(), AllocError> {
    for place in 0..8u8 {
        push_bit(log, byte & (0x80 >> place) != 0)?;
    }
    push_bit(log, true)
}

// A frame: a start, its bytes, and a stop.
fn push_frame(log: &mut String, bytes: &[u8]) -> Result<(), AllocError> {
    log.push_str("level 1 1\nlevel 1 0\n")?;
    for byte in bytes {
        push_byte(log, *byte)?;
    }
    push_bit(log, false)?;
    log.push_str("level 1 1\n")
}

// Whether the reply to a log ends in this row.
fn ends_in(alloc: Global, log: &str, writes: u32, row: &str) -> Result<bool, Fail> {
    let reply = reply_to(alloc, log, writes)?;
    Ok(reply.ends_with(row.as_bytes()))
}

// A log of frames on main supply, the first of which puts WEL on; 200 ticks after each frame a write cycle is over.
fn log_of(alloc: Global, frames: &[&[u8]]) -> Result<String, AllocError> {
    let mut log = String::from_str(alloc, "call one two\nsupply 1 0\n")?;
    push_frame(&mut log, &[0xDE, 0x00, 0x3F, 0x02])?;
    for frame in frames {
        log.push_str("tick 200 0\n")?;
        push_frame(&mut log, frame)?;
    }
    Ok(log)
}

// RWEL on.
const RWEL: &[u8] = &[0xDE, 0x00, 0x3F, 0x06];

#[test]
fn tells_a_life_too_short(rt: HostRuntime) -> Result<(), Fail> {
    let log = log_of(rt.alloc(), &[&[0xAE, 0x00, 0x40, 0x11, 0x22]])?;
    assert!(rt; ends_in(rt.alloc(), &log, 1, " 1 5 1 64\n")?);
    assert!(rt; ends_in(rt.alloc(), &log, 2, " 1 0 0 0\n")?);
    Ok(())
}

#[test]
fn tells_that_rwel_is_off(rt: HostRuntime) -> Result<(), Fail> {
    let log = log_of(rt.alloc(), &[&[0xDE, 0x00, 0x00, 0x80]])?;
    assert!(rt; ends_in(rt.alloc(), &log, WRITES, " 1 6 2 0\n")?);
    Ok(())
}

#[test]
fn tells_what_is_not_a_date(rt: HostRuntime) -> Result<(), Fail> {
    let log = log_of(rt.alloc(), &[RWEL, &[0xDE, 0x00, 0x33, 0x30, 0x02]])?;
    assert!(rt; ends_in(rt.alloc(), &log, WRITES, " 1 7 2 51\n")?);
    Ok(())
}

#[test]
fn tells_a_locked_page(rt: HostRuntime) -> Result<(), Fail> {
    let log = log_of(
        rt.alloc(),
        &[
            RWEL,
            &[0xDE, 0x00, 0x10, 0x80],
            &[0xAE, 0x00, 0x40, 0x5A],
            &[0xAE, 0x00, 0x3F, 0x5A],
        ],
    )?;
    assert!(rt; ends_in(rt.alloc(), &log, WRITES, " 1 8 1 63\n")?);
    Ok(())
}

#[test]
fn tells_the_pull_on_a_refused_line(rt: HostRuntime) -> Result<(), Fail> {
    let mut log = String::from_str(
        rt.alloc(),
        "call one two\nsupply 1 0\nlevel 1 1\nlevel 1 0\n",
    )?;
    for place in 0..8u8 {
        push_bit(&mut log, 0xAE & (0x80 >> place) != 0)?;
    }
    log.push_str("level 0 1\nlevel 2 0\ntick 0 0\nlevel\n")?;
    assert!(rt;
        ends_in(
            rt.alloc(),
            &log,
            WRITES,
            "\n21 0 0 0 0\n22 0 1 0 0\n23 0 0 0 0\n24 0 10 0 0\n"
        )?
    );
    Ok(())
}
