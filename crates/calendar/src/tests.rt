// What the crate does on examples.
use crate::alarm::Alarm;
use crate::clock::{Clock, Register};
use crate::day::Day;
use crate::digits::{Digits, bcd, count, count_within};
use crate::worked::worked_cases;
use crate::year::{days_before_year, is_leap};
use std::test::Fail;

// 1996-02-28 23:59:58, a Wednesday, in 24-hour form.
const BEFORE_LEAP_DAY: [u8; 8] = [0x58, 0x59, 0xa3, 0x28, 0x02, 0x96, 3, 0x19];

fn first_of(month: u8, year: u16) -> Day {
    Day {
        date: 1,
        month,
        year,
    }
}

#[test]
fn a_count_has_two_digits(rt: HostRuntime) {
    for (count, tens, units) in [(0, 0, 0), (9, 0, 9), (59, 5, 9), (99, 9, 9), (255, 5, 5)] {
        assert_eq!(rt; Digits::of(count), Digits { tens, units });
    }
}

#[test]
fn a_byte_holds_two_digits(rt: HostRuntime) {
    assert_eq!(rt; bcd(59), 0x59);
    assert_eq!(rt; count(0x59), 59);
    for (byte, good) in [
        (0x00, false),
        (0x01, true),
        (0x1a, false),
        (0x31, true),
        (0x32, false),
    ] {
        assert_eq!(rt; count_within(byte, 1, 31).is_some(), good);
    }
}

#[test]
fn february_has_a_leap_day(rt: HostRuntime) {
    for (year, days) in [(1900, 28), (1996, 29), (1999, 28), (2000, 29)] {
        assert_eq!(rt; is_leap(year), days == 29);
        assert_eq!(rt; first_of(2, year).days_in_month(), days);
        assert_eq!(rt;
            first_of(3, year).days_before_month(),
            Some(u16::from(days) + 31)
        );
    }
    assert_eq!(rt; first_of(13, 2000).days_in_month(), 0);
}

#[test]
fn years_begin_at_a_day(rt: HostRuntime) {
    for (year, days) in [
        (1900, Some(0)),
        (1901, Some(365)),
        (2000, Some(36_524)),
        (2099, Some(72_684)),
        (2100, None),
    ] {
        assert_eq!(rt; days_before_year(year), days);
    }
}

#[test]
fn bytes_are_joined_one_by_one(rt: HostRuntime) {
    let start = Clock::start();
    assert_eq!(rt;
        <[u8; 8]>::from(start),
        [0x00, 0x00, 0x12, 0x01, 0x01, 0x00, 0x00, 0x20]
    );
    assert_eq!(rt; start.joined(5, 0x26).byte(5), 0x26);
    assert_eq!(rt; start.joined(8, 0x26), start);
    assert_eq!(rt; start.byte(8), 0);
}

#[test]
fn the_first_bad_register_is_named(rt: HostRuntime) {
    let bad = [
        (0, 0x60, Register::Seconds, 0x30),
        (1, 0x5a, Register::Minutes, 0x31),
        (2, 0x13, Register::Hours, 0x32),
        (2, 0xa4, Register::Hours, 0x32),
        (2, 0x52, Register::Hours, 0x32),
        (3, 0x00, Register::Date, 0x33),
        (4, 0x13, Register::Month, 0x34),
        (5, 0xa0, Register::Year, 0x35),
        (6, 0x07, Register::Weekday, 0x36),
        (7, 0x21, Register::Century, 0x37),
    ];
    for (k, byte, register, number) in bad {
        let clock = Clock::start().joined(k, byte);
        assert_eq!(rt; clock.first_bad(), Some(register));
        assert_eq!(rt; clock.first_bad().map(u8::from), Some(number));
        assert_eq!(rt; clock.checked(), Err(register));
    }
    assert_eq!(rt; Clock::start().checked(), Ok(Clock::start()));
}

#[test]
fn numbers_count_seconds(rt: HostRuntime) {
    let start = Clock::start();
    assert_eq!(rt; start.joined(7, 0x19).number(), 0);
    assert_eq!(rt; start.number(), 3_155_673_600);
    assert_eq!(rt; start.joined(4, 0x00).number(), 0);
}

#[test]
fn worked_cases_come_out(rt: HostRuntime) {
    for case in worked_cases() {
        assert_eq!(rt; case.shown.first_bad(), case.bad);
        assert_eq!(rt; case.shown.exists(), case.bad.is_none());
        assert_eq!(rt; case.shown.next(), case.later);
    }
}

#[test]
fn two_days_later_is_the_first_of_march(rt: HostRuntime) {
    let mut clock = Clock::from(BEFORE_LEAP_DAY);
    for _ in 0..172_800 {
        clock = clock.next();
    }
    assert_eq!(rt;
        <[u8; 8]>::from(clock),
        [0x58, 0x59, 0xa3, 0x01, 0x03, 0x96, 5, 0x19]
    );
    assert_eq!(rt; clock.number(), 3_034_713_598);
}

#[test]
fn a_date_is_written(rt: HostRuntime) -> Result<(), Fail> {
    let clock = Clock::from([0x59, 0x59, 0xa3, 0x31, 0x12, 0x99, 5, 0x19]);
    assert_eq!(rt;
        clock.to_string(rt.alloc())?.as_str(),
        "1999-12-31 23:59:59"
    );
    assert_eq!(rt;
        clock.joined(2, 0x31).to_string(rt.alloc())?.as_str(),
        "1999-12-31 11:59:59 PM"
    );
    assert_eq!(rt;
        clock.joined(4, 0x02).to_string(rt.alloc())?.as_str(),
        "no date (register 33h)"
    );
    assert_eq!(rt; Register::Date.to_string(rt.alloc())?.as_str(), "33h");
    Ok(())
}

#[test]
fn an_alarm_matches_what_it_enables(rt: HostRuntime) {
    let alarms = [
        // Seconds and minutes; the weekday; the hour; another hour; no enable bit; bit 7 of the year and century.
        ([0xd8, 0xd9, 0x00, 0x00, 0x00, 0x00, 0x00, 0x00], true),
        ([0x00, 0x00, 0x00, 0x00, 0x00, 0x00, 0x83, 0x00], true),
        ([0x00, 0x00, 0xa3, 0x00, 0x00, 0x00, 0x00, 0x00], true),
        ([0xd8, 0x00, 0xa2, 0x00, 0x00, 0x00, 0x00, 0x00], false),
        ([0x58, 0x59, 0x23, 0x28, 0x02, 0x16, 0x03, 0x19], false),
        ([0x00, 0x00, 0x00, 0x00, 0x00, 0x96, 0x00, 0x99], false),
    ];
    for (bytes, matches) in alarms {
        assert_eq!(rt;
            Alarm::from(bytes).matches(Clock::from(BEFORE_LEAP_DAY)),
            matches
        );
    }
}
