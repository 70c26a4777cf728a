//! The journal.
use memory::{BLANK, Journal, Memory, Refusal};
use std::test::Fail;

#[test]
fn a_blank_journal_holds_the_factory_bytes(rt: HostRuntime) {
    let mut words = [BLANK; 533];
    let journal = Journal::new(&mut words, 0);
    assert_eq!(rt; journal.life(), 533);
    assert_eq!(rt; journal.read(0), Ok(0xFF));
    assert_eq!(rt; journal.read(511), Ok(0xFF));
    assert_eq!(rt; journal.read(512), Ok(0x00));
    assert_eq!(rt; journal.read(519), Ok(0x20));
    assert_eq!(rt; journal.read(527), Ok(0x20));
    assert_eq!(rt; journal.read(531), Ok(0x00));
}

#[test]
fn the_last_record_of_a_place_counts(rt: HostRuntime) {
    let mut words = [BLANK; 533];
    words[0] = 5 * 256 + 1;
    words[1] = 531 * 256 + 255;
    words[2] = 5 * 256 + 2;
    let journal = Journal::new(&mut words, 0);
    assert_eq!(rt; journal.words_used(), 3);
    assert_eq!(rt; journal.life(), 530);
    assert_eq!(rt; journal.read(5), Ok(2));
    assert_eq!(rt; journal.read(531), Ok(255));
    assert_eq!(rt; journal.read(6), Ok(0xFF));
}

#[test]
fn a_full_journal_spends_an_erasure(rt: HostRuntime) -> Result<(), Fail> {
    let mut words = [BLANK; 533];
    let mut journal = Journal::new(&mut words, 1);
    assert_eq!(rt; journal.life(), 534);
    for _ in 0..533 {
        journal.write(9, 7)?;
    }
    assert_eq!(rt; journal.words_used(), 533);
    assert_eq!(rt; journal.erasures_left(), 1);
    assert_eq!(rt; journal.write(10, 8), Ok(()));
    assert_eq!(rt; journal.words_used(), 533);
    assert_eq!(rt; journal.erasures_left(), 0);
    assert_eq!(rt; journal.read(9), Ok(7));
    assert_eq!(rt; journal.read(10), Ok(8));
    assert_eq!(rt; journal.read(11), Ok(0xFF));
    assert_eq!(rt; journal.write(10, 9), Err(Refusal::Worn));
    assert_eq!(rt; journal.claim(1), Err(Refusal::Short { life: 0 }));
    assert_eq!(rt; words[9], 9 * 256 + 7);
    assert_eq!(rt; words[10], 10 * 256 + 255);
    assert_eq!(rt; words[532], 10 * 256 + 8);
    Ok(())
}

#[test]
fn a_journal_is_fit_up_to_its_limits(rt: HostRuntime) {
    let mut few = [BLANK; 532];
    assert!(rt; !Journal::new(&mut few, 1).is_fit());
    let mut least = [BLANK; 533];
    assert!(rt; Journal::new(&mut least, 100_000).is_fit());
    assert!(rt; !Journal::new(&mut least, 100_001).is_fit());
    let mut most = [BLANK; 16_384];
    assert_eq!(rt; Journal::new(&mut most, 100_000).life(), 1_585_216_384);
    let mut many = [BLANK; 16_385];
    assert!(rt; !Journal::new(&mut many, 0).is_fit());
}

#[test]
fn only_records_and_then_blanks_are_fit(rt: HostRuntime) {
    let mut words = [BLANK; 533];
    words[0] = 136_191;
    assert!(rt; Journal::new(&mut words, 0).is_fit());
    words[1] = 136_192;
    assert!(rt; !Journal::new(&mut words, 0).is_fit());
    words[1] = BLANK;
    words[2] = 0;
    let journal = Journal::new(&mut words, 0);
    assert!(rt; !journal.is_fit());
    assert_eq!(rt; journal.words_used(), 1);
    assert_eq!(rt; journal.life(), 0);
    assert_eq!(rt; journal.read(0), Err(Refusal::Unfit));
}
