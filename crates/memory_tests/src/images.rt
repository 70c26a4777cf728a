//! The byte image, and work over any memory.
use memory::{ByteWrite, Image, Memory, Refusal, fetch, life_left, store, write_each};

#[test]
fn each_refusal_has_its_number(rt: HostRuntime) {
    assert_eq!(rt; Refusal::Unfit.number(), 3);
    assert_eq!(rt; Refusal::Place.number(), 4);
    assert_eq!(rt; Refusal::Worn.number(), 5);
    assert_eq!(rt; Refusal::Short { life: 7 }.number(), 5);
    assert_eq!(rt; Refusal::Short { life: 7 }.life_left(), Some(7));
    assert_eq!(rt; Refusal::Worn.life_left(), None);
}

#[test]
fn an_unfit_image_refuses_everything(rt: HostRuntime) {
    let mut bytes = [0; 531];
    let mut image = Image::new(&mut bytes, 9);
    assert!(rt; !image.is_fit());
    assert_eq!(rt; image.life(), 0);
    assert_eq!(rt; image.read(0), Err(Refusal::Unfit));
    assert_eq!(rt; image.read(532), Err(Refusal::Unfit));
    assert_eq!(rt; image.claim(0), Err(Refusal::Unfit));
    assert_eq!(rt; image.write(0, 1), Err(Refusal::Unfit));
}

#[test]
fn an_image_is_fit_up_to_its_limits(rt: HostRuntime) {
    let mut bytes = [0; 532];
    assert!(rt; Image::new(&mut bytes, 1_000_000_000).is_fit());
    assert!(rt; !Image::new(&mut bytes, 1_000_000_001).is_fit());
    let mut more = [0; 533];
    assert!(rt; Image::new(&mut more, 0).is_fit());
}

#[test]
fn a_place_is_looked_at_before_life(rt: HostRuntime) {
    let mut bytes = [7; 533];
    let mut image = Image::new(&mut bytes, 1);
    assert_eq!(rt; image.write(532, 1), Err(Refusal::Place));
    assert_eq!(rt; image.write(531, 1), Ok(()));
    assert_eq!(rt; image.write(532, 1), Err(Refusal::Place));
    assert_eq!(rt; image.write(531, 2), Err(Refusal::Worn));
    assert_eq!(rt; image.read(531), Ok(1));
    assert_eq!(rt; image.read(532), Err(Refusal::Place));
    assert_eq!(rt; image.claim(0), Ok(()));
    assert_eq!(rt; image.claim(1), Err(Refusal::Short { life: 0 }));
    assert_eq!(rt; bytes[532], 7);
}

#[test]
fn a_run_is_stored_all_or_nothing(rt: HostRuntime) {
    let mut bytes = [0; 532];
    let mut image = Image::new(&mut bytes, 5);
    assert_eq!(rt; store(&mut image, 530, &[1, 2, 3]), Err(Refusal::Place));
    assert_eq!(rt;
        store(&mut image, 0, &[1, 2, 3, 4, 5, 6]),
        Err(Refusal::Short { life: 5 })
    );
    assert_eq!(rt; store(&mut image, 529, &[1, 2, 3]), Ok(()));
    assert_eq!(rt; life_left(&image), Ok(2));
    let mut back = [9; 4];
    assert_eq!(rt; fetch(&image, 529, &mut back), Err(Refusal::Place));
    assert_eq!(rt; back, [9, 9, 9, 9]);
    assert_eq!(rt; fetch(&image, 528, &mut back), Ok(()));
    assert_eq!(rt; back, [0, 1, 2, 3]);
}

#[test]
fn one_write_more_than_life_is_refused(rt: HostRuntime) {
    let mut bytes = [0; 532];
    let mut image = Image::new(&mut bytes, 3);
    let write = ByteWrite { place: 8, byte: 1 };
    let outside = ByteWrite {
        place: 532,
        byte: 1,
    };
    assert_eq!(rt;
        write_each(&mut image, &[write, outside, write, write, write]),
        3
    );
    assert_eq!(rt; image.life(), 0);
}
