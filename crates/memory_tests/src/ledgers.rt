//! The ledger.
use ledger::{LedgerError, Stamp, Tare, Weighing, bill, due, set_tare, tare, weigh, weighing};
use memory::{Image, Refusal, factory_bytes};
use std::test::Fail;

#[test]
fn a_load_is_weighed_and_billed_once(rt: HostRuntime) -> Result<(), Fail> {
    let mut bytes = factory_bytes();
    let mut image = Image::new(&mut bytes, 41);
    let load = Weighing {
        truck: 15,
        gross: 70_000,
        stamp: Stamp::NONE,
    };
    assert_eq!(rt; tare(&image, 15), Err(LedgerError::NoTare));
    assert_eq!(rt; weigh(&mut image, 23, load), Ok(()));
    assert_eq!(rt; bill(&mut image, 23).err(), Some(LedgerError::NoTare));
    assert_eq!(rt; set_tare(&mut image, 15, Tare { weight: 70_001 }), Ok(()));
    assert_eq!(rt; bill(&mut image, 23).err(), Some(LedgerError::Light));
    assert_eq!(rt; set_tare(&mut image, 15, Tare { weight: 69_000 }), Ok(()));
    assert_eq!(rt; weigh(&mut image, 23, load), Err(LedgerError::NotBilled));
    assert_eq!(rt; weighing(&image, 23), Ok(Some(load)));
    assert_eq!(rt; due(&image, 23)?.net, 1_000);
    assert_eq!(rt; bill(&mut image, 23)?.net, 1_000);
    assert_eq!(rt; bill(&mut image, 23).err(), Some(LedgerError::NotOpen));
    assert_eq!(rt;
        weigh(&mut image, 23, load),
        Err(LedgerError::Memory(Refusal::Short { life: 8 }))
    );
    Ok(())
}

#[test]
fn what_is_not_there_is_refused(rt: HostRuntime) {
    let mut bytes = factory_bytes();
    let mut image = Image::new(&mut bytes, 100);
    let load = Weighing {
        truck: 16,
        gross: 1,
        stamp: Stamp::NONE,
    };
    assert_eq!(rt; tare(&image, 16), Err(LedgerError::NoTruck));
    assert_eq!(rt;
        set_tare(&mut image, 16, Tare { weight: 1 }),
        Err(LedgerError::NoTruck)
    );
    assert_eq!(rt; weigh(&mut image, 0, load), Err(LedgerError::NoTruck));
    assert_eq!(rt; weighing(&image, 24), Err(LedgerError::NoTicket));
    assert_eq!(rt; weighing(&image, 0), Ok(None));
    assert_eq!(rt; image.life(), 100);
    let mut few = [0; 3];
    let unfit = Image::new(&mut few, 100);
    assert_eq!(rt;
        weighing(&unfit, 0),
        Err(LedgerError::Memory(Refusal::Unfit))
    );
}
