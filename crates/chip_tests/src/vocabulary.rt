// The tables and small rules of the chip, by examples.
use chip::bits::{is_zero_bit, shifted};
use chip::calls::{Call, Event, Supply};
use chip::locks::is_locked;
use chip::pins::Pin;
use chip::refusals::{Line, Refusal};
use chip::registers::Section;
use chip::slaves::{Area, Direction, Slave};
use chip::status::Status;
use chip::wires::{Edge, Levels, edge_between};

#[test]
fn calls_and_edges(rt: HostRuntime) {
    let high = Levels {
        scl: true,
        sda: true,
    };
    let low = Levels {
        scl: true,
        sda: false,
    };
    let pulse = Levels {
        scl: false,
        sda: true,
    };
    assert_eq!(rt; edge_between(high, false, low), Edge::Start);
    assert_eq!(rt; edge_between(low, false, high), Edge::Stop);
    assert_eq!(rt; edge_between(high, true, low), Edge::Still);
    assert_eq!(rt;
        edge_between(pulse, true, high),
        Edge::Rise { level: false }
    );
    assert_eq!(rt; edge_between(high, false, pulse), Edge::Fall);
    assert_eq!(rt;
        Call::Level { scl: 1, sda: 0 }.accepted(),
        Ok(Event::Given { levels: low })
    );
    assert_eq!(rt;
        Call::Level { scl: 2, sda: 2 }.accepted(),
        Err(Refusal::BadLevel { line: Line::Scl })
    );
    assert_eq!(rt;
        Call::Level { scl: 1, sda: 2 }.accepted(),
        Err(Refusal::BadLevel { line: Line::Sda })
    );
    assert_eq!(rt;
        Call::Supply { which: 2 }.accepted(),
        Ok(Event::Supplied {
            supply: Supply::Battery,
        })
    );
    assert_eq!(rt;
        Call::Supply { which: 3 }.accepted(),
        Err(Refusal::BadSupply)
    );
}

#[test]
fn addresses_and_places(rt: HostRuntime) {
    assert_eq!(rt; Area::Array.address(0x03, 0xFF), Area::Array.at(0x1FF));
    assert_eq!(rt;
        Area::Registers.address(0x00, 0xFF),
        Area::Registers.at(0x3F)
    );
    assert_eq!(rt; Area::Array.at(0x3F).next_written(), 0x00);
    assert_eq!(rt; Area::Array.at(0x3F).next_read(), 0x40);
    assert_eq!(rt; Area::Array.at(0x1FF).next_read(), 0x000);
    assert_eq!(rt; Area::Registers.at(0x13).next_written(), 0x10);
    assert_eq!(rt; Area::Registers.at(0x37).next_read(), 0x30);
    assert_eq!(rt; Area::Registers.at(0xFF).next_read(), 0xFF);
    assert_eq!(rt; Area::Registers.at(0x20).next_read(), 0x20);
    assert!(rt; Area::Registers.at(0xFF).is_status());
    assert!(rt; !Area::Array.at(0x3F).is_status());
    assert_eq!(rt; Area::Registers.at(0x13).place(), 531);
    assert_eq!(rt; Area::Registers.at(0x11).stored_as(0xFF), 0xF8);
    assert_eq!(rt; Area::Array.at(0x11).stored_as(0xFF), 0xFF);
    assert_eq!(rt; Section::Clock.address(), Area::Registers.at(0x30));
}

#[test]
fn sections_and_slaves(rt: HostRuntime) {
    assert_eq!(rt; Section::of(0x07), Some(Section::Alarm0));
    assert_eq!(rt; Section::of(0x13), Some(Section::Control));
    assert_eq!(rt; Section::of(0x14), None);
    assert_eq!(rt; Section::of(0x3E), None);
    assert_eq!(rt; Section::of(0x3F), Some(Section::Status));
    assert_eq!(rt; Slave::named(0xDF), Some(Slave::RegisterRead));
    assert_eq!(rt; Slave::named(0xA0), None);
    assert_eq!(rt;
        Slave::of(Area::Registers, Direction::Read),
        Slave::RegisterRead
    );
    assert_eq!(rt; u8::from(Slave::ArrayWrite), 0xAE);
    assert!(rt; Area::Registers.at(0x3F).takes_data(false, true));
    assert!(rt; !Area::Registers.at(0x3F).takes_data(true, false));
    assert!(rt; !Area::Registers.at(0x20).takes_data(true, true));
    assert!(rt; !Area::Array.at(0).takes_data(false, true));
    assert!(rt; is_zero_bit(0x7F, 0));
    assert!(rt; !is_zero_bit(0x01, 7));
    assert_eq!(rt; shifted(0xFF, false), 0xFE);
}

#[test]
fn locks(rt: HostRuntime) {
    assert!(rt; !is_locked(0x1F, 0x000));
    assert!(rt; is_locked(0x20, 0x180));
    assert!(rt; !is_locked(0x20, 0x17F));
    assert!(rt; is_locked(0x40, 0x100));
    assert!(rt; is_locked(0x60, 0x000));
    assert!(rt; is_locked(0x80, 0x03F));
    assert!(rt; !is_locked(0x80, 0x040));
    assert!(rt; is_locked(0xA0, 0x07F));
    assert!(rt; !is_locked(0xC0, 0x100));
    assert!(rt; is_locked(0xE0, 0x1FF));
}

#[test]
fn reports(rt: HostRuntime) {
    let worn = Refusal::Worn {
        area: Area::Array,
        address: 0x40,
        life: 1,
    }
    .report();
    assert_eq!(rt; worn.number, 5);
    assert_eq!(rt; u8::from(worn.layer), 3);
    assert_eq!(rt; worn.area_number(), 1);
    assert_eq!(rt; worn.life, Some(1));
    let bad = Refusal::NotADate { register: 0x33 }.report();
    assert_eq!(rt; bad.number, 7);
    assert_eq!(rt; u8::from(bad.layer), 2);
    assert_eq!(rt; bad.area_number(), 2);
    assert_eq!(rt; bad.address, 0x33);
    let level = Refusal::BadLevel { line: Line::Sda }.report();
    assert_eq!(rt; level.number, 1);
    assert_eq!(rt; level.address, 1);
    assert_eq!(rt; level.area_number(), 0);
    assert_eq!(rt; u8::from(Pin::Released), 1);
    assert_eq!(rt; u16::from(Supply::Battery), 2);
    let status = Status {
        bat: true,
        al1: false,
        al0: true,
        rwel: true,
        wel: false,
        rtcf: true,
    };
    assert_eq!(rt; u8::from(status), 0xA5);
}
