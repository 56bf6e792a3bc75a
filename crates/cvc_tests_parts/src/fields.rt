//! Hands on shared fields.
ghost use Rattle.std.specs.Prelude.{◌≡◌, IfOk};
ghost use Rattle.cvc_law.specs.Network.{IsDevice, nets, devices};

use arrayvec::ArrayVec;
use cvc_base::{DevId, Kind, Mv, NetId, NoMemory, Side, Volts};
use cvc_field::{Field, Tray, Turn, TurnOn};
use cvc_law::{Circuit, Device, Fixed};
use std::alloc::Global;
use std::test::Fail;

// A resistor from net 0 to net 1.
fn resistor() -> Device
    ensures { IsDevice 2 result }
{
    let zero = Mv::new(0).unwrap();
    let mut pins = ArrayVec::new();
    pins.push(NetId(0));
    pins.push(NetId(1));
    Device {
        kind: Kind::Resistor,
        pins,
        volts: Volts {
            threshold: zero,
            weak: zero,
            drop: zero,
            junction: zero,
            vgs: None,
            vgd: None,
            vds: None,
            vbs: None,
            vbd: None,
            vbg: None,
        },
    }
}

// A net declared at 1200, and a resistor from there to a second net.
pub(crate) fn one_resistor(alloc: Global) -> Result<Circuit, NoMemory>
    ensures { IfOk result (λ c. (nets c ≡ 2) × (devices c ≡ 1)) }
{
    let supply = Mv::new(1200).unwrap();
    let declared = Fixed {
        low: supply,
        high: supply,
    };
    let fixed = vec![in alloc; Some(declared), None]?;
    let devices = vec![in alloc; resistor()]?;
    Circuit::new(alloc, fixed, devices)
}

const D: DevId = DevId(0);

const N1: NetId = NetId(1);

#[test]
fn two_hands_on_one_resistor(rt: HostRuntime) -> Result<(), Fail> {
    let alloc = rt.alloc();
    let circuit = one_resistor(alloc)?;
    let (field, hand) = Field::new(alloc, &circuit, 2)?;
    let (mut a, mut b) = field.split(hand, 1);
    let mut tray = Tray::new();
    assert_eq!(rt; field.turn(&mut a, 0, &mut tray), Turn::Worked);
    assert_eq!(rt; tray.as_slice(), [D].as_slice());
    assert_eq!(rt; field.turn_on(&mut b, D, &mut tray), TurnOn::Worked);
    assert!(rt; tray.is_empty());
    assert_eq!(rt; field.turn_on(&mut a, D, &mut tray), TurnOn::Missed);
    assert_eq!(rt; field.turn(&mut a, 0, &mut tray), Turn::Quiet);
    let low = field.read(&mut b, N1, Side::Low);
    assert_eq!(rt; low.map(|v| v.get()), Some(1200));
    let hand = field.join(a, b);
    let closed = field.close(hand);
    for side in [Side::Low, Side::High] {
        assert_eq!(rt; closed.bound(N1, side).map(|v| v.get()), Some(1200));
    }
    Ok(())
}

#[test]
fn closed_before_any_turn(rt: HostRuntime) -> Result<(), Fail> {
    let alloc = rt.alloc();
    let circuit = one_resistor(alloc)?;
    let (field, hand) = Field::new(alloc, &circuit, 1)?;
    assert!(rt; !hand.is_quiet());
    let closed = field.close(hand);
    for side in [Side::Low, Side::High] {
        assert!(rt; closed.bound(N1, side).is_none());
    }
    Ok(())
}
