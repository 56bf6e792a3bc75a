//! Two threads on one shared field.
ghost use Rattle.std.specs.Prelude.{◌≡◌, ◌<◌, ◌≤ℤ◌, pos, IfOk, IfSome, IsSome};
ghost use Rattle.cvc_law.specs.Network.{IsDevice, nets, devices};
ghost use Rattle.cvc_field.specs.Seats.{IsHandOf};

use arrayvec::ArrayVec;
use cvc_base::{Kind, Mv, NetId, NoMemory, Side, Volts};
use cvc_field::{Field, Hand, Tray, Turn};
use cvc_law::{Circuit, Device, Fixed};
use std::alloc::Global;
use std::test::Fail;
use std::thread::join_mut;

// What a device of the ring has of voltages: a threshold in millivolts.
fn volts(threshold: Mv) -> Volts
    ensures { (result.drop ≡ pos 0) × (result.junction ≡ pos 0) × (result.weak ≡ result.threshold) }
{
    let zero = Mv::new(0).unwrap();
    Volts {
        threshold,
        weak: threshold,
        drop: zero,
        junction: zero,
        vgs: None,
        vgd: None,
        vds: None,
        vbs: None,
        vbd: None,
        vbg: None,
    }
}

// A resistor of the ring.
fn resistor(a: u32, b: u32) -> Device
    requires { (a < 5) × (b < 5) }
    ensures { IsDevice 5 result }
{
    let mut pins = ArrayVec::new();
    pins.push(NetId(a));
    pins.push(NetId(b));
    Device {
        kind: Kind::Resistor,
        pins,
        volts: volts(Mv::new(0).unwrap()),
    }
}

// A pass gate of the ring, with its bulk on net 3.
fn pass_gate(drain: u32, gate: u32, source: u32) -> Device
    requires { (drain < 5) × (gate < 5) × (source < 5) }
    ensures { IsDevice 5 result }
{
    let mut pins = ArrayVec::new();
    pins.push(NetId(drain));
    pins.push(NetId(gate));
    pins.push(NetId(source));
    pins.push(NetId(3));
    Device {
        kind: Kind::Nmos,
        pins,
        volts: volts(Mv::new(700).unwrap()),
    }
}

// From 0 to this.
fn supply(high: i64) -> Fixed
    requires { (pos 0 ≤ℤ high) × (high ≤ℤ pos 1000000) }
    ensures { result.low ≤ℤ result.high }
{
    Fixed {
        low: Mv::new(0).unwrap(),
        high: Mv::new(high).unwrap(),
    }
}

// Nets a, b, c, vss and src.
fn ring(alloc: Global) -> Result<Circuit, NoMemory>
    ensures { IfOk result (λ c. (nets c ≡ 5) × (devices c ≡ 5)) }
{
    let fixed = vec![in alloc; None, None, None, Some(supply(0)), Some(supply(3300))]?;
    let devices = vec![in alloc;
        pass_gate(0, 1, 2),
        pass_gate(1, 2, 0),
        pass_gate(2, 0, 1),
        resistor(4, 0),
        resistor(4, 1),
    ]?;
    Circuit::new(alloc, fixed, devices)
}

// Turns until the hand is quiet.
fn turns(field: &Field, hand: Hand) -> Hand
    requires hand { IsHandOf field.now hand }
    requires some { 0 < devices field.now.circuit.now }
    ensures hand { IsHandOf field.now result }
    ensures range { (result.first ≡ hand.first) × (result.numbers ≡ hand.numbers) }
{
    let mut hand = hand;
    let mut tray = Tray::new();
    for _ in 0..100_000_000 {
        if field.turn(&mut hand, 0, &mut tray) == Turn::Quiet {
            return hand;
        }
    }
    hand
}

// The hand that the place holds makes its turns, and is put back.
fn work(field: &Field, place: &mut Option<Hand>)
    requires hand { IfSome place.old (IsHandOf field.now) }
    requires some { 0 < devices field.now.circuit.now }
    ensures { IfSome place.old (λ h. IfSome place.new (λ g. IsHandOf field.now g × (g.first ≡ h.first) × (g.numbers ≡ h.numbers)) × IsSome place.new) }
{
    if let Some(hand) = place.take() {
        *place = Some(turns(field, hand));
    }
}

#[test]
fn two_threads_on_the_ring_of_pass_gates(rt: HostRuntime) -> Result<(), Fail> {
    let alloc = rt.alloc();
    let circuit = ring(alloc)?;
    let (field, hand) = Field::new(alloc, &circuit, 2)?;
    let (left, right) = field.split(hand, 1);
    let mut front = Some(left);
    let mut back = Some(right);
    join_mut(
        &rt,
        &mut ||
            requires { IfSome front (IsHandOf field) × (0 < devices field.circuit.now) }
            ensures { IfSome front.entry (λ h. IfSome front.exit (λ g. IsHandOf field.entry g × (g.first ≡ h.first) × (g.numbers ≡ h.numbers))
                × IsSome front.exit) }
        { work(&field, &mut front) },
        &mut ||
            requires { IfSome back (IsHandOf field) × (0 < devices field.circuit.now) }
            ensures { IfSome back.entry (λ h. IfSome back.exit (λ g. IsHandOf field.entry g × (g.first ≡ h.first) × (g.numbers ≡ h.numbers))
                × IsSome back.exit) }
        { work(&field, &mut back) },
    );
    let (Some(a), Some(b)) = (front, back) else {
        unreachable!()
    };
    assert!(rt; a.is_quiet());
    assert!(rt; b.is_quiet());
    let hand = field.join(a, b);
    let closed = field.close(hand);
    for (n, high) in [(0, 3300), (1, 3300), (2, 2600)] {
        let net = NetId(n);
        assert_eq!(rt; closed.bound(net, Side::Low).map(|v| v.get()), Some(0));
        assert_eq!(rt; closed.bound(net, Side::High).map(|v| v.get()), Some(high));
    }
    Ok(())
}
