//! The rows of a model file.
ghost use Rattle.std.specs.Prelude.{◌≡◌, ◌≤ℤ◌, ℤ, List, pos, unwrap_or, IfOk, IfSome};
ghost use Rattle.std.specs.Option.{ForSome};
ghost use Rattle.cvc_model.specs.Settings.{Setting};
ghost use Rattle.cvc_model.specs.Rows.{corners_of, in_order as ordered, magnitude_of, volts_of as volts_in};
ghost use Rattle.cvc_model.specs.Drafting.{AreVoltages};
ghost use Rattle.cvc_model.specs.Bindable.{AreCorners, AreVoltsOf};

use crate::voltages::Voltages;
use cvc_base::{Cause, ItemList, Kind, Mv, Text, Volts};

/// What a row asks of a parameter: that it is less than a number, or else at least that number. The number is in units of 10 to the
/// power -24, as a parameter's own is.
#[derive(Debug, Drop)]
pub struct Test {
    pub param: Text,
    pub less: bool,
    pub number: i128,
}

/// A list of tests.
pub type Tests = ItemList<Test>;

/// The model of the devices of a name whose parameters pass all tests. `line` is the row's line in its file, from 1.
#[derive(Debug, Drop)]
pub struct ModelRow {
    pub name: Text,
    pub kind: Kind,
    pub volts: Volts,
    pub tests: Tests,
    pub line: u32,
}

fn magnitude(voltage: Mv) -> Mv
    ensures magnitude { result ≡ magnitude_of voltage }
    ensures not_negative { pos 0 ≤ℤ result }
{
    Mv::new(voltage.get().abs()).unwrap()
}

fn or_zero(voltage: Option<Mv>) -> Mv
    ensures voltage { result ≡ unwrap_or voltage (pos 0) }
    ensures not_negative { ForSome voltage (λ v. pos 0 ≤ℤ v) → pos 0 ≤ℤ result }
{
    match voltage {
        Some(voltage) => voltage,
        None => Mv::ZERO,
    }
}

fn in_order(first: Mv, second: Mv) -> (Mv, Mv)
    ensures both { result ≡ ordered first second }
    ensures order { result.0 ≤ℤ result.1 }
    ensures above { (least : ℤ) → least ≤ℤ first → least ≤ℤ second → least ≤ℤ result.0 }
{
    if second.get() < first.get() {
        (second, first)
    } else {
        (first, second)
    }
}

// The thresholds of the corner that conducts most and of the one that conducts least; `None` where a kind that needs them lacks them.
fn corners(kind: Kind, vth: Option<(Mv, Mv)>) -> Option<(Mv, Mv)>
    ensures corners { result ≡ corners_of kind vth }
    ensures ordered { IfSome result (AreCorners kind) }
{
    match (kind, vth) {
        (Kind::Nmos, Some((first, second))) => Some(in_order(first, second)),
        (Kind::Pmos, Some((first, second))) => Some(in_order(magnitude(first), magnitude(second))),
        (Kind::Nmos | Kind::Pmos, None) => None,
        _ => Some((Mv::ZERO, Mv::ZERO)),
    }
}

// The voltages of a row of this kind.
pub(crate) fn volts_of(kind: Kind, given: &Voltages) -> Result<Volts, Cause>
    ensures volts { (settings : List Setting) → AreVoltages given.now settings → result ≡ volts_in kind settings }
    ensures bindable { IfOk result (AreVoltsOf kind) }
{
    let Some((threshold, weak)) = corners(kind, given.vth) else {
        return Err(Cause::MissingVth);
    };
    Ok(Volts {
        threshold,
        weak,
        drop: or_zero(given.vf),
        junction: or_zero(given.vj),
        vgs: given.vgs,
        vgd: given.vgd,
        vds: given.vds,
        vbs: given.vbs,
        vbd: given.vbd,
        vbg: given.vbg,
    })
}
