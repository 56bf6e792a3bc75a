//! Model files: their refusals, their rows, and the row that is chosen for a device.

use cvc_base::{FileKind, Kind, Mv, NoMemory, Param, Params, Refusal, Text, Value, Volts};
use cvc_model::{Choice, ModelRow, Models, Test, read_models};
use cvc_units::read_number;
use std::alloc::Global;
use std::test::Fail;

// Files of one line, each behind the word of its refusal. A line that begins with `#` says why.
const REFUSED_ROWS: &str = "\
missing-vth nch nmos
negative d diode Vf=-0.1
unknown-key r resistor Vth=1
unknown-kind q jfet
bad-row nch
# An item's form: its first sign decides, and neither side is empty.
bad-row n nmos Vth
bad-row n nmos Vth=
bad-row n nmos =1
bad-row n nmos Vth = 1
bad-row n nmos Vth=1 L<
bad-row n nmos Vth=1 L>2
bad-row n nmos Vth=1 L>2=3
bad-row n nmos Vth=1 L>=
bad-row n nmos Vth=1 <1
bad-row n nmos Vth=1 L<=3
bad-row n nmos Vth=1 L<x
bad-row n nmos Vth=1 L>=1e12
bad-row n nmos L>
# A test of a parameter named Vth gives no threshold.
missing-vth n nmos Vth>=1
# The key `a`, whatever follows.
unknown-key n nmos a=b<c
# Keys of another kind.
unknown-key n nmos Vth=1 Vf=0.6
unknown-key d diode Vj=0.6
unknown-key c capacitor Vgs=1
unknown-key q bipolar Vf=0.6
# On one item: an unknown key before a bad voltage, a key that was given before that, and that before a negative voltage.
unknown-key n nmos Vf=x
bad-row n nmos Vth=1 vTH=x
bad-voltage n nmos Vth=1 Vgs=x
bad-voltage n nmos Vth=1 Vgs=-0.0005
negative n nmos Vth=1 Vgs=-1
negative n nmos Vth=1 Vj=-1m
# Two voltages of a threshold, split at the first `:`; elsewhere a `:` is part of the text.
bad-voltage nch nmos Vth=0.4:
bad-voltage nch nmos Vth=0.4 Vj=0:1
bad-voltage n nmos Vth=:0.4
bad-voltage n nmos Vth=:
bad-voltage n nmos Vth=1:2:3
bad-voltage n pmos Vth=-0.5:0.0005
bad-voltage n nmos Vgs=-1:2
bad-voltage d diode Vf=0:1
unknown-key d diode Vth=1:2
bad-row n nmos Vth=1:2 vTH=x
# Items from the left, and a missing threshold after all.
negative n nmos Vgs=-1 Vth
bad-row n nmos Vth Vgs=-1
unknown-key n nmos x=1 Vgs=-1
bad-voltage n pmos Vgs=x
# The kind before the items.
unknown-kind n fet =
# On one line lexical faults first.
bad-byte n\x7f nmos
";

fn is_refused(alloc: Global, file: &str, line: u32, word: &str) -> bool {
    match read_models(alloc, file.as_bytes()) {
        Err(Refusal::At(fault)) => {
            fault.place.file == FileKind::Models
                && fault.place.line == line
                && fault.cause.word() == word.as_bytes()
        }
        _ => false,
    }
}

#[test]
fn model_row_refusals(rt: HostRuntime) {
    for row in REFUSED_ROWS.lines() {
        if row.starts_with('#') {
            continue;
        }
        let (word, file) = row.split_once(' ').unwrap_or((row, ""));
        assert!(rt; is_refused(rt.alloc(), file, 1, word), "{row}");
    }
}

#[test]
fn refusals_by_line(rt: HostRuntime) {
    for (file, line, word) in [
        // A row's fault before the lexical ones of later lines, and on one line those first.
        ("r resistor\nq jfet\nn\x01", 2, "unknown-kind"),
        ("r resistor\nq jfet \x01\nn", 2, "bad-byte"),
        // Blank lines and comments count.
        ("\nq\nn nmos", 2, "bad-row"),
        ("# q\nn nmos # Vth=1", 2, "missing-vth"),
        ("n nmos Vth=1\n \t\nn nmos", 3, "missing-vth"),
    ] {
        assert!(rt; is_refused(rt.alloc(), file, line, word), "{file}");
    }
}

fn models_of(alloc: Global, text: &str) -> Result<Models, Fail> {
    Ok(read_models(alloc, text.as_bytes())?)
}

fn mv(voltage: Option<Mv>) -> Option<i64> {
    voltage.map(|v| v.get())
}

fn limits_are(volts: &Volts, limits: [Option<i64>; 6]) -> bool {
    let [vgs, vgd, vds, vbs, vbd, vbg] = limits;
    mv(volts.vgs) == vgs
        && mv(volts.vgd) == vgd
        && mv(volts.vds) == vds
        && mv(volts.vbs) == vbs
        && mv(volts.vbd) == vbd
        && mv(volts.vbg) == vbg
}

fn volts_are(volts: &Volts, threshold: i64, drop: i64, junction: i64) -> bool {
    volts.threshold.get() == threshold
        && volts.weak.get() == threshold
        && volts.drop.get() == drop
        && volts.junction.get() == junction
}

fn test_is(test: &Test, param: &str, less: bool, number: i128) -> bool {
    test.param.bytes() == param.as_bytes() && test.less == less && test.number == number
}

#[test]
fn voltages_of_rows(rt: HostRuntime) -> Result<(), Fail> {
    let models = models_of(
        rt.alloc(),
        "nch NMOS Vth=-0.4 Vgs=1.32 vGD=1.5\npch pmos vth=-0.4 VJ=0.7 Vds=0 Vbs=1 Vbd=2 Vbg=3\n\nd Diode VF=0.6\nc capacitor",
    )?;
    let none = [None; 6];
    let first = [Some(1320), Some(1500), None, None, None, None];
    let second = [None, None, Some(0), Some(1000), Some(2000), Some(3000)];
    let rows = [
        ("nch", Kind::Nmos, 1, (-400, 0, 0), first),
        ("pch", Kind::Pmos, 2, (400, 0, 700), second),
        ("d", Kind::Diode, 4, (0, 600, 0), none),
        ("c", Kind::Capacitor, 5, (0, 0, 0), none),
    ];
    assert_eq!(rt; models.len(), rows.len());
    for (i, (name, kind, line, (threshold, drop, junction), limits)) in rows
        .into_iter()
        .enumerate()
    {
        let row = models.get(i);
        assert!(rt; row.name.bytes() == name.as_bytes(), "{name}");
        assert!(rt; row.kind == kind && row.line == line, "{name}");
        assert!(rt; volts_are(&row.volts, threshold, drop, junction), "{name}");
        assert!(rt; limits_are(&row.volts, limits), "{name}");
    }
    Ok(())
}

#[test]
fn corners_of_a_threshold(rt: HostRuntime) -> Result<(), Fail> {
    for (file, threshold, weak) in [
        ("nhv nmos Vth=0.8:0.6", 600, 800),
        ("nhv nmos Vth=0.6:0.8", 600, 800),
        ("n nmos Vth=0.3:-0.4", -400, 300),
        ("n nmos Vth=0.4:400m", 400, 400),
        ("phv pmos Vth=-0.5:-2.5", 500, 2500),
        ("phv pmos vth=-1.5:-0.5 Vj=0.7", 500, 1500),
        ("p pmos Vth=0.5:-0.3", 300, 500),
        ("p pmos Vth=-0.4", 400, 400),
    ] {
        let models = models_of(rt.alloc(), file)?;
        assert_eq!(rt; models.len(), 1);
        let volts = &models.get(0).volts;
        assert!(rt;
            volts.threshold.get() == threshold && volts.weak.get() == weak,
            "{file}"
        );
    }
    Ok(())
}

#[test]
fn tests_of_a_row(rt: HostRuntime) -> Result<(), Fail> {
    let models = models_of(rt.alloc(), "nch nmos L>=0.2u Vth=1 w<1")?;
    assert_eq!(rt; models.len(), 1);
    let tests = &models.get(0).tests;
    assert_eq!(rt; tests.len(), 2);
    assert!(rt; test_is(tests.get(0), "L", false, 200_000_000_000_000_000));
    assert!(rt; test_is(tests.get(1), "w", true, 1_000_000_000_000_000_000_000_000));
    Ok(())
}

// The parameters of a text like `L=1 W=foo`: a value that is no number is a word.
fn params_of(alloc: Global, text: &str) -> Result<Params, NoMemory> {
    let mut params = Params::new(alloc);
    for pair in text.split_whitespace() {
        let (name, value) = pair.split_once('=').unwrap_or((pair, ""));
        let value = match read_number(value.as_bytes()) {
            Ok(number) => Value::Number(number),
            Err(_) => Value::Word(Text::of(alloc, value.as_bytes())?),
        };
        params.push(Param {
            name: Text::of(alloc, name.as_bytes())?,
            value,
        })?;
    }
    Ok(params)
}

fn choice(alloc: Global, models: &Models, name: &str, params: &str) -> Result<Choice, Fail> {
    if models.len() > 100 {
        return Err("too many rows".into());
    }
    let params = params_of(alloc, params)?;
    Ok(models.choose(name.as_bytes(), &params))
}

#[test]
fn rows_in_order_up_to_the_first_that_holds(rt: HostRuntime) -> Result<(), Fail> {
    let models = models_of(
        rt.alloc(),
        "n nmos Vth=1 L<1\nm nmos Vth=1\nn nmos Vth=2 L>=1 W<2\nN nmos Vth=3\nn nmos Vth=4 l<5 W<2\nw nmos Vth=1\nw nmos Vth=1 L<1",
    )?;
    for (name, params, want) in [
        ("n", "L=0.5", Choice::Chosen(0)),
        ("n", "l=0.999999999999999999999999", Choice::Chosen(0)),
        // At least, and less than.
        ("n", "L=1 W=1", Choice::Chosen(2)),
        ("n", "L=1 W=2", Choice::Nothing),
        ("n", "L=5 W=1", Choice::Chosen(2)),
        ("N", "", Choice::Chosen(3)),
        ("x", "", Choice::Nothing),
        // A missing parameter doesn't hold.
        ("n", "", Choice::Nothing),
        ("n", "L=1", Choice::Nothing),
        // A word where a test reaches it, also where a later row would hold.
        ("n", "L=foo", Choice::WordMet),
        ("n", "L=0 W=foo", Choice::Chosen(0)),
        ("n", "L=2 W=foo", Choice::WordMet),
        ("w", "L=foo", Choice::Chosen(5)),
        // The last parameter of a name counts.
        ("n", "L=1 l=foo", Choice::WordMet),
        ("n", "l=foo L=0", Choice::Chosen(0)),
    ] {
        let got = choice(rt.alloc(), &models, name, params)?;
        assert!(rt; got == want, "{name} {params}");
    }
    Ok(())
}

fn first_taken(models: &mut Models) -> Result<ModelRow, Fail> {
    if models.is_empty() {
        return Err("no row".into());
    }
    Ok(models.remove(0))
}

fn first_replaced(models: &mut Models, row: ModelRow) -> Result<ModelRow, Fail> {
    if models.is_empty() {
        return Err("no row".into());
    }
    Ok(models.replace(0, row))
}

const TWO_OF_A: &str = "a nmos Vth=1 L<1\na nmos Vth=2\nb resistor";

// These rows, with a row of `c` pushed.
fn with_row_pushed(alloc: Global) -> Result<Models, Fail> {
    let mut models = models_of(alloc, TWO_OF_A)?;
    let mut others = models_of(alloc, "c resistor")?;
    models.push(first_taken(&mut others)?)?;
    Ok(models)
}

#[test]
fn pushed_row(rt: HostRuntime) -> Result<(), Fail> {
    let alloc = rt.alloc();
    let before = models_of(alloc, TWO_OF_A)?;
    assert!(rt; before.len() == 3);
    assert!(rt; choice(alloc, &before, "a", "")? == Choice::Chosen(1));
    let models = with_row_pushed(alloc)?;
    assert!(rt; choice(alloc, &models, "c", "")? == Choice::Chosen(3));
    assert!(rt; choice(alloc, &models, "a", "")? == Choice::Chosen(1));
    Ok(())
}

#[test]
fn removed_and_replaced_rows(rt: HostRuntime) -> Result<(), Fail> {
    let alloc = rt.alloc();
    let mut models = with_row_pushed(alloc)?;
    let first = first_taken(&mut models)?;
    assert!(rt; first.name.bytes() == b"a".as_slice());
    assert!(rt; models.len() == 3);
    assert!(rt; choice(alloc, &models, "a", "")? == Choice::Chosen(0));
    let row = first_replaced(&mut models, first)?;
    assert!(rt; row.volts.threshold.get() == 2000);
    assert!(rt; choice(alloc, &models, "a", "")? == Choice::Nothing);
    Ok(())
}

#[test]
fn no_rows(rt: HostRuntime) -> Result<(), Fail> {
    let mut models = models_of(rt.alloc(), "c resistor")?;
    assert!(rt; !models.is_empty());
    let _ = first_taken(&mut models)?;
    assert!(rt; models.is_empty());
    assert!(rt; Models::new(rt.alloc()).is_empty());
    Ok(())
}
