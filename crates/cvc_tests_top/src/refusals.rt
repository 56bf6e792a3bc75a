//! Refused files: one line and its status each.

use crate::runs::{Case, HV, RESISTOR, expect_cases};
use std::test::Fail;

pub(super) const NO_FILES: Case = Case {
    netlist: b"",
    models: b"",
    power: b"",
    options: &[],
    status: 3,
    text: b"",
};

// A card's fault stands where the card closes, behind the lexical faults of that line and before the faults of the whole netlist.
#[test]
fn card_faults_in_order(rt: HostRuntime) -> Result<(), Fail> {
    let cases = [
        Case {
            netlist: b".SUBCKT t a\nX1 a missing\nM1 a a a\n.ENDS\n",
            text: b"refused netlist line 3 short-card\n",
            ..NO_FILES
        },
        Case {
            netlist: b".SUBCKT t a\nX1 a missing\n.ENDS\n",
            text: b"refused netlist line 2 unknown-cell\n",
            ..NO_FILES
        },
        Case {
            netlist: b"M1 a\n\x01",
            text: b"refused netlist line 2 bad-byte\n",
            ..NO_FILES
        },
        Case {
            netlist: b"+ a",
            text: b"refused netlist line 1 stray-plus\n",
            ..NO_FILES
        },
        Case {
            netlist: b"\x1f\x8b\x08",
            text: b"refused netlist line 1 bad-byte\n",
            ..NO_FILES
        },
        Case {
            netlist: b".SUBCKT a p\nX1 p b\n.ENDS\n.SUBCKT b p\nX1 p a\n.ENDS\n",
            text: b"refused netlist line 2 recursive\n",
            ..NO_FILES
        },
    ];
    expect_cases(&rt, rt.alloc(), &cases)?;
    Ok(())
}

#[test]
fn model_row_refusals(rt: HostRuntime) -> Result<(), Fail> {
    let refused = Case {
        status: 4,
        ..NO_FILES
    };
    let cases = [
        Case {
            models: b"nch nmos",
            text: b"refused models line 1 missing-vth\n",
            ..refused
        },
        Case {
            models: b"d diode Vf=-0.1",
            text: b"refused models line 1 negative\n",
            ..refused
        },
        Case {
            models: b"r resistor Vth=1",
            text: b"refused models line 1 unknown-key\n",
            ..refused
        },
        Case {
            models: b"q jfet",
            text: b"refused models line 1 unknown-kind\n",
            ..refused
        },
        Case {
            models: b"nch",
            text: b"refused models line 1 bad-row\n",
            ..refused
        },
        // Each of two corners is a voltage, and only a threshold has two.
        Case {
            models: b"nch nmos Vth=0.4:",
            text: b"refused models line 1 bad-voltage\n",
            ..refused
        },
        Case {
            models: b"nch nmos Vth=0.4 Vj=0:1",
            text: b"refused models line 1 bad-voltage\n",
            ..refused
        },
    ];
    expect_cases(&rt, rt.alloc(), &cases)?;
    Ok(())
}

#[test]
fn power_row_refusals(rt: HostRuntime) -> Result<(), Fail> {
    let refused = Case {
        status: 5,
        ..NO_FILES
    };
    let cases = [
        Case {
            power: b"VDD power 1.2005",
            text: b"refused power line 1 bad-voltage\n",
            ..refused
        },
        Case {
            power: b"a input 1 0",
            text: b"refused power line 1 min-above-max\n",
            ..refused
        },
        Case {
            power: b"a power 1\na power 2",
            text: b"refused power line 2 twice-row\n",
            ..refused
        },
        Case {
            power: b"\x00",
            text: b"refused power line 1 bad-byte\n",
            ..refused
        },
    ];
    expect_cases(&rt, rt.alloc(), &cases)?;
    Ok(())
}

// A net has its printed name, and in an instance the names that lead to it.
#[test]
fn power_refusals_and_instance_names(rt: HostRuntime) -> Result<(), Fail> {
    let twice = Case {
        netlist: b"*.GLOBAL vdd!\n.SUBCKT c a\nR1 a vdd! 1\n.ENDS\nXI0 n c\n",
        models: RESISTOR,
        power: b"vdd! power 1.2\nXI0/vdd! power 1.2\n",
        options: &[b"nets"],
        status: 6,
        text: b"refused power line 2 same-net-twice\n",
    };
    let cases = [
        twice,
        Case {
            power: b"XI0/a power 1.2\n",
            status: 0,
            text: b"CVC report\ntop - devices 1 nets 2 declared 1\nnet vdd! 1200 1200\nnet n declared 1200 1200\nerrors 0\n",
            ..twice
        },
    ];
    expect_cases(&rt, rt.alloc(), &cases)?;
    Ok(())
}

#[test]
fn binding_refusals(rt: HostRuntime) -> Result<(), Fail> {
    let refused = Case {
        netlist: b"M1 d g s b zz",
        models: HV,
        power: b"",
        options: &[],
        status: 6,
        text: b"refused netlist line 1 no-model\n",
    };
    let cases = [
        refused,
        Case {
            netlist: b"R1 a b nhv",
            text: b"refused netlist line 1 wrong-kind\n",
            ..refused
        },
        Case {
            netlist: b"R1 a b 1",
            power: b"c power 1",
            text: b"refused power line 1 unknown-net\n",
            ..refused
        },
        // A token that is no number is the model, and no parameter.
        Case {
            netlist: b".SUBCKT c a w=2\nR1 a b w\n.ENDS\nX1 n c\n",
            models: RESISTOR,
            text: b"refused netlist line 2 no-model\n",
            ..refused
        },
        // The letter decides which kinds serve.
        Case {
            netlist: b"M1 d g s b dp",
            text: b"refused netlist line 1 wrong-kind\n",
            ..refused
        },
        Case {
            netlist: b"L1 a b R",
            text: b"refused netlist line 1 wrong-kind\n",
            ..refused
        },
    ];
    expect_cases(&rt, rt.alloc(), &cases)?;
    Ok(())
}

// Devices in their order come before all power rows. A card is told by its first line, a power row by its own.
#[test]
fn binding_refusals_in_order(rt: HostRuntime) -> Result<(), Fail> {
    let refused = Case {
        netlist: b"R1 a b 1\nM1 d g s b zz",
        models: HV,
        power: b"c power 1",
        options: &[],
        status: 6,
        text: b"refused netlist line 2 no-model\n",
    };
    let cases = [
        refused,
        Case {
            netlist: b"R1 a b 1\nD1 a b nhv\nM1 d g s b zz",
            text: b"refused netlist line 2 wrong-kind\n",
            ..refused
        },
        Case {
            netlist: b"* c\nR1 a b\n+ 1\nR2 a b\n\n+ zz",
            text: b"refused netlist line 4 no-model\n",
            ..refused
        },
        Case {
            netlist: b"R1 a b 1",
            power: b"# c\na power 1\n\nb power 1\nc power 1",
            text: b"refused power line 5 unknown-net\n",
            ..refused
        },
    ];
    expect_cases(&rt, rt.alloc(), &cases)?;
    Ok(())
}

// A test of a model row that is reached and meets a word refuses, also where a later row would do.
#[test]
fn words_and_tests_in_order(rt: HostRuntime) -> Result<(), Fail> {
    let refused = Case {
        netlist: b"M1 d g s b n L=foo",
        models: b"n nmos Vth=0.4 L<1\nn nmos Vth=0.4",
        power: b"",
        options: &[],
        status: 6,
        text: b"refused netlist line 1 param-text\n",
    };
    let cases = [
        refused,
        Case {
            models: b"n nmos Vth=0.4\nn nmos Vth=0.4 L<1",
            status: 1,
            text: b"CVC report\ntop - devices 1 nets 4 declared 0\nfloating-gate M1 n net g\nerrors 1\n",
            ..refused
        },
        // The later of two parameters of one name counts.
        Case {
            netlist: b"M1 d g s b n L=1 l=foo",
            ..refused
        },
        // A test sees the parameters of the device alone.
        Case {
            netlist: b".PARAM L=1\nM1 d g s b n",
            models: b"n nmos Vth=0.4 L>=1",
            text: b"refused netlist line 2 no-model\n",
            ..refused
        },
        // The first device that is refused, whatever the cause.
        Case {
            netlist: b"M1 d g s b n L=foo\nR1 a b n",
            models: b"n nmos Vth=0.4 L<1",
            ..refused
        },
    ];
    expect_cases(&rt, rt.alloc(), &cases)?;
    Ok(())
}
