//! Whole reports, byte for byte.

use crate::runs::{Case, HV, RESISTOR, ROOM, expect_cases, expect_words, shelf_of, texts_of};
use std::test::Fail;

const NETS: &[&[u8]] = &[b"nets"];

#[test]
fn three_empty_files(rt: HostRuntime) -> Result<(), Fail> {
    let case = Case {
        netlist: b"",
        models: b"",
        power: b"",
        options: &[],
        status: 0,
        text: b"CVC report\ntop - devices 0 nets 0 declared 0\nerrors 0\n",
    };
    expect_cases(&rt, rt.alloc(), &[case])?;
    Ok(())
}

#[test]
fn resistors_and_supplies(rt: HostRuntime) -> Result<(), Fail> {
    let cases = [
        // A resistor hands a supply on.
        Case {
            netlist: b"R1 VDD n1 100\n",
            models: RESISTOR,
            power: b"VDD power 1.2\n",
            options: NETS,
            status: 0,
            text: b"CVC report\ntop - devices 1 nets 2 declared 1\nnet VDD declared 1200 1200\nnet n1 1200 1200\nerrors 0\n",
        },
        // A resistor between supplies.
        Case {
            netlist: b"R1 VDD VSS 100\n",
            models: RESISTOR,
            power: b"VDD power 1.2\nVSS power 0\n",
            options: &[],
            status: 1,
            text: b"CVC report\ntop - devices 1 nets 2 declared 2\nsupply-path R1 R ends 1200 1200 0 0\nerrors 1\n",
        },
        // An inductor hands a supply on too.
        Case {
            netlist: b"L1 a b ind\n",
            models: b"ind inductor\n",
            power: b"a power 1\n",
            options: NETS,
            status: 0,
            text: b"CVC report\ntop - devices 1 nets 2 declared 1\nnet a declared 1000 1000\nnet b 1000 1000\nerrors 0\n",
        },
    ];
    expect_cases(&rt, rt.alloc(), &cases)?;
    Ok(())
}

pub(super) const INVERTERS: Case = Case {
    netlist: b"****************\n* two inverters\n*.BIPOLAR\n*.RESI = 2000\n*.SCALE METER\n*.MEGA\n.PARAM\n\n\
        *.GLOBAL vdd!\n+        vss!\n*.PIN vdd!\n*+    vss!\n\
        .SUBCKT inv A Y\n*.PININFO A:I Y:O\nMM0 Y A vss! vss! nch W=1u L=60n m=1\nMM1 Y A vdd! vdd! pch W=2u L=60n m=1\n.ENDS\n\
        .SUBCKT top IN OUT\n*.PININFO IN:I OUT:O\nXI0 IN net1 / inv\nXI1 net1 OUT / inv\n.ENDS\n",
    models: b"nch nmos Vth=0.4 Vgs=1.32 Vgd=1.32 Vds=1.32\npch pmos Vth=-0.4 Vgs=1.32 Vgd=1.32 Vds=1.32\n",
    power: b"vdd! power 1.2\nvss! power 0\nIN input 0 1.2\n",
    options: NETS,
    status: 0,
    text: b"CVC report\ntop top devices 4 nets 5 declared 3\n\
        net vdd! declared 1200 1200\nnet vss! declared 0 0\nnet IN declared 0 1200\nnet OUT 0 1200\nnet net1 0 1200\nerrors 0\n",
};

#[test]
fn two_inverters_in_cdl_style(rt: HostRuntime) -> Result<(), Fail> {
    expect_cases(&rt, rt.alloc(), &[INVERTERS])?;
    Ok(())
}

// A pass gate's card, and its report where the gate is at 3.3 volts.
const PASS_GATE: Case = Case {
    netlist: b"M1 out en src vss nhv\n",
    models: HV,
    power: b"src power 3.3\nen power 3.3\nvss power 0\n",
    options: NETS,
    status: 0,
    text: b"CVC report\ntop - devices 1 nets 4 declared 3\n\
        net out ? 2600\nnet en declared 3300 3300\nnet src declared 3300 3300\nnet vss declared 0 0\nerrors 0\n",
};

#[test]
fn nmos_passes_high_less_threshold(rt: HostRuntime) -> Result<(), Fail> {
    let cases = [
        PASS_GATE,
        // The gate at 0 volts turns it off.
        Case {
            power: b"src power 3.3\nen power 0\nvss power 0\n",
            text: b"CVC report\ntop - devices 1 nets 4 declared 3\n\
                net out ? ?\nnet en declared 0 0\nnet src declared 3300 3300\nnet vss declared 0 0\nerrors 0\n",
            ..PASS_GATE
        },
        // Of two corners the lesser threshold conducts most, in whichever order they are written.
        Case {
            models: b"nhv nmos Vth=0.8:0.6\n",
            text: b"CVC report\ntop - devices 1 nets 4 declared 3\n\
                net out ? 2700\nnet en declared 3300 3300\nnet src declared 3300 3300\nnet vss declared 0 0\nerrors 0\n",
            ..PASS_GATE
        },
        Case {
            models: b"nhv nmos Vth=0.6:0.8\n",
            text: b"CVC report\ntop - devices 1 nets 4 declared 3\n\
                net out ? 2700\nnet en declared 3300 3300\nnet src declared 3300 3300\nnet vss declared 0 0\nerrors 0\n",
            ..PASS_GATE
        },
    ];
    expect_cases(&rt, rt.alloc(), &cases)?;
    Ok(())
}

// The card over several lines, with a comment, an empty line and a tail.
#[test]
fn continuation_comments_and_line_ends(rt: HostRuntime) -> Result<(), Fail> {
    let cases = [
        Case {
            netlist: b"M1 out en\n* note\n\n+ src vss nhv $ tail\n",
            ..PASS_GATE
        },
        Case {
            netlist: b"M1 out en\n* note\n\n+ src vss nhv $ tail",
            ..PASS_GATE
        },
        Case {
            netlist: b"M1 out en\r\n* note\r\n\r\n+ src vss nhv $ tail\r\n",
            ..PASS_GATE
        },
        Case {
            netlist: b"M1 out en\r\n* note\r\n\r\n+ src vss nhv $ tail",
            ..PASS_GATE
        },
    ];
    expect_cases(&rt, rt.alloc(), &cases)?;
    Ok(())
}

#[test]
fn gate_overvoltage(rt: HostRuntime) -> Result<(), Fail> {
    let over = Case {
        netlist: b"M1 d g s s nlv\n",
        models: HV,
        power: b"g power 3.3\ns power 0\nd power 1.2\n",
        options: &[],
        status: 1,
        text: b"CVC report\ntop - devices 1 nets 3 declared 3\novervoltage-gs M1 nlv limit 1320 found 3300\nerrors 1\n",
    };
    let at_limit = Case {
        power: b"g power 1.32\ns power 0\nd power 1.2\n",
        status: 0,
        text: b"CVC report\ntop - devices 1 nets 3 declared 3\nerrors 0\n",
        ..over
    };
    expect_cases(&rt, rt.alloc(), &[over, at_limit])?;
    Ok(())
}

#[test]
fn level_shift_leak(rt: HostRuntime) -> Result<(), Fail> {
    let leak = Case {
        netlist: b"M1 y a vdd3 vdd3 phv\nM2 y a vss vss nhv\n",
        models: HV,
        power: b"a input 0 1.2\nvdd3 power 3.3\nvss power 0\n",
        options: &[],
        status: 1,
        text: b"CVC report\ntop - devices 2 nets 4 declared 3\npossible-leak M1 phv gate 0 1200 channel 0 3300\nerrors 1\n",
    };
    let cases = [
        leak,
        Case {
            power: b"a power 1.2\nvdd3 power 3.3\nvss power 0\n",
            status: 0,
            text: b"CVC report\ntop - devices 2 nets 4 declared 3\nerrors 0\n",
            ..leak
        },
        // At the corner that conducts least it may be off.
        Case {
            models: b"nhv nmos Vth=0.7\nphv pmos Vth=-0.5:-2.5\n",
            ..leak
        },
        // At both corners it conducts.
        Case {
            models: b"nhv nmos Vth=0.7\nphv pmos Vth=-0.5:-1.5\n",
            text: b"CVC report\ntop - devices 2 nets 4 declared 3\n\
                possible-leak M1 phv gate 0 1200 channel 0 3300\nsure-leak M1 phv gate 0 1200 channel 0 3300\nerrors 2\n",
            ..leak
        },
    ];
    expect_cases(&rt, rt.alloc(), &cases)?;
    Ok(())
}

#[test]
fn floating_gate(rt: HostRuntime) -> Result<(), Fail> {
    let cases = [
        Case {
            netlist: b"M1 y g vss vss nhv\n",
            models: HV,
            power: b"vss power 0\n",
            options: &[],
            status: 1,
            text: b"CVC report\ntop - devices 1 nets 3 declared 1\nfloating-gate M1 nhv net g\nerrors 1\n",
        },
        // A pass gate gives the gate a high.
        Case {
            netlist: b"M1 y g vss vss nhv\nM2 g en src vss nhv\n",
            models: HV,
            power: b"vss power 0\nsrc power 3.3\nen power 3.3\n",
            options: NETS,
            status: 0,
            text: b"CVC report\ntop - devices 2 nets 5 declared 3\n\
                net y 0 0\nnet g ? 2600\nnet vss declared 0 0\nnet en declared 3300 3300\nnet src declared 3300 3300\nerrors 0\n",
        },
    ];
    expect_cases(&rt, rt.alloc(), &cases)?;
    Ok(())
}

#[test]
fn diodes_to_both_rails(rt: HostRuntime) -> Result<(), Fail> {
    let case = Case {
        netlist: b"D1 vss pad dp\nD2 pad vdd dp\n",
        models: HV,
        power: b"vss power 0\nvdd power 3.3\n",
        options: NETS,
        status: 0,
        text: b"CVC report\ntop - devices 2 nets 3 declared 2\nnet vss declared 0 0\nnet pad ? ?\nnet vdd declared 3300 3300\nerrors 0\n",
    };
    expect_cases(&rt, rt.alloc(), &[case])?;
    Ok(())
}

pub(super) const RING: Case = Case {
    netlist: b"M1 a b c vss nhv\nM2 b c a vss nhv\nM3 c a b vss nhv\nR1 src a 100\nR2 src b 100\n",
    models: HV,
    power: b"src input 0 3.3\nvss power 0\n",
    options: NETS,
    status: 0,
    text: b"CVC report\ntop - devices 5 nets 5 declared 2\nnet a 0 3300\nnet b 0 3300\nnet c 0 2600\nnet vss declared 0 0\nnet src declared 0 3300\nerrors 0\n",
};

// The bytes are the same for every number of workers, and on one thread.
#[test]
fn ring_of_pass_gates(rt: HostRuntime) -> Result<(), Fail> {
    let alloc = rt.alloc();
    let workers: [&[u8]; 4] = [b"workers=1", b"workers=2", b"workers=8", b"workers=64"];
    for option in workers {
        let words = texts_of(alloc, &[b"check", b"n", b"m", b"p", option, b"nets"])?;
        let mut shelf = shelf_of(alloc, &RING)?;
        expect_words(&rt, alloc, &words, &mut shelf, ROOM, 0, RING.text)?;
    }
    expect_cases(&rt, alloc, &[RING])?;
    Ok(())
}

#[test]
fn gate_tied_to_drain(rt: HostRuntime) -> Result<(), Fail> {
    let case = Case {
        netlist: b"M1 n n o vss nhv\nR1 in n 1k\n",
        models: HV,
        power: b"in input 0 3.3\nvss power 0\n",
        options: NETS,
        status: 0,
        text: b"CVC report\ntop - devices 2 nets 4 declared 2\nnet n 0 3300\nnet o 0 2600\nnet vss declared 0 0\nnet in declared 0 3300\nerrors 0\n",
    };
    expect_cases(&rt, rt.alloc(), &[case])?;
    Ok(())
}

#[test]
fn forward_bias_and_source_bulk(rt: HostRuntime) -> Result<(), Fail> {
    let diode = Case {
        netlist: b"D1 a k dp\n",
        models: HV,
        power: b"a power 0.6\nk power 0\n",
        options: &[],
        status: 0,
        text: b"CVC report\ntop - devices 1 nets 2 declared 2\nerrors 0\n",
    };
    let bulk = Case {
        netlist: b"M1 d g s b nhv\n",
        models: HV,
        power: b"d power 0\ng power 0\ns power 0.1\nb power 0.1\n",
        options: &[],
        status: 1,
        text: b"CVC report\ntop - devices 1 nets 4 declared 4\nsource-bulk M1 nhv limit 0 found 100\nerrors 1\n",
    };
    let cases = [
        diode,
        Case {
            power: b"a power 0.601\nk power 0\n",
            status: 1,
            text: b"CVC report\ntop - devices 1 nets 2 declared 2\nforward-bias D1 dp limit 600 found 601\nerrors 1\n",
            ..diode
        },
        bulk,
        Case {
            power: b"d power 0.1\ng power 0\ns power 0.1\nb power 0.1\n",
            status: 0,
            text: b"CVC report\ntop - devices 1 nets 4 declared 4\nerrors 0\n",
            ..bulk
        },
    ];
    expect_cases(&rt, rt.alloc(), &cases)?;
    Ok(())
}

// A cell by the names of its ports, and models by a length that the instance's device has.
#[test]
fn pass_gate_by_name_with_length_tests(rt: HostRuntime) -> Result<(), Fail> {
    let pass = Case {
        netlist: b".SUBCKT pass A Y S B\nMN Y A S S nch L=0.2u\n.ENDS\nXI0 / pass $PINS A=en S=sig Y=out\n",
        models: b"nch nmos L<0.2u Vth=0.3\nnch nmos L>=0.2u Vth=0.4\n",
        power: b"en input 0 1.2\nsig power 1.2\n",
        options: NETS,
        status: 0,
        text: b"CVC report\ntop - devices 1 nets 3 declared 2\nnet out ? 800\nnet en declared 0 1200\nnet sig declared 1200 1200\nerrors 0\n",
    };
    let cases = [
        pass,
        Case {
            netlist: b".SUBCKT pass A Y S B\nMN Y A S S nch L=0.19u\n.ENDS\nXI0 / pass $PINS A=en S=sig Y=out\n",
            text: b"CVC report\ntop - devices 1 nets 3 declared 2\nnet out ? 900\nnet en declared 0 1200\nnet sig declared 1200 1200\nerrors 0\n",
            ..pass
        },
        Case {
            netlist: b".SUBCKT pass A Y S B\nMN Y A S S nch L=foo\n.ENDS\nXI0 / pass $PINS A=en S=sig Y=out\n",
            status: 6,
            text: b"refused netlist line 2 param-text\n",
            ..pass
        },
        Case {
            netlist: b".SUBCKT pass A Y S B\nMN Y A S S nch L=0.2u\n.ENDS\nXI0 en out / pass\n",
            status: 3,
            text: b"refused netlist line 4 port-count\n",
            ..pass
        },
        Case {
            netlist: b".SUBCKT pass A Y S B\nMN Y A S S nch L=0.2u\n.ENDS\nXI0 / pass $PINS Q=en\n",
            status: 3,
            text: b"refused netlist line 4 unknown-port\n",
            ..pass
        },
    ];
    expect_cases(&rt, rt.alloc(), &cases)?;
    Ok(())
}

// What a card may say for its model and its parameters.
#[test]
fn parameters_and_models(rt: HostRuntime) -> Result<(), Fail> {
    let looped = Case {
        netlist: b".PARAM x=y y=x\nR1 a b 1 w=x\n",
        models: RESISTOR,
        power: b"",
        options: &[],
        status: 3,
        text: b"refused netlist line 2 param-loop\n",
    };
    let cases = [
        looped,
        Case {
            netlist: b".PARAM x=y\nR1 a b 1 w=x\n",
            status: 0,
            text: b"CVC report\ntop - devices 1 nets 2 declared 0\nerrors 0\n",
            ..looped
        },
        // A model is no parameter.
        Case {
            netlist: b".SUBCKT c a w=2\nR1 a b w\n.ENDS\nX1 n c\n",
            models: b"w resistor\n",
            options: NETS,
            status: 0,
            text: b"CVC report\ntop - devices 1 nets 2 declared 0\nnet n ? ?\nnet X1/b ? ?\nerrors 0\n",
            ..looped
        },
    ];
    expect_cases(&rt, rt.alloc(), &cases)?;
    Ok(())
}
