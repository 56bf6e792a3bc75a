//! What the words ask for.

use cvc_base::Text;

/// A check: the names of its three files, the cell that is its top (none: by default), how many workers settle it, from 1 to 64, and whether the
/// report lists the nets.
#[derive(Debug, Drop)]
pub struct Job {
    pub netlist: Text,
    pub models: Text,
    pub power: Text,
    pub top: Option<Text>,
    pub workers: u32,
    pub nets: bool,
}

/// What the program is to do.
#[derive(Debug, Drop)]
pub enum Command {
    /// Check the files of the job with its workers.
    Check(Job),
    /// Check them on one thread; the number of workers means nothing.
    Serial(Job),
    /// Check the netlist that is generated from the seed, with `size` stages, from 1 to 200,000.
    Gen {
        seed: u64,
        size: u32,
        workers: u32,
    },
    /// Compare the least family of the files with the bounds that are expected.
    Expect {
        netlist: Text,
        models: Text,
        power: Text,
        expected: Text,
        top: Option<Text>,
    },
    /// Write the derivation log of the files.
    Prove {
        netlist: Text,
        models: Text,
        power: Text,
        top: Option<Text>,
    },
    /// Say whether the log justifies the report, which lists the nets where `nets` is given.
    Verify {
        netlist: Text,
        models: Text,
        power: Text,
        log: Text,
        report: Text,
        top: Option<Text>,
        nets: bool,
    },
    /// Check the design under each power file of the list.
    Modes {
        netlist: Text,
        models: Text,
        list: Text,
        top: Option<Text>,
    },
    /// Do the edits of the supplies in order, and check the design after them.
    Session {
        netlist: Text,
        models: Text,
        power: Text,
        edits: Text,
        top: Option<Text>,
        nets: bool,
    },
}
