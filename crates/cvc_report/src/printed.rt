//! How files and rules are printed.
ghost use Rattle.std.specs.Prelude.{◌≡◌};
ghost use Rattle.cvc_report.specs.Printed.{file_word, rule_word};

use cvc_base::{FileKind, Rule};

/// The word for an input file.
pub(crate) fn word_for_file(file: FileKind) -> &'static [u8]
    ensures { result.now ≡ file_word file }
{
    match file {
        FileKind::Netlist => b"netlist",
        FileKind::Models => b"models",
        FileKind::Power => b"power",
    }
}

/// The word for a rule.
pub(crate) fn word_for_rule(rule: Rule) -> &'static [u8]
    ensures { result.now ≡ rule_word rule }
{
    match rule {
        Rule::OvervoltageGs => b"overvoltage-gs",
        Rule::OvervoltageGd => b"overvoltage-gd",
        Rule::OvervoltageDs => b"overvoltage-ds",
        Rule::OvervoltageBs => b"overvoltage-bs",
        Rule::OvervoltageBd => b"overvoltage-bd",
        Rule::OvervoltageBg => b"overvoltage-bg",
        Rule::ForwardBias => b"forward-bias",
        Rule::SourceBulk => b"source-bulk",
        Rule::PossibleLeak => b"possible-leak",
        Rule::SupplyPath => b"supply-path",
        Rule::FloatingGate => b"floating-gate",
        Rule::SureLeak => b"sure-leak",
    }
}
