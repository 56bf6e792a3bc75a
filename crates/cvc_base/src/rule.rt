//! The rules of the report.

/// A rule that makes error lines, in the order of the report.
#[derive(Clone, Copy, Debug, PartialEq, Eq)]
pub enum Rule {
    /// The gate and the source of a MOS can be further apart than its model allows.
    OvervoltageGs,
    /// The same of gate and drain.
    OvervoltageGd,
    /// The same of drain and source.
    OvervoltageDs,
    /// The same of bulk and source.
    OvervoltageBs,
    /// The same of bulk and drain.
    OvervoltageBd,
    /// The same of bulk and gate.
    OvervoltageBg,
    /// A diode can be biased forward by more than its drop.
    ForwardBias,
    /// The junction between the bulk and the source or drain of a MOS can be biased forward.
    SourceBulk,
    /// A gate that doesn't reach far enough may leave its MOS leaking.
    PossibleLeak,
    /// A resistor or an inductor stands between two supplies that differ.
    SupplyPath,
    /// Nothing drives the gate of a MOS.
    FloatingGate,
    /// A MOS leaks even at the corner that conducts least.
    SureLeak,
}
