//! Kinds of devices and the voltages of their models.

use crate::Mv;

/// What a device is, by the kind of its model row.
#[derive(Clone, Copy, Debug, PartialEq, Eq)]
pub enum Kind {
    Nmos,
    Pmos,
    Resistor,
    Diode,
    Capacitor,
    Inductor,
    Bipolar,
}

/// The voltages of a device's model.
#[derive(Clone, Copy, Debug, PartialEq, Eq)]
pub struct Volts {
    /// The threshold at the corner that conducts most: for an nmos the lesser of the two that its row gives, for a pmos the lesser of
    /// their magnitudes, 0 for every other kind. Conduction and all rules but the last go by it.
    pub threshold: Mv,
    /// The threshold at the corner that conducts least: the greater of the two. It equals `threshold` where the row gives one voltage.
    pub weak: Mv,
    /// What a conducting diode drops, 0 for every other kind.
    pub drop: Mv,
    /// The bias that a junction of a MOS bears, 0 for every other kind.
    pub junction: Mv,
    /// The greatest voltage between gate and source.
    pub vgs: Option<Mv>,
    /// The greatest voltage between gate and drain.
    pub vgd: Option<Mv>,
    /// The greatest voltage between drain and source.
    pub vds: Option<Mv>,
    /// The greatest voltage between bulk and source.
    pub vbs: Option<Mv>,
    /// The greatest voltage between bulk and drain.
    pub vbd: Option<Mv>,
    /// The greatest voltage between bulk and gate.
    pub vbg: Option<Mv>,
}
