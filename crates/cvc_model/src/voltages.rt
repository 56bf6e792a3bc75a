//! The voltages that a row gives under its keys.
ghost use Rattle.std.specs.Prelude.{pos, ◌≤ℤ◌};
ghost use Rattle.std.specs.Option.{ForSome};

use crate::key::Key;
use cvc_base::Mv;

/// The voltages that the items of a row give so far, two for a threshold. None but a threshold is negative.
#[derive(Clone, Copy)]
pub(crate) struct Voltages {
    pub(crate) vth: Option<(Mv, Mv)>,
    pub(crate) vj: Option<Mv>,
    pub(crate) vgs: Option<Mv>,
    pub(crate) vgd: Option<Mv>,
    pub(crate) vds: Option<Mv>,
    pub(crate) vbs: Option<Mv>,
    pub(crate) vbd: Option<Mv>,
    pub(crate) vbg: Option<Mv>,
    pub(crate) vf: Option<Mv>,
    ghost junction: { ForSome vj (λ v. pos 0 ≤ℤ v) },
    ghost drop: { ForSome vf (λ v. pos 0 ≤ℤ v) },
}

impl Voltages {
    ghost use Rattle.std.specs.Prelude.{◌≡◌, ◌≢◌, ◌∷◌, [], ℤ, List, find, is_some};
    ghost use Rattle.cvc_model.specs.Settings.{Setting, has_key};
    ghost use Rattle.cvc_model.specs.Drafting.{AreVoltages, MayHave, setting_of, word_of_key};

    pub(crate) fn none() -> Voltages
        ensures { AreVoltages result [] }
    {
        Voltages {
            vth: None,
            vj: None,
            vgs: None,
            vgd: None,
            vds: None,
            vbs: None,
            vbd: None,
            vbg: None,
            vf: None,
        }
    }

    // Whether an earlier item gave this key.
    pub(crate) fn has(&self, key: Key) -> bool
        ensures { (settings : List Setting) → AreVoltages self.now settings → result ≡ is_some (find (has_key (word_of_key key)) settings) }
    {
        match key {
            Key::Vth => self.vth.is_some(),
            Key::Vj => self.vj.is_some(),
            Key::Vgs => self.vgs.is_some(),
            Key::Vgd => self.vgd.is_some(),
            Key::Vds => self.vds.is_some(),
            Key::Vbs => self.vbs.is_some(),
            Key::Vbd => self.vbd.is_some(),
            Key::Vbg => self.vbg.is_some(),
            Key::Vf => self.vf.is_some(),
        }
    }

    // The voltages of this key: a threshold keeps both, each other key the first.
    pub(crate) fn set(&mut self, key: Key, voltages: (Mv, Mv))
        requires { MayHave key voltages }
        ensures { (settings : List Setting) → AreVoltages self.old settings → AreVoltages self.new (setting_of key voltages ∷ settings) }
    {
        match key {
            Key::Vth => self.vth = Some(voltages),
            Key::Vj => self.vj = Some(voltages.0),
            Key::Vgs => self.vgs = Some(voltages.0),
            Key::Vgd => self.vgd = Some(voltages.0),
            Key::Vds => self.vds = Some(voltages.0),
            Key::Vbs => self.vbs = Some(voltages.0),
            Key::Vbd => self.vbd = Some(voltages.0),
            Key::Vbg => self.vbg = Some(voltages.0),
            Key::Vf => self.vf = Some(voltages.0),
        }
    }
}
