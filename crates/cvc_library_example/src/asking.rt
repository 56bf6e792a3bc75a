//! What a net of a design may reach.
ghost use Rattle.std.specs.Prelude.{◌≡◌, All, IfOk, length, map, option_map};
ghost use Rattle.cvc_base.specs.Answers.{Gives};
ghost use Rattle.cvc_bind.specs.Bound.{circuit_of};
ghost use Rattle.cvc_flat.specs.FindNet.{find_net};
ghost use Rattle.cvc_judge.specs.Judged.{IsJudged};
ghost use Rattle.cvc_law.specs.Bound.{IsBound};
ghost use Rattle.cvc_law.specs.Family.{interval_at};
ghost use Rattle.cvc_model.specs.Bindable.{AreBindable};
ghost use Rattle.cvc_power.specs.Power.{IsOrdered};

use cvc_base::Refusal;
use cvc_bind::bind;
use cvc_flat::Flat;
use cvc_judge::{Judged, judge_serial};
use cvc_law::Interval;
use cvc_model::Models;
use cvc_power::Power;
use std::alloc::Global;

/// What a net may reach, and all that was judged on the way.
#[derive(Drop)]
pub struct Answer {
    pub judged: Judged,
    /// The lowest and the highest voltage of the net; `None` where its name finds none.
    pub bounds: Option<Interval>,
}

/// Binds a design to its supplies, judges it, and looks up a net by its name. It refuses with the first fault of binding. It always returns.
#[tactic(auto, using(crate::proofs::Found::has_bounds))]
pub fn ask(
    alloc: Global,
    flat: &Flat,
    models: &Models,
    power: &Power,
    net: &[u8],
) -> Result<Answer, Refusal>
    requires models { AreBindable models.now }
    requires power { All IsOrdered power.now }
    ensures circuit { Gives (λ a. a.judged.circuit) result (circuit_of flat.now.list models.now power.now) }
    ensures bound { IfOk result (λ a. IsBound (length flat.now.list.nets) (map (λ d. d.pins) flat.now.list.devices) a.judged.circuit) }
    ensures judged { IfOk result (λ a. IsJudged a.judged) }
    ensures bounds { IfOk result (λ a. a.bounds ≡ option_map (interval_at a.judged.family) (find_net flat.now.list net.now)) }
{
    let circuit = bind(alloc, flat, models, power)?;
    let judged = judge_serial(alloc, circuit)?;
    let bounds = match flat.find_net(net) {
        Some(n) => Some(judged.family.interval(n)),
        None => None,
    };
    Ok(Answer { judged, bounds })
}
