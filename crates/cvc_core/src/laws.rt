//! Laws of the machine. Each is the contract of a function that does nothing.
ghost use Rattle.std.specs.Prelude.{◌≡◌, ◌≢◌, ℕ, ◌+◌, ◌*◌, ◌<◌, ◌≤◌, List, length, slice_index, false};
ghost use Rattle.cvc_base.specs.declared.ids.DevId.{DevId};
ghost use Rattle.cvc_base.specs.declared.ids.Side.TheVariants.{Low, High};
ghost use Rattle.cvc_law.specs.Network.{Network, nets, devices, IsCircuit};
ghost use Rattle.cvc_law.specs.declared.interval.Interval.{Interval};
ghost use Rattle.cvc_law.specs.Family.{interval_at, IsFamily, IsWithin};
ghost use Rattle.cvc_law.specs.Least.{IsClosed, IsLeast};
ghost use Rattle.cvc_law.specs.Reach.{widest, declared_reach, is_declared_bound};
ghost use Rattle.cvc_law.specs.ReachLeast.{intervals, IsReachLeast, IsReachWithin};
ghost use Rattle.cvc_core.specs.declared.actor.Actor.{Actor};
ghost use Rattle.cvc_core.specs.declared.actor.Intent.{Intent};
ghost use Rattle.cvc_core.specs.declared.event.Event.{Event};
ghost use Rattle.cvc_core.specs.State.{Machine, Place, BoundWord, MarkWord, actor_at, put_actor, found, put, credits_of, held, IfRunning};
ghost use Rattle.cvc_core.specs.Measured.{Measured, IsSoundOn, bound_at};
ghost use Rattle.cvc_core.specs.Steps.{place_of, IsAllowed, step_by};
ghost use Rattle.cvc_core.specs.Events.{IsEnabled, after, AreEnabled, after_all};
ghost use Rattle.cvc_core.specs.Start.{start};
ghost use Rattle.cvc_core.specs.Sound.{Sound};
ghost use Rattle.cvc_core.specs.Moved.{IsMoved};
ghost use Rattle.cvc_core.specs.Laws.{KeepsSound};

/// An event of each kind whose guard holds keeps a sound state sound.
pub fn every_event_keeps_a_state_sound()
    ensures load { (k i : ℕ) → KeepsSound (Event.Load k i) }
    ensures lower { (k slot : ℕ) → KeepsSound (Event.Lower k slot) }
    ensures raise { (k slot : ℕ) → KeepsSound (Event.Raise k slot) }
    ensures add { (k : ℕ) → KeepsSound (Event.Add k) }
    ensures set_queued { (k : ℕ) → KeepsSound (Event.SetQueued k) }
    ensures take { (k : ℕ) (d : DevId) → KeepsSound (Event.Take k d) }
    ensures drop_running { (k : ℕ) → KeepsSound (Event.DropRunning k) }
    ensures subtract { (k : ℕ) → KeepsSound (Event.Subtract k) }
    ensures read_count { (k : ℕ) → KeepsSound (Event.ReadCount k) }
    ensures look { (k : ℕ) (d : DevId) → KeepsSound (Event.Look k d) }
    ensures split { (k l : ℕ) → KeepsSound (Event.Split k l) }
    ensures join { (k l : ℕ) → KeepsSound (Event.Join k l) }
{}

/// The same of the atomic steps of an actor that is at `a`, and of an actor that comes or goes.
pub fn every_step_keeps_a_state_sound()
    ensures step { (c : Network) (s : Machine) (k : ℕ) (i : Intent) (a : Actor) → Sound c s → k < length s.actors → actor_at s k ≡ a
        → IsAllowed c i a (found s (place_of c i a)) → Sound c (step_by c s k i a) }
    ensures comes { (c : Network) (s : Machine) (k : ℕ) → Sound c s → k < length s.actors → actor_at s k ≡ Actor.Absent
        → Sound c (put_actor s k (Actor.Idle 0)) }
    ensures goes { (c : Network) (s : Machine) (k : ℕ) → Sound c s → actor_at s k ≡ Actor.Idle 0 → Sound c (put_actor s k Actor.Absent) }
{}

/// The start is sound, and there each declared bound is as declared and every other one unknown.
pub fn the_start_is_sound()
    ensures sound { (c : Network) (n : ℕ) → IsCircuit c.fixed c.devices → n ≤ 64 → Sound c (start c n) }
    ensures declared { (c : Network) (n b : ℕ) → slice_index (start c n).bounds b ≡ declared_reach c b }
    ensures unknown { (c : Network) (n b : ℕ) → is_declared_bound c b ≡ false → slice_index (start c n).bounds b ≡ 0 }
{}

/// Every state that a list of events reaches from the start is sound.
pub fn every_reached_state_is_sound()
    ensures { (c : Network) (n : ℕ) (es : List Event) → IsCircuit c.fixed c.devices → n ≤ 64 → AreEnabled c (start c n) es
        → Sound c (after_all c (start c n) es) }
{}

/// Where the count is 0 the bounds are the least family, and no step and no event changes a bound, a mark or the count from there.
pub fn a_quiet_state_is_the_least_family()
    ensures reaches { (c : Network) (s : Machine) → Sound c s → s.count ≡ 0 → IsReachLeast c s.bounds }
    ensures intervals { (c : Network) (s : Machine) → Sound c s → s.count ≡ 0 → IsLeast c (intervals c s.bounds) }
    ensures steps_stay { (c : Network) (s : Machine) (k : ℕ) (i : Intent) (a : Actor) → Sound c s → s.count ≡ 0 → actor_at s k ≡ a
        → IsAllowed c i a (found s (place_of c i a))
        → ((step_by c s k i a).bounds ≡ s.bounds) × ((step_by c s k i a).marks ≡ s.marks) × ((step_by c s k i a).count ≡ 0) }
    ensures stays { (c : Network) (s : Machine) (e : Event) → Sound c s → s.count ≡ 0 → IsEnabled c s e
        → ((after c s e).bounds ≡ s.bounds) × ((after c s e).marks ≡ s.marks) × ((after c s e).count ≡ 0) }
{}

/// The intervals of a sound state are a family of the circuit, within every closed family and so within the least one.
pub fn a_sound_state_is_within_the_least_family()
    ensures family { (c : Network) (s : Machine) → Sound c s → IsFamily c (intervals c s.bounds) }
    ensures closed { (c : Network) (s : Machine) (f : List Interval) → Sound c s → IsFamily c f → IsClosed c f → IsWithin (intervals c s.bounds) f }
    ensures least { (c : Network) (s : Machine) (f : List Interval) → Sound c s → IsLeast c f → IsWithin (intervals c s.bounds) f }
{}

/// In a sound state no bound, and no read that a run has loaded, reaches further than the widest.
pub fn no_reach_is_beyond_the_widest()
    ensures bounds { (c : Network) (s : Machine) (b : ℕ) → Sound c s → slice_index s.bounds b ≤ widest c }
    ensures loaded { (c : Network) (s : Machine) (k : ℕ) → Sound c s → IfRunning (actor_at s k) (λ r. (i : ℕ) → held r i ≤ widest c) }
{}

/// The bounds that `State::bound` answers of a net are those of the intervals that the other laws speak of.
pub fn the_bounds_of_a_state_are_its_intervals()
    ensures { (c : Network) (s : Measured) (n : ℕ) → IsSoundOn c s → interval_at (intervals c s.machine.bounds) n
        ≡ record { low = bound_at s n Low; high = bound_at s n High } }
{}

/// The count is at least each actor's credits, and at most the number of devices and twice that of the actors.
pub fn the_count_is_bounded()
    ensures credits { (c : Network) (s : Machine) (k : ℕ) → Sound c s → k < length s.actors → credits_of (actor_at s k) ≤ s.count }
    ensures most { (c : Network) (s : Machine) → Sound c s → s.count ≤ devices c + 2 * length s.actors }
{}

/// A step leaves a bound, or it is the widening that gave it what it then is. No bound narrows.
pub fn bounds_only_widen()
    ensures moved { (c : Network) (s : Machine) (k : ℕ) (i : Intent) (a : Actor) (b : ℕ) → IsMoved c s a i b (step_by c s k i a).bounds }
    ensures wider { (c : Network) (s : Machine) (k : ℕ) (i : Intent) (a : Actor) → IsReachWithin s.bounds (step_by c s k i a).bounds }
{}

/// A step changes one word and no other.
pub fn a_step_changes_one_word()
    ensures same { (s : Machine) (q : Place) (x k : ℕ) (a : Actor) → ((b : ℕ) → q ≡ BoundWord b → b < length s.bounds)
        → ((d : ℕ) → q ≡ MarkWord d → d < length s.marks) → found (put_actor (put s q x) k a) q ≡ x }
    ensures other { (s : Machine) (q p : Place) (x k : ℕ) (a : Actor) → p ≢ q → found (put_actor (put s q x) k a) p ≡ found s p }
    ensures actor { (s : Machine) (k : ℕ) (a : Actor) (p : Place) → found (put_actor s k a) p ≡ found s p }
{}
