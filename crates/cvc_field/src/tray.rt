//! The tray: which devices a call newly queued.
ghost use Rattle.std.specs.Prelude.{◌≡◌, ◌++◌, ◌≤◌, [], ◌∷◌, length, take, if◌then◌else◌};

use arrayvec::ArrayVec;
use cvc_base::DevId;

/// The devices that the steps of one call turned from not Queued to Queued, in the order of the steps, as far as there is room.
pub type Tray = ArrayVec<DevId, 32>;

/// Notes a device, unless it was queued before or the tray is full.
pub(crate) fn note(tray: &mut Tray, d: DevId, was_queued: bool)
    ensures { tray.new.items ≡ take 32 (tray.old.items ++ (if was_queued then [] else d ∷ [])) }
{
    let full = tray.is_full();
    if was_queued {
        return;
    }
    if full {
        return;
    }
    tray.push(d);
}
