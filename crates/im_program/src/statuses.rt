//! The status that the program ends with.
ghost use Rattle.std.specs.Prelude.{◌≡◌, ◌≤◌, true, false, ◌≢◌, ◌⊎◌, Some};
ghost use Rattle.{im_types.specs.Types.Refusal, im_damage.specs.declared.Damage.Damage};
ghost use Rattle.im_text.specs.Statuses.{status_of_image};

use im_text::{PathFault, Reason};

/// Returns the status that the program ends with. It is the status of its work, with one exception: if `statuses` is
/// set, the status is 1 and there is a reason, it is that of the last reason ([`Reason::status`]).
pub fn status_for(status: u8, statuses: bool, reason: Option<Reason>) -> u8
    ensures same { (statuses ≡ false) ⊎ (status ≢ 1) → result ≡ status }
    ensures few { status ≤ 6 → result ≤ 6 }
    ensures range { status ≡ 1 → (result ≡ 1) ⊎ (result ≡ 4) ⊎ (result ≡ 5) }
    ensures in_use { statuses ≡ true → status ≡ 1 → reason ≡ Some (Reason.File PathFault.InUse) → result ≡ 4 }
    ensures image { (refusal : Refusal) (damage : Damage) → statuses ≡ true → status ≡ 1
        → reason ≡ Some (Reason.Image refusal damage) → result ≡ status_of_image refusal }
{
    match reason {
        Some(reason) => {
            if statuses && status == 1 {
                reason.status()
            } else {
                status
            }
        }
        None => status,
    }
}
