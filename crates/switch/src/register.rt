// The register of a switch: what stands, and what is under way.
ghost use Rattle.std.specs.Prelude.{◌≡◌, ◌^◌, ◌≤◌, true, false, length};
ghost use Rattle.plan.specs.Plans.{services, beyond};
ghost use Rattle.switch.specs.Changes.{change_fits};

use crate::change::Change;
use crate::tables::Tables;
use rules::width::Width;

// The width, the capacity of the rule memory, and by tag each service's target and standing weight. Only the calls of a switch alter it, so its
// numbers always fit one another. The targets and the weights stay two arrays, since the planner takes targets alone and gives weights alone. Their
// lengths are facts of their own, since a proof that reads a field does not get what the field's type says of it.
#[derive(Drop)]
pub struct Register {
    pub(crate) width: Width,
    pub(crate) capacity: u32,
    pub(crate) targets: [Option<u32>; 64],
    pub(crate) weights: [Option<u32>; 64],
    pub(crate) change: Option<Change>,
    ghost targets_long: { length targets ≡ 64 },
    ghost weights_long: { length weights ≡ 64 },
    ghost targets_fit: { beyond (2 ^ width.bits) targets ≡ false },
    ghost weights_fit: { beyond (2 ^ width.bits) weights ≡ false },
    ghost room: { services targets ≤ capacity },
    ghost change_fits: { change_fits width.bits capacity targets change ≡ true },
}

impl Register {
    // The tables that stand.
    pub(crate) fn standing(&self) -> Tables<'_>
        ensures width { result.width ≡ self.now.width }
        ensures weights { result.weights.now ≡ self.now.weights }
    {
        Tables::new(self.width, &self.weights)
    }
}
