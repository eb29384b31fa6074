// A change under way.
ghost use Rattle.std.specs.Prelude.{◌≡◌, ◌≤◌, length};

use model::order::Order;

// Its order, the weights that it brings by tag, how many steps it has, and how many of them are left. The length is a fact of its own, as in a
// register.
#[derive(Clone, Copy)]
pub struct Change {
    pub(crate) order: Order,
    pub(crate) weights: [Option<u32>; 64],
    pub(crate) steps: u32,
    pub(crate) left: u32,
    ghost long: { length weights ≡ 64 },
    ghost few: { left ≤ steps },
}
