// The state from which a table's rules come one after the other.
ghost use Rattle.std.specs.Prelude.{◌≤◌};

use crate::rule::Rule;
use crate::server::Server;
use crate::weight::Weight;

// The opening rule, for all addresses to server `first`, comes first. Then the digits of `part` are worked, those below `place` being still to come:
// `part` is server 1's part where all addresses go to server 2 at first, and server 2's where they go to server 1.
#[derive(Clone, Copy)]
pub struct Table {
    pub(crate) opening: Option<Rule>,
    pub(crate) first: Server,
    pub(crate) part: Weight,
    pub(crate) place: u32,
    ghost low: { place ≤ part.width.bits },
}
