// The nearest weight to a target that a number of rules can give.
ghost use Rattle.std.specs.Prelude.{◌≡◌, ◌^◌, ◌<◌, ◌≤◌, IfOk};
ghost use Rattle.rules.specs.Grounds.{limit_grounds};
ghost use Rattle.rules.specs.Refusals.{first, refusal};
ghost use Rattle.plan.specs.Nearest.{Nearest, nearest, better};

use crate::measure::Measure;
use rules::neighbours::neighbours;
use rules::refusal::Refusal;
use rules::weight::Weight;

// Of all weights with at most `limit` rules the one with the least miss, then the one closest to the target, then the smaller.
pub fn nearest<E: Measure>(measure: &E, width: u32, target: u32, limit: u32) -> Result<u32, Refusal>
    ensures refused { refusal result ≡ first (limit_grounds width target limit) }
    ensures value { IfOk result (λ d. d ≡ nearest (E.Measure.miss measure.now) width target limit) }
    ensures words { IfOk result (λ d. Nearest (E.Measure.miss measure.now) width target limit d) }
{
    let pair = neighbours(width, target, limit)?;
    Ok(pick(measure, width, target, pair))
}

// Of a lighter and a heavier weight the one with the least miss, then the closer, then the lighter.
fn pick<E: Measure>(measure: &E, width: u32, target: u32, pair: (u32, u32)) -> u32
    requires { (pair.0 ≤ target) × (target ≤ pair.1) }
    ensures { result ≡ better (E.Measure.miss measure.now) width target pair.0 pair.1 }
{
    let (below, above) = pair;
    let light = measure.miss(width, target, below);
    let heavy = measure.miss(width, target, above);
    if heavy < light || heavy == light && above - target < target - below {
        above
    } else {
        below
    }
}

// The same where there is nothing to refuse: the public search takes any numbers, and so tries the width once more.
pub(crate) fn nearest_within<E: Measure>(measure: &E, target: Weight, limit: u32) -> u32
    requires { 0 < limit }
    ensures { result ≡ nearest (E.Measure.miss measure.now) target.width.bits target.addresses limit }
{
    nearest(measure, target.width().bits(), target.addresses(), limit).unwrap()
}
