// What all services together need. Kept as an array: each target's facts are its own, and a struct round them all makes no contract shorter.
ghost use Rattle.std.specs.Prelude.{◌≡◌, ◌^◌, ◌<◌, ◌≤◌, None, slice_index_or};
ghost use Rattle.plan.specs.ByTag.{Both, Each};
ghost use Rattle.plan.specs.Nearest.{Least};
ghost use Rattle.plan.specs.Reached.{Noted, noted_needs};

use crate::measure::{FARTHEST, Measure};
use crate::reach::Reach;
use rules::weight::Weight;
use std::array;

// What each service can reach, noted once.
pub(crate) fn reaches<E: Measure>(
    measure: &E,
    targets: &[Option<Weight>; 64],
) -> [Option<Reach>; 64]
    ensures { Each (λ w r. Noted (E.Measure.miss measure.now) w.width.bits w.addresses r) targets.now result }
{
    array::from_fn(
        |tag|
            requires { tag < 64 }
            ensures { Both (λ w r. Noted (E.Measure.miss measure.entry.now) w.width.bits w.addresses r) (slice_index_or targets.entry.now tag None) result }
        { targets[tag].map(|target| Reach::new(measure, target)) },
    )
}

// How many rules all services together need to miss by at most `limit`.
pub(crate) fn rules_within(reaches: &[Option<Reach>; 64], limit: u64) -> u32
    ensures { result ≡ noted_needs reaches.now limit }
{
    reaches
        .iter()
        .map(|reach| reach.as_ref().map_or(0, |reach| reach.need(limit)))
        .sum()
}

// The least miss at which they need no more than the capacity, by bisection. Kept as a loop: the library bisects slices, and no ranges.
pub(crate) fn least_worst(reaches: &[Option<Reach>; 64], capacity: u32) -> u64
    requires { noted_needs reaches.now (2 ^ 40) ≤ capacity }
    ensures { Least (λ e. noted_needs reaches.now e ≤ capacity) result }
{
    let mut low = 0;
    let mut high = FARTHEST;
    while low < high {
        let middle = (low + high) / 2;
        if rules_within(reaches, middle) <= capacity {
            high = middle;
        } else {
            low = middle + 1;
        }
    }
    low
}
