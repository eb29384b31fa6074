// What a service can reach with so many rules.
ghost use Rattle.std.specs.Prelude.{◌≡◌, ◌<◌, ◌≤◌};
ghost use Rattle.plan.specs.Reached.{Noted, need_in};

use crate::measure::Measure;
use crate::nearest::nearest_within;
use rules::weight::Weight;
use std::array;

// The target of a service, and by how much the nearest weights with 1 to 13 rules miss it: no weight has more rules at a width of up to 24.
#[derive(Clone, Copy)]
pub(crate) struct Reach {
    pub(crate) target: Weight,
    pub(crate) misses: [u64; 13],
}

impl Reach {
    // The search for every number of rules, made once for a service.
    pub(crate) fn new<E: Measure>(measure: &E, target: Weight) -> Self
        ensures { Noted (E.Measure.miss measure.now) target.width.bits target.addresses result }
    {
        let misses = array::from_fn(|n| {
            let weight = nearest_within(measure, target, n as u32 + 1);
            measure.miss(target.width().bits(), target.addresses(), weight)
        });
        Reach { target, misses }
    }

    // The least number of rules that misses by at most `limit`.
    pub(crate) fn need(&self, limit: u64) -> u32
        ensures value { result ≡ need_in self.now.misses limit }
        ensures most { result ≤ 13 }
    {
        let fewer = self.misses.iter().position(|miss| *miss <= limit);
        1 + fewer.unwrap_or(12) as u32
    }
}
