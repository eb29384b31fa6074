// The relative measure.
ghost use Rattle.std.specs.Prelude.{◌≡◌};
ghost use Rattle.plan.specs.Relative.{relative, thousandths};
ghost use Rattle.plan.specs.RelativeLaw.{relative_lawful};

use crate::measure::{FARTHEST, Measure, addresses};
use std::cmp::Ordering;

// What a server gets too much, in thousandths of what it should get.
#[derive(Clone, Copy, PartialEq, Eq, Debug)]
pub struct Relative;

impl Measure for Relative {
    ghost miss = { λ _. relative };

    ghost lawful = { λ s. relative_lawful };

    #[tactic(auto, unfolding(crate::specs::Relative::relative))]
    fn miss(&self, width: u32, target: u32, weight: u32) -> u64 {
        let Some(addresses) = addresses(width, target, weight) else {
            return FARTHEST;
        };
        match weight.cmp(&target) {
            Ordering::Greater => thousandths(weight - target, target),
            Ordering::Less => thousandths(target - weight, addresses - target),
            Ordering::Equal => 0,
        }
    }
}

fn thousandths(part: u32, whole: u32) -> u64
    ensures { result ≡ thousandths part whole }
{
    if whole == 0 {
        return FARTHEST;
    }
    1000 * u64::from(part) / u64::from(whole)
}
