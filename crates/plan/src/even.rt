// The even measure.
ghost use Rattle.plan.specs.Even.{even};
ghost use Rattle.plan.specs.EvenLaw.{even_lawful};

use crate::measure::{FARTHEST, Measure, addresses};

// Every address too many or too few counts as one.
#[derive(Clone, Copy, PartialEq, Eq, Debug)]
pub struct Even;

impl Measure for Even {
    ghost miss = { λ _. even };

    ghost lawful = { λ s. even_lawful };

    #[tactic(auto, unfolding(crate::specs::Even::even))]
    fn miss(&self, width: u32, target: u32, weight: u32) -> u64 {
        if addresses(width, target, weight).is_none() {
            return FARTHEST;
        }
        u64::from(weight.abs_diff(target))
    }
}
