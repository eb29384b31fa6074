// The plan of all services of a switch.
ghost use Rattle.std.specs.Prelude.{◌≡◌, ◌<◌, IfOk, None, slice_index_or};
ghost use Rattle.rules.specs.Refusals.{first, refusal};
ghost use Rattle.plan.specs.ByTag.{on};
ghost use Rattle.plan.specs.Figures.{Figures};
ghost use Rattle.plan.specs.Grounds.{plan_grounds};
ghost use Rattle.plan.specs.Nearest.{nearest};
ghost use Rattle.plan.specs.Plans.{Plan, worst_miss, plan_weights, rule_total};
ghost use Rattle.plan.specs.Reached.{need_in, noted_weights};
ghost use Rattle.plan.specs.Rivals.{Best};

use crate::admission::admit;
use crate::measure::Measure;
use crate::nearest::nearest_within;
use crate::planned::Planned;
use crate::reach::Reach;
use crate::sharing::{least_worst, reaches, rules_within};
use rules::refusal::Refusal;
use std::array;

// The worst miss is the least at which all services together need no more rules than the memory has, and each gets the nearest weight with as
// many rules as it needs for that. The targets stand by tag, None where there is no service.
pub fn plan<E: Measure>(
    measure: &E,
    width: u32,
    capacity: u32,
    targets: &[Option<u32>; 64],
) -> Result<Planned, Refusal>
    ensures refused { refusal result ≡ first (plan_grounds width capacity targets.now) }
    ensures worst { IfOk result (λ p. p.worst ≡ worst_miss (E.Measure.miss measure.now) width capacity targets.now) }
    ensures weights { IfOk result (λ p. p.weights ≡ plan_weights (E.Measure.miss measure.now) width capacity targets.now) }
    ensures rules { IfOk result (λ p. p.rules ≡ rule_total width p.weights) }
    ensures words { IfOk result (λ p. Plan (E.Measure.miss measure.now) width capacity targets.now p.weights p.worst p.rules) }
    ensures best { IfOk result (λ p. Best (E.Measure.miss measure.now) width capacity targets.now p.weights p.worst p.rules) }
    ensures figures { Figures }
{
    let targets = admit(width, capacity, targets)?;
    let reaches = reaches(measure, &targets);
    let worst = least_worst(&reaches, capacity);
    let rules = rules_within(&reaches, worst);
    let weights = weights(measure, &reaches, worst);
    Ok(Planned {
        weights,
        worst,
        rules,
    })
}

// The nearest weights with as many rules as each service needs to miss by at most `limit`.
fn weights<E: Measure>(measure: &E, reaches: &[Option<Reach>; 64], limit: u64) -> [Option<u32>; 64]
    ensures { result ≡ noted_weights (E.Measure.miss measure.now) limit reaches.now }
{
    array::from_fn(
        |tag|
            requires { tag < 64 }
            ensures { result ≡ on (λ r. nearest (E.Measure.miss measure.entry.now) r.target.width.bits r.target.addresses (need_in r.misses limit)) (slice_index_or reaches.entry.now tag None) }
        {
            let reach = reaches[tag].as_ref()?;
            Some(nearest_within(measure, reach.target, reach.need(limit)))
        },
    )
}
