// Whether there is a plan to make.
ghost use Rattle.std.specs.Prelude.{◌≡◌, IfOk};
ghost use Rattle.rules.specs.Refusals.{first, refusal};
ghost use Rattle.plan.specs.ByTag.{Each};
ghost use Rattle.plan.specs.Grounds.{plan_grounds};
ghost use Rattle.plan.specs.Plans.{services, beyond, Targets};

use rules::refusal::Refusal;
use rules::weight::Weight;
use rules::width::Width;
use std::array;

// The targets as weights of the width, unless there is a ground to refuse the plan.
pub(crate) fn admit(
    width: u32,
    capacity: u32,
    targets: &[Option<u32>; 64],
) -> Result<[Option<Weight>; 64], Refusal>
    ensures refused { refusal result ≡ first (plan_grounds width capacity targets.now) }
    ensures kept { IfOk result (λ ws. Each (λ c w. (w.width.bits ≡ width) × (w.addresses ≡ c)) targets.now ws) }
{
    let width = Width::new(width)?;
    if beyond(targets, width.addresses()) {
        return Err(Refusal::BeyondWidth);
    }
    if services(targets) > capacity as usize {
        return Err(Refusal::TooManyServices);
    }
    Ok(weights(width, targets))
}

// Whether some target is above the limit.
fn beyond(targets: &[Option<u32>; 64], limit: u32) -> bool
    ensures { result ≡ beyond limit targets.now }
{
    targets.iter().flatten().any(|target| *target > limit)
}

fn services(targets: &[Option<u32>; 64]) -> usize
    ensures { result ≡ services targets.now }
{
    targets.iter().flatten().count()
}

// None of them is capped. Kept as a cap: with `try_map` and `Weight::new` it did not prove which width each weight has.
fn weights(width: Width, targets: &[Option<u32>; 64]) -> [Option<Weight>; 64]
    requires { Targets width.bits targets.now }
    ensures { Each (λ c w. (w.width.bits ≡ width.bits) × (w.addresses ≡ c)) targets.now result }
{
    array::from_fn(|tag| targets[tag].map(|target| Weight::capped(width, target)))
}
