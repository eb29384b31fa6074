// What comes of an order.
ghost use Rattle.std.specs.Prelude.{◌≡◌, ◌^◌, false, length, IfOk, None, slice_set, slice_index_or};
ghost use Rattle.rules.specs.Refusals.{first, refusal};
ghost use Rattle.plan.specs.Plans.{beyond};
ghost use Rattle.model.specs.Grounds.{order_grounds};
ghost use Rattle.model.specs.Models.{coming};
ghost use Rattle.switch.specs.Calls.{forecast_of, weights_of};
ghost use Rattle.switch.specs.Desks.{desk};
ghost use Rattle.switch.specs.Prospects.{tag_grounds, service_grounds, admit_grounds};

use crate::register::Register;
use crate::steps::count_writes;
use crate::tables::Tables;
use model::answer::Forecast;
use model::order::Order;
use plan::measure::Measure;
use plan::planner::plan;
use rules::refusal::Refusal;

// What a draft tells, and the weights of the plan behind it.
#[derive(Clone, Copy)]
pub(crate) struct Prospect {
    pub(crate) forecast: Forecast,
    pub(crate) weights: [Option<u32>; 64],
}

// The plan's own refusal, for more services than the capacity, comes up from the planner. That there are 64 weights is a clause of its own, since a
// proof that reads a field does not get what the field's type says of it.
pub(crate) fn foresee<E: Measure>(
    register: &Register,
    measure: &E,
    order: Order,
) -> Result<Prospect, Refusal>
    ensures refused { refusal result ≡ first (order_grounds register.now.width.bits register.now.capacity register.now.targets order) }
    ensures forecast { IfOk result (λ p. p.forecast ≡ forecast_of (E.Measure.miss measure.now) (desk register.now) order) }
    ensures weights { IfOk result (λ p. p.weights ≡ weights_of (E.Measure.miss measure.now) (desk register.now) order) }
    ensures fit { IfOk result (λ p. beyond (2 ^ register.now.width.bits) p.weights ≡ false) }
    ensures long { IfOk result (λ p. length p.weights ≡ 64) }
{
    admit(register, order)?;
    let targets = apply(register.targets, order);
    let planned = plan(measure, register.width.bits(), register.capacity, &targets)?;
    let coming = Tables::new(register.width, &planned.weights);
    let steps = count_writes(register.standing(), coming);
    let forecast = Forecast {
        order,
        worst: planned.worst,
        rules: planned.rules,
        steps,
    };
    Ok(Prospect {
        forecast,
        weights: planned.weights,
    })
}

// The targets once the order is carried out.
pub(crate) fn apply(targets: [Option<u32>; 64], order: Order) -> [Option<u32>; 64]
    ensures value { result ≡ coming order targets }
{
    match order {
        Order::Enter { tag, target } | Order::Reweigh { tag, target } => {
            with_target(targets, tag, Some(target))
        }
        Order::Withdraw { tag } => with_target(targets, tag, None),
    }
}

fn with_target(mut targets: [Option<u32>; 64], tag: u32, target: Option<u32>) -> [Option<u32>; 64]
    ensures { result ≡ slice_set targets tag target }
{
    // Kept as a test: with `get_mut` it did not prove what the other places hold.
    if tag > 63 {
        return targets;
    }
    targets[tag as usize] = target;
    targets
}

// The grounds of the tag, the target and the service. A tag is looked up before the target is tried, so that the first of them that is wrong decides.
fn admit(register: &Register, order: Order) -> Result<(), Refusal>
    ensures { refusal result ≡ first (admit_grounds register.now.width.bits register.now.targets order) }
{
    match order {
        Order::Enter { tag, target } => match find_for(register, tag, target)? {
            Some(_) => Err(Refusal::AlreadyRegistered),
            None => Ok(()),
        },
        Order::Reweigh { tag, target } => match find_for(register, tag, target)? {
            Some(_) => Ok(()),
            None => Err(Refusal::NotRegistered),
        },
        Order::Withdraw { tag } => match find(register, tag)? {
            Some(_) => Ok(()),
            None => Err(Refusal::NotRegistered),
        },
    }
}

// The target of the service under the tag, which is refused above 63.
fn find(register: &Register, tag: u32) -> Result<Option<u32>, Refusal>
    ensures refused { refusal result ≡ first (tag_grounds tag) }
    ensures found { IfOk result (λ target. target ≡ slice_index_or register.now.targets tag None) }
{
    register
        .targets
        .get(tag as usize)
        .copied()
        .ok_or(Refusal::TagOutOfRange)
}

// The same for an order with a target, which is refused above 2^W: kept as one ground more behind the other.
fn find_for(register: &Register, tag: u32, target: u32) -> Result<Option<u32>, Refusal>
    ensures refused { refusal result ≡ first (service_grounds register.now.width.bits tag target) }
    ensures found { IfOk result (λ standing. standing ≡ slice_index_or register.now.targets tag None) }
{
    let standing = find(register, tag)?;
    if target > register.width.addresses() {
        return Err(Refusal::BeyondWidth);
    }
    Ok(standing)
}
