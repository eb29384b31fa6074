// The orders of a switch at rest: each gives a draft and leaves the register as it is. The three are kept as calls with names of their own, each one
// call of `place_order`.
ghost use Rattle.std.specs.Prelude.{◌≡◌, IfOk, MatchResult};
ghost use Rattle.rules.specs.Refusals.{first, refusal};
ghost use Rattle.model.specs.declared.order.Order.TheVariants.{Enter, Reweigh, Withdraw};
ghost use Rattle.switch.specs.Calls.{refusal_of, place_grounds, forecast_of};
ghost use Rattle.switch.specs.Desks.{desk};

use crate::prospect::foresee;
use crate::register::Register;
use crate::state::{Draft, Refused, Resting, hand_back};
use model::answer::Forecast;
use model::order::Order;
use plan::measure::Measure;
use rules::refusal::Refusal;

// Asks for a new service under a tag. Refused in a change, for a tag above 63, a target above 2^W, a tag that has a service, and then where there
// would be more services than the capacity.
pub fn enter<E: Measure>(
    resting: Resting,
    register: &Register,
    measure: &E,
    tag: u32,
    target: u32,
) -> Result<Draft, Refused<Resting>>
    ensures refused { refusal_of result ≡ first (place_grounds (desk register.now) (Enter tag target)) }
    ensures state { MatchResult result (λ d. d.forecast ≡ forecast_of (E.Measure.miss measure.now) (desk register.now) (Enter tag target)) (λ e. e.state ≡ resting) }
{
    place_order(resting, Order::Enter { tag, target }, measure, register)
}

// Asks for another target of a service. Refused in a change, for a tag above 63, a target above 2^W, and then for a tag without a service.
pub fn reweigh<E: Measure>(
    resting: Resting,
    register: &Register,
    measure: &E,
    tag: u32,
    target: u32,
) -> Result<Draft, Refused<Resting>>
    ensures refused { refusal_of result ≡ first (place_grounds (desk register.now) (Reweigh tag target)) }
    ensures state { MatchResult result (λ d. d.forecast ≡ forecast_of (E.Measure.miss measure.now) (desk register.now) (Reweigh tag target)) (λ e. e.state ≡ resting) }
{
    place_order(resting, Order::Reweigh { tag, target }, measure, register)
}

// Asks for a service to go. Refused in a change, for a tag above 63, and then for a tag without a service.
pub fn withdraw<E: Measure>(
    resting: Resting,
    register: &Register,
    measure: &E,
    tag: u32,
) -> Result<Draft, Refused<Resting>>
    ensures refused { refusal_of result ≡ first (place_grounds (desk register.now) (Withdraw tag)) }
    ensures state { MatchResult result (λ d. d.forecast ≡ forecast_of (E.Measure.miss measure.now) (desk register.now) (Withdraw tag)) (λ e. e.state ≡ resting) }
{
    place_order(resting, Order::Withdraw { tag }, measure, register)
}

// Places an order of any kind, as its own call does.
pub fn place_order<E: Measure>(
    resting: Resting,
    order: Order,
    measure: &E,
    register: &Register,
) -> Result<Draft, Refused<Resting>>
    ensures refused { refusal_of result ≡ first (place_grounds (desk register.now) order) }
    ensures state { MatchResult result (λ d. d.forecast ≡ forecast_of (E.Measure.miss measure.now) (desk register.now) order) (λ e. e.state ≡ resting) }
{
    let (forecast, Resting { width: _ }) = hand_back(draft(register, measure, order), resting)?;
    Ok(Draft { forecast })
}

fn draft<E: Measure>(register: &Register, measure: &E, order: Order) -> Result<Forecast, Refusal>
    ensures refused { refusal result ≡ first (place_grounds (desk register.now) order) }
    ensures forecast { IfOk result (λ f. f ≡ forecast_of (E.Measure.miss measure.now) (desk register.now) order) }
{
    if register.change.is_some() {
        return Err(Refusal::StateMismatch);
    }
    Ok(foresee(register, measure, order)?.forecast)
}
