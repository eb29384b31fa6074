// A draft accepted or discarded.
ghost use Rattle.std.specs.Prelude.{◌≡◌, IfOk, MatchResult};
ghost use Rattle.rules.specs.Refusals.{first, refusal};
ghost use Rattle.switch.specs.Accepted.{Confirmed};
ghost use Rattle.switch.specs.Calls.{refusal_of, accept_grounds, accept_desk, discard_grounds};
ghost use Rattle.switch.specs.Desks.{desk};

use crate::change::Change;
use crate::prospect::foresee;
use crate::register::Register;
use crate::state::{Changing, Draft, Refused, Resting, hand_back};
use model::answer::Forecast;
use plan::measure::Measure;
use rules::refusal::Refusal;

// Begins the change that the draft promised. Refused where one is under way already, and where the draft is not what its order gives now, in every
// number.
pub fn accept<E: Measure>(
    draft: Draft,
    register: &mut Register,
    measure: &E,
) -> Result<Changing, Refused<Draft>>
    ensures refused { refusal_of result ≡ first (accept_grounds (E.Measure.miss measure.now) (desk register.old) draft.forecast) }
    ensures register { desk register.new ≡ accept_desk (E.Measure.miss measure.now) (desk register.old) draft.forecast }
    ensures state { MatchResult result (λ c. c.steps ≡ draft.forecast.steps) (λ e. e.state ≡ draft) }
{
    let (change, Draft { forecast }) = hand_back(
        confirm(register, measure, draft.forecast),
        draft,
    )?;
    register.change = Some(change);
    Ok(Changing {
        steps: forecast.steps,
    })
}

// The change that a draft promised, if it is still what its order gives.
fn confirm<E: Measure>(
    register: &Register,
    measure: &E,
    forecast: Forecast,
) -> Result<Change, Refusal>
    ensures refused { refusal result ≡ first (accept_grounds (E.Measure.miss measure.now) (desk register.now) forecast) }
    ensures change { IfOk result (λ c. Confirmed (E.Measure.miss measure.now) (desk register.now) forecast c) }
{
    if register.change.is_some() {
        return Err(Refusal::StateMismatch);
    }
    match foresee(register, measure, forecast.order) {
        Ok(prospect) if prospect.forecast == forecast => Ok(Change {
            order: forecast.order,
            weights: prospect.weights,
            steps: forecast.steps,
            left: forecast.steps,
        }),
        _ => Err(Refusal::StateMismatch),
    }
}

// Lets the draft go. Refused where a change is under way. Kept without `hand_back`: there is one ground, and no call inside that could refuse.
pub fn discard(draft: Draft, register: &Register) -> Result<Resting, Refused<Draft>>
    ensures refused { refusal_of result ≡ first (discard_grounds (desk register.now)) }
    ensures state { MatchResult result (λ s. s.width ≡ register.now.width.bits) (λ e. e.state ≡ draft) }
{
    if register.change.is_some() {
        return Err(Refused {
            state: draft,
            why: Refusal::StateMismatch,
        });
    }
    let Draft { forecast: _ } = draft;
    Ok(Resting {
        width: register.width.bits(),
    })
}
