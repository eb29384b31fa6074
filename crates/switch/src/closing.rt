// A change closed.
ghost use Rattle.std.specs.Prelude.{◌≡◌, MatchResult};
ghost use Rattle.rules.specs.Refusals.{refusal};
ghost use Rattle.switch.specs.Calls.{refusal_of, close_refusal, close_desk};
ghost use Rattle.switch.specs.Desks.{desk};

use crate::prospect::apply;
use crate::register::Register;
use crate::state::{Changing, Refused, Resting, hand_back};
use rules::refusal::Refusal;

// Makes the coming plan the standing one. Refused where no change is under way, and then while a step is left.
pub fn close(changing: Changing, register: &mut Register) -> Result<Resting, Refused<Changing>>
    ensures refused { refusal_of result ≡ close_refusal (desk register.old) }
    ensures register { desk register.new ≡ close_desk (desk register.old) }
    ensures state { MatchResult result (λ s. s.width ≡ register.old.width.bits) (λ e. e.state ≡ changing) }
{
    let ((), Changing { steps: _ }) = hand_back(settle(register), changing)?;
    Ok(Resting {
        width: register.width.bits(),
    })
}

fn settle(register: &mut Register) -> Result<(), Refusal>
    ensures refused { refusal result ≡ close_refusal (desk register.old) }
    ensures register { desk register.new ≡ close_desk (desk register.old) }
{
    let Some(change) = register.change else {
        return Err(Refusal::StateMismatch);
    };
    if change.left > 0 {
        return Err(Refusal::StepsMismatch);
    }
    // Kept as names of their own: an array that comes straight from a call or a field did not prove.
    let targets = apply(register.targets, change.order);
    let weights = change.weights;
    register.targets = targets;
    register.weights = weights;
    register.change = None;
    Ok(())
}
