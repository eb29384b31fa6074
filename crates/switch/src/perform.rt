// One call of a chain, made through the calls that a driver would use. A call that the state does not take alters nothing.
ghost use Rattle.std.specs.Prelude.{MatchResult};
ghost use Rattle.model.specs.declared.answer.Answer.TheVariants as answer;
ghost use Rattle.switch.specs.Desks.{desk, view};
ghost use Rattle.switch.specs.Kept.{Carries};

use crate::accepting::{accept, discard};
use crate::closing::close;
use crate::looking::look;
use crate::orders::place_order;
use crate::register::Register;
use crate::state::{Refused, State, hand_back};
use crate::stepping::step;
use memory::reader::Reader;
use memory::rule_memory::RuleMemory;
use model::answer::Answer;
use model::call::Call;
use plan::measure::Measure;

// Kept with measure, register and memory apart: each is lent by itself at every call.
pub(crate) fn perform<M: RuleMemory, E: Measure>(
    state: State,
    call: Call,
    measure: &E,
    register: &mut Register,
    memory: &mut M,
) -> (State, Answer)
    ensures { Carries (E.Measure.miss measure.now) call state (desk register.old) (view M.Reader.held_at M.Reader.size M.RuleMemory.limit memory.old) result.1 result.0 (desk register.new) (view M.Reader.held_at M.Reader.size M.RuleMemory.limit memory.new) }
{
    match try_call(state, call, measure, register, memory) {
        Ok(done) => done,
        Err(Refused { state, why }) => (state, Answer::Refused(why)),
    }
}

// A refusal comes up with the state that it hands back. Kept as a `match` on the call: calls are data that a caller lists, and the model reads the
// same list.
fn try_call<M: RuleMemory, E: Measure>(
    state: State,
    call: Call,
    measure: &E,
    register: &mut Register,
    memory: &mut M,
) -> Result<(State, Answer), Refused<State>>
    ensures { let leads = Carries (E.Measure.miss measure.now) call state (desk register.old) (view M.Reader.held_at M.Reader.size M.RuleMemory.limit memory.old) in let d = desk register.new in let v = view M.Reader.held_at M.Reader.size M.RuleMemory.limit memory.new in MatchResult result (λ done. leads done.1 done.0 d v) (λ e. leads (answer.Refused e.why) e.state d v) }
{
    match (call, state) {
        (Call::Place(order), State::Resting(resting)) => {
            let draft = place_order(resting, order, measure, register)?;
            let forecast = draft.forecast;
            Ok((State::Drafted(draft), Answer::Drafted(forecast)))
        }
        (Call::Accept, State::Drafted(draft)) => {
            let changing = accept(draft, register, measure)?;
            Ok((State::Changing(changing), Answer::Done))
        }
        (Call::Discard, State::Drafted(draft)) => {
            let resting = discard(draft, register)?;
            Ok((State::Resting(resting), Answer::Done))
        }
        (Call::Step, State::Changing(changing)) => {
            let changing = step(changing, register, memory)?;
            Ok((State::Changing(changing), Answer::Done))
        }
        (Call::Close, State::Changing(changing)) => {
            let resting = close(changing, register)?;
            Ok((State::Resting(resting), Answer::Done))
        }
        (Call::Look { tag, address }, state) => {
            let (server, state) = hand_back(look(register, memory, tag, address), state)?;
            Ok((state, Answer::Seen(server)))
        }
        (_, state) => Ok((state, Answer::NotTaken)),
    }
}
