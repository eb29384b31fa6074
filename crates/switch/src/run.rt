// Whole runs: a making, and any list of calls behind it. Their contracts have the law of a switch.
ghost use Rattle.std.specs.Prelude.{◌≡◌, ◌≤◌, length, take, drop};
ghost use Rattle.model.specs.Models.{Model};
ghost use Rattle.switch.specs.Desks.{desk, view};
ghost use Rattle.switch.specs.Kept.{Kept, Followed};
ghost use Rattle.switch.specs.Runs.{Ran, EndAlike};

use crate::making::make;
use crate::perform::perform;
use crate::register::Register;
use crate::state::State;
use memory::reader::Reader;
use memory::rule_memory::RuleMemory;
use model::answer::Answer;
use model::call::Call;
use plan::measure::Measure;
use rules::refusal::Refusal;

// Makes a switch and carries out every call, its answer at the same place. Refused before anything is touched where there are fewer places than
// calls; then as the making is. The places are kept as a slice beside the calls: the caller lends them, and nothing is allocated.
pub fn run<M: RuleMemory, E: Measure>(
    measure: &E,
    register: &mut Register,
    memory: &mut M,
    width: u32,
    calls: &[Call],
    answers: &mut [Answer],
) -> Result<State, Refusal>
    ensures { Ran (E.Measure.miss measure.now) width calls.now answers.old answers.new (desk register.old) (desk register.new) (view M.Reader.held_at M.Reader.size M.RuleMemory.limit memory.old) (view M.Reader.held_at M.Reader.size M.RuleMemory.limit memory.new) result }
{
    if answers.len() < calls.len() {
        return Err(Refusal::BufferTooShort);
    }
    let resting = make(width, register, memory)?;
    Ok(carry_on(
        State::Resting(resting),
        measure,
        register,
        memory,
        calls,
        answers,
    ))
}

// Two switches at one width under one measure, each with its own calls and its own make of memory. Where both end outside a change, with equal
// capacities, services and targets, they answer every look alike.
// Kept with the parts of a side one by one: a register and a memory are lent each by itself at every call, and a side would be a public type for this
// call alone.
pub fn run_two<M: RuleMemory, N: RuleMemory, E: Measure>(
    measure: &E,
    width: u32,
    left_register: &mut Register,
    left_memory: &mut M,
    left_calls: &[Call],
    left_answers: &mut [Answer],
    right_register: &mut Register,
    right_memory: &mut N,
    right_calls: &[Call],
    right_answers: &mut [Answer],
) -> (Result<State, Refusal>, Result<State, Refusal>)
    ensures left { Ran (E.Measure.miss measure.now) width left_calls.now left_answers.old left_answers.new (desk left_register.old) (desk left_register.new) (view M.Reader.held_at M.Reader.size M.RuleMemory.limit left_memory.old) (view M.Reader.held_at M.Reader.size M.RuleMemory.limit left_memory.new) result.0 }
    ensures right { Ran (E.Measure.miss measure.now) width right_calls.now right_answers.old right_answers.new (desk right_register.old) (desk right_register.new) (view N.Reader.held_at N.Reader.size N.RuleMemory.limit right_memory.old) (view N.Reader.held_at N.Reader.size N.RuleMemory.limit right_memory.new) result.1 }
    ensures alike { EndAlike (E.Measure.miss measure.now) width left_calls.now (view M.Reader.held_at M.Reader.size M.RuleMemory.limit left_memory.old) (view M.Reader.held_at M.Reader.size M.RuleMemory.limit left_memory.new) right_calls.now (view N.Reader.held_at N.Reader.size N.RuleMemory.limit right_memory.old) (view N.Reader.held_at N.Reader.size N.RuleMemory.limit right_memory.new) result.0 result.1 }
{
    let left = run(
        measure,
        left_register,
        left_memory,
        width,
        left_calls,
        left_answers,
    );
    let right = run(
        measure,
        right_register,
        right_memory,
        width,
        right_calls,
        right_answers,
    );
    (left, right)
}

// Every call in turn, from any state.
fn carry_on<M: RuleMemory, E: Measure>(
    mut state: State,
    measure: &E,
    register: &mut Register,
    memory: &mut M,
    calls: &[Call],
    answers: &mut [Answer],
) -> State
    requires { length calls.now ≤ length answers.old }
    ensures followed { (m : Model) → Kept (E.Measure.miss measure.now) m state (desk register.old) (view M.Reader.held_at M.Reader.size M.RuleMemory.limit memory.old) → Followed (E.Measure.miss measure.now) m calls.now (take (length calls.now) answers.new) result (desk register.new) (view M.Reader.held_at M.Reader.size M.RuleMemory.limit memory.new) }
    ensures behind { drop (length calls.now) answers.new ≡ drop (length calls.now) answers.old }
{
    // Kept as an index: a proof does not know what a loop over a `zip` with `iter_mut` has written.
    for (i, call) in calls.iter().enumerate() {
        (state, answers[i]) = perform(state, *call, measure, register, memory);
    }
    state
}
