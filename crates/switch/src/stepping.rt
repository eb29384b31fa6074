// The steps of a change.
ghost use Rattle.std.specs.Prelude.{◌≡◌, ℕ, ◌^◌, ◌<◌, false, MatchResult};
ghost use Rattle.rules.specs.Refusals.{first, refusal};
ghost use Rattle.plan.specs.Plans.{beyond};
ghost use Rattle.switch.specs.Calls.{refusal_of, next_write, write_grounds, write_held, step_refusal, step_desk, step_held};
ghost use Rattle.switch.specs.Desks.{desk, underway, view};

use crate::change::Change;
use crate::register::Register;
use crate::state::{Changing, Refused, hand_back};
use crate::steps::nth_write;
use crate::tables::Tables;
use memory::reader::Reader;
use memory::rule_memory::RuleMemory;
use model::write::Write;
use rules::refusal::Refusal;

// Writes the next rule of the change. Refused where no change is under way, where no step is left, where the memory refuses the write, and where it
// finds nothing at the prefix that is to be removed.
pub fn step<M: RuleMemory>(
    changing: Changing,
    register: &mut Register,
    memory: &mut M,
) -> Result<Changing, Refused<Changing>>
    ensures refused { refusal_of result ≡ step_refusal (desk register.old) (view M.Reader.held_at M.Reader.size M.RuleMemory.limit memory.old) }
    ensures register { desk register.new ≡ step_desk (desk register.old) (view M.Reader.held_at M.Reader.size M.RuleMemory.limit memory.old) }
    ensures held { (v l : ℕ) → M.Reader.held_at memory.new v l ≡ step_held (desk register.old) (view M.Reader.held_at M.Reader.size M.RuleMemory.limit memory.old) v l }
    ensures limit { M.RuleMemory.limit memory.new ≡ M.RuleMemory.limit memory.old }
    ensures state { MatchResult result (λ c. c ≡ changing) (λ e. e.state ≡ changing) }
{
    let ((), changing) = hand_back(advance(register, memory), changing)?;
    Ok(changing)
}

fn advance<M: RuleMemory>(register: &mut Register, memory: &mut M) -> Result<(), Refusal>
    ensures refused { refusal result ≡ step_refusal (desk register.old) (view M.Reader.held_at M.Reader.size M.RuleMemory.limit memory.old) }
    ensures register { desk register.new ≡ step_desk (desk register.old) (view M.Reader.held_at M.Reader.size M.RuleMemory.limit memory.old) }
    ensures held { (v l : ℕ) → M.Reader.held_at memory.new v l ≡ step_held (desk register.old) (view M.Reader.held_at M.Reader.size M.RuleMemory.limit memory.old) v l }
    ensures limit { M.RuleMemory.limit memory.new ≡ M.RuleMemory.limit memory.old }
{
    let Some(mut change) = register.change else {
        return Err(Refusal::StateMismatch);
    };
    let Some(write) = next_write(register, change) else {
        return Err(Refusal::StepsMismatch);
    };
    carry_out(memory, write)?;
    change.left -= 1;
    register.change = Some(change);
    Ok(())
}

// The write that is next, if a step is left.
fn next_write(register: &Register, change: Change) -> Option<Write>
    requires { beyond (2 ^ register.now.width.bits) change.weights ≡ false }
    ensures { result ≡ next_write (desk register.now) (underway change) }
{
    if change.left == 0 {
        return None;
    }
    let coming = Tables::new(register.width, &change.weights);
    nth_write(register.standing(), coming, change.steps - change.left)
}

// Writes one rule, and takes a prefix with nothing at it for a fault.
fn carry_out<M: RuleMemory>(memory: &mut M, write: Write) -> Result<(), Refusal>
    ensures refused { refusal result ≡ first (write_grounds (view M.Reader.held_at M.Reader.size M.RuleMemory.limit memory.old) write) }
    ensures held { (v l : ℕ) → M.Reader.held_at memory.new v l ≡ write_held (view M.Reader.held_at M.Reader.size M.RuleMemory.limit memory.old) write v l }
    ensures limit { M.RuleMemory.limit memory.new ≡ M.RuleMemory.limit memory.old }
{
    match write {
        Write::Remove(prefix) => {
            if memory.remove(prefix)? {
                Ok(())
            } else {
                Err(Refusal::NothingToRemove)
            }
        }
        Write::Put(rule) => memory.put(rule),
    }
}
