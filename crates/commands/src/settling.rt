// An order run to rest: drafted, accepted, every step taken, and closed.
ghost use Rattle.commands.specs.Settling.{Settled, AllStepped};
ghost use Rattle.switch.specs.Desks.{desk, view};

use memory::reader::Reader;
use memory::rule_memory::RuleMemory;
use model::answer::Forecast;
use model::order::Order;
use plan::measure::Measure;
use switch::accepting::accept;
use switch::closing::close;
use switch::orders::place_order;
use switch::register::Register;
use switch::state::{Changing, Refused, Resting, State};
use switch::stepping::step;

// A refusal of the order, or of a step that the memory refuses, comes up unchanged, with the state in which the switch is then.
pub fn settle<M: RuleMemory, E: Measure>(
    resting: Resting,
    order: Order,
    measure: &E,
    register: &mut Register,
    memory: &mut M,
) -> Result<(Resting, Forecast), Refused<State>>
    ensures { Settled (E.Measure.miss measure.now) order resting (desk register.old) (desk register.new) (view M.Reader.held_at M.Reader.size M.RuleMemory.limit memory.old) (view M.Reader.held_at M.Reader.size M.RuleMemory.limit memory.new) result }
{
    let draft = place_order(resting, order, measure, register)?;
    let forecast = draft.forecast();
    let changing = accept(draft, register, measure)?;
    let changing = take_steps(changing, forecast.steps, register, memory)?;
    let resting = close(changing, register)?;
    Ok((resting, forecast))
}

// Kept as a loop: a closure of `try_fold` would alter the register and the memory that it captures, and nothing would be known of them afterwards.
fn take_steps<M: RuleMemory>(
    mut changing: Changing,
    steps: u32,
    register: &mut Register,
    memory: &mut M,
) -> Result<Changing, Refused<Changing>>
    ensures { AllStepped steps changing (desk register.old) (desk register.new) (view M.Reader.held_at M.Reader.size M.RuleMemory.limit memory.old) (view M.Reader.held_at M.Reader.size M.RuleMemory.limit memory.new) result }
{
    for _taken in 0..steps {
        changing = step(changing, register, memory)?;
    }
    Ok(changing)
}
