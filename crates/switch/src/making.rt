// Making a switch over an empty rule memory.
ghost use Rattle.std.specs.Prelude.{◌≡◌, ℕ, IfOk};
ghost use Rattle.rules.specs.Refusals.{first, refusal};
ghost use Rattle.model.specs.Grounds.{making_grounds};
ghost use Rattle.model.specs.Models.{kept_if};
ghost use Rattle.switch.specs.Calls.{fresh};
ghost use Rattle.switch.specs.Desks.{desk};

use crate::register::Register;
use crate::state::Resting;
use memory::reader::Reader;
use memory::rule_memory::RuleMemory;
use rules::refusal::Refusal;
use rules::width::Width;

impl Register {
    // A register of width 1 and capacity 0 with no service.
    pub fn new() -> Register
        ensures { desk result ≡ fresh 1 0 }
    {
        blank(Width::new(1).unwrap(), 0)
    }
}

fn blank(width: Width, capacity: u32) -> Register
    ensures { desk result ≡ fresh width.bits capacity }
{
    Register {
        width,
        capacity,
        targets: [None; 64],
        weights: [None; 64],
        change: None,
    }
}

// Takes the memory's capacity for its own and clears the register. Refused for a width outside 1 to 24, then where the memory has a rule.
pub fn make<M: RuleMemory>(
    width: u32,
    register: &mut Register,
    memory: &M,
) -> Result<Resting, Refusal>
    ensures refused { refusal result ≡ first (making_grounds width (M.Reader.size memory.now)) }
    ensures register { desk register.new ≡ kept_if (first (making_grounds width (M.Reader.size memory.now))) (desk register.old) (fresh width (M.RuleMemory.limit memory.now)) }
    ensures state { IfOk result (λ s. s.width ≡ width) }
{
    let width = Width::new(width)?;
    if memory.count() > 0 {
        return Err(Refusal::MemoryNotEmpty);
    }
    *register = blank(width, memory.capacity());
    Ok(Resting {
        width: width.bits(),
    })
}
