// Looks.
ghost use Rattle.std.specs.Prelude.{◌≡◌, IfOk};
ghost use Rattle.rules.specs.Refusals.{first, refusal};
ghost use Rattle.memory.specs.Looks.{longest};
ghost use Rattle.model.specs.Grounds.{look_grounds};
ghost use Rattle.model.specs.Keyed.{key};

use crate::register::Register;
use memory::reader::Reader;
use rules::refusal::Refusal;
use rules::server::Server;

// The server that an address of a service goes to, as the memory answers, at any time. Refused for a tag above 63, then for an address of 2^W or
// more.
pub fn look<M: Reader>(
    register: &Register,
    memory: &M,
    tag: u32,
    address: u32,
) -> Result<Option<Server>, Refusal>
    ensures refused { refusal result ≡ first (look_grounds register.now.width.bits tag address) }
    ensures seen { IfOk result (λ s. s ≡ longest (M.Reader.held_at memory.now) (key register.now.width.bits tag address)) }
{
    if tag > 63 {
        return Err(Refusal::TagOutOfRange);
    }
    let addresses = register.width.addresses();
    if address >= addresses {
        return Err(Refusal::BeyondWidth);
    }
    Ok(memory.look(tag * addresses + address))
}
