// Replies told as text.
ghost use Rattle.std.specs.Prelude.{◌≡◌, ◌++◌, OnOk, OnErr};
ghost use Rattle.switch.specs.Listings.{listing};
ghost use Rattle.commands.specs.Conversations.{text_of};

use crate::reply::Reply;
use crate::texts::{ok_text, refusal_text, seen_text};
use rules::refusal::Refusal;
use std::alloc::{AllocError, Global};
use switch::listing::list;
use switch::register::Register;

// No listing is longer than this.
const PAGE: usize = 36_864;

// Writes the text of a reply behind what is written already, or nothing where memory runs out.
pub fn tell(
    heap: Global,
    register: &Register,
    reply: Result<Reply, Refusal>,
    out: &mut Vec<u8>,
) -> Result<(), AllocError>
    ensures told { OnOk result (out.new.items ≡ out.old.items ++ text_of register.now.width.bits register.now.weights reply) }
    ensures kept { OnErr result (out.new.items ≡ out.old.items) }
{
    let text = match reply {
        Ok(Reply::Settled(outcome)) => ok_text(heap, outcome)?,
        Ok(Reply::Seen(server)) => seen_text(heap, server)?,
        Ok(Reply::Listing) => return append_listing(register, out),
        Err(why) => refusal_text(heap, why)?,
    };
    out.extend_from_slice(text.as_bytes())
}

fn append_listing(register: &Register, out: &mut Vec<u8>) -> Result<(), AllocError>
    ensures told { OnOk result (out.new.items ≡ out.old.items ++ listing register.now.width.bits register.now.weights) }
    ensures kept { OnErr result (out.new.items ≡ out.old.items) }
{
    // Kept as a page with its used length beside: `list` writes to the front of a slice of its caller's.
    let mut page = [0; PAGE];
    let used = list(register, &mut page).unwrap();
    out.extend_from_slice(&page[..used])
}
