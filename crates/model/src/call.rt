// The calls of a switch once it is made.
use crate::order::Order;

#[derive(Clone, Copy, PartialEq, Eq, Debug)]
pub enum Call {
    // An entry, a reweigh or a withdrawal: asks for a draft.
    Place(Order),
    // The draft becomes a change under way.
    Accept,
    // The draft is let go.
    Discard,
    // One rule of the change is written.
    Step,
    // The change is over.
    Close,
    // Which server an address of a service goes to.
    Look { tag: u32, address: u32 },
}
