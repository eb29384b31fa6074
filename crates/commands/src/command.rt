// Commands: what one line of a console can ask for. Any numbers may be handed in.
use model::order::Order;

#[derive(Clone, Copy, PartialEq, Eq, Debug)]
pub enum Command {
    // A switch of so many address bits, in a memory of so many rules.
    Make { width: u32, capacity: u32 },
    // An entry, a reweigh or a withdrawal.
    Place(Order),
    // Which server an address of a service goes to.
    Look { tag: u32, address: u32 },
    // All that the switch holds.
    List,
}
