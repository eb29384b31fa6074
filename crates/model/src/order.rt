// Orders: what can be asked of a switch at rest. Any numbers may be handed in.

#[derive(Clone, Copy, PartialEq, Eq, Debug)]
pub enum Order {
    // A new service under a tag, and how many addresses server 1 should get.
    Enter { tag: u32, target: u32 },
    // Another target for a service.
    Reweigh { tag: u32, target: u32 },
    // A service goes.
    Withdraw { tag: u32 },
}
