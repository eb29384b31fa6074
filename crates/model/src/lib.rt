// What a switch holds and how it changes: key rules of a plan, the steps of a change, the reference model, and the law over runs. The calls
// themselves are in `switch`.
#![tactic(auto)]

pub mod answer;
pub mod call;
pub mod order;
pub mod write;
