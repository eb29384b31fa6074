// One switch: a register of services, a rule memory, and the nine calls that plan and change what the memory holds.
#![tactic(auto)]

pub mod accepting;
mod change;
pub mod closing;
mod decimals;
pub mod listing;
pub mod looking;
pub mod making;
pub mod orders;
mod perform;
mod prospect;
pub mod register;
pub mod run;
pub mod state;
pub mod stepping;
mod steps;
mod tables;
mod tagged_rules;
