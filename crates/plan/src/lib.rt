// Planning the weights of all services of a switch within its rule memory.
#![tactic(auto)]

mod admission;
pub mod even;
pub mod measure;
pub mod nearest;
pub mod planned;
pub mod planner;
mod reach;
pub mod relative;
mod sharing;
#[cfg(test)]
mod tests;
