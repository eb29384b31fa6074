// Prefix rules, and the shortest table that gives server 1 a weight.
#![tactic(auto)]

mod block;
pub mod counter;
pub mod fewest;
pub mod neighbours;
pub mod refusal;
pub mod rule;
pub mod server;
pub mod shortest;
pub mod table;
#[cfg(test)]
mod tests;
pub mod weight;
pub mod width;
