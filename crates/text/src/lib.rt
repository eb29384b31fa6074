// What the product's lines and arguments spell: numbers, and refusals.
#![tactic(auto)]

pub mod number;
pub mod refused;
