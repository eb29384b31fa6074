// What a controller written in C reaches: the shortest table and the counter, over records of bytes.
#![tactic(auto)]

pub mod answers;
pub mod counts;
mod records;
pub mod tables;
#[cfg(test)]
mod tests;
