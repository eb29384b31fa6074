// Memories of prefix rules over keys of 32 bits.
#![tactic(auto)]

pub mod branches;
pub mod contents;
pub mod fitting;
pub mod key;
mod path;
pub mod reader;
mod row;
pub mod rule_memory;
pub mod slots;
#[cfg(test)]
mod tests;
mod trie;
