// The console: lines taken apart, orders run to rest, and answers as text.
#![tactic(auto)]

pub mod command;
pub mod console;
pub mod filling;
pub mod pending;
pub mod reading;
pub mod reply;
pub mod settling;
pub mod telling;
#[cfg(test)]
mod tests;
pub mod texts;
