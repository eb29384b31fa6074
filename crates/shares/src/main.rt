// A what-if calculator for one service on the command line.
#![tactic(auto)]

mod nearest;
mod plans;
mod report;
mod request;
mod tables;
#[cfg(test)]
mod tests;

use report::answer;
use std::env;

// Everything that is said about the answer is said of `report::answer`; here it is printed.
fn main(rt: HostRuntime) -> anyhow::Result<()> {
    let words: Vec<String> = env::args(&rt)?.skip(1).collect(rt.alloc())?;
    rt.print(answer(rt.alloc(), words.as_slice())?)?;
    Ok(())
}
