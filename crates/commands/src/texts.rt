// Answers as text.
ghost use Rattle.std.specs.Prelude.{◌≡◌, IfOk, string_bytes};
ghost use Rattle.commands.specs.Texts.{ok_line, seen_line};

use crate::reply::Outcome;
use rules::server::Server;
use std::alloc::{AllocError, Global};

// The line of a refusal.
pub use text::refused::refusal_text;

// The line of an order that was run to rest.
pub fn ok_text(heap: Global, outcome: Outcome) -> Result<String, AllocError>
    ensures { IfOk result (λ text. string_bytes text ≡ ok_line outcome.worst outcome.rules outcome.steps) }
{
    let Outcome {
        worst,
        rules,
        steps,
    } = outcome;
    format!(in heap; "ok {worst} {rules} {steps}\n")
}

// The line of a look.
pub fn seen_text(heap: Global, server: Option<Server>) -> Result<String, AllocError>
    ensures { IfOk result (λ text. string_bytes text ≡ seen_line server) }
{
    let number = server.map_or(0, |server| server.number());
    format!(in heap; "s {number}\n")
}
