// The text that answers a command line.
ghost use Rattle.std.specs.Prelude.{◌≡◌, map, IfOk, string_bytes};
ghost use Rattle.shares.specs.Texts.{text_of, Answered};

use crate::nearest::nearest_text;
use crate::plans::plan_text;
use crate::request::{Request, read_request};
use crate::tables::table_text;
use rules::refusal::Refusal;
use std::alloc::{AllocError, Global};
use text::refused::refusal_text;

// The words after the program's name, and the text that answers them.
pub fn answer(heap: Global, words: &[String]) -> Result<String, AllocError>
    ensures { IfOk result (λ text. Answered (map string_bytes words.now) (string_bytes text)) }
{
    match read_request(heap, words)? {
        Some(request) => request_text(heap, request),
        None => refusal_text(heap, Refusal::Unreadable),
    }
}

fn request_text(heap: Global, request: Request) -> Result<String, AllocError>
    ensures { IfOk result (λ text. string_bytes text ≡ text_of request) }
{
    match request {
        Request::Table { width, weight } => table_text(heap, width, weight),
        Request::Nearest {
            width,
            target,
            limit,
        } => nearest_text(heap, width, target, limit),
        Request::Plan {
            width,
            capacity,
            targets,
        } => plan_text(heap, width, capacity, targets.as_slice()),
    }
}
