// The line of a refusal.
ghost use Rattle.std.specs.Prelude.{◌≡◌, IfOk, string_bytes};
ghost use Rattle.text.specs.Refused.{refusal_line};

use rules::refusal::Refusal;
use std::alloc::{AllocError, Global};

pub fn refusal_text(heap: Global, why: Refusal) -> Result<String, AllocError>
    ensures { IfOk result (λ text. string_bytes text ≡ refusal_line why) }
{
    format!(in heap; "no {why}\n")
}

#[cfg(test)]
mod tests {
    use super::refusal_text;
    use rules::refusal::Refusal;
    use std::test::Fail;

    #[test]
    fn refusals(rt: HostRuntime) -> Result<(), Fail> {
        let text = refusal_text(rt.alloc(), Refusal::BufferTooShort)?;
        assert_eq!(rt; text.as_str(), "no 16\n");
        Ok(())
    }
}
