// The text of the nearest weights.
ghost use Rattle.std.specs.Prelude.{◌≡◌, IfOk, string_bytes};
ghost use Rattle.plan.specs.Nearest.{nearest as nearest_weight};
ghost use Rattle.rules.specs.Grounds.{limit_grounds};
ghost use Rattle.rules.specs.Refusals.{first, refusal};
ghost use Rattle.rules.specs.Shortest.{L};
ghost use Rattle.shares.specs.Texts.{near_line, nearest_answer};

use plan::even::Even;
use plan::measure::Measure;
use plan::nearest::nearest;
use plan::relative::Relative;
use rules::fewest::fewest_rules;
use rules::refusal::Refusal;
use std::alloc::{AllocError, Global};
use text::refused::refusal_text;

// A line for each measure.
pub(crate) fn nearest_text(
    heap: Global,
    width: u32,
    target: u32,
    limit: u32,
) -> Result<String, AllocError>
    ensures { IfOk result (λ text. string_bytes text ≡ nearest_answer width target limit (first (limit_grounds width target limit))) }
{
    // Kept as a `match`: a refusal is told as text here, while `?` hands on that memory ran out.
    let even = match Near::find(&Even, width, target, limit) {
        Ok(even) => even,
        Err(why) => return refusal_text(heap, why),
    };
    let relative = match Near::find(&Relative, width, target, limit) {
        Ok(relative) => relative,
        Err(why) => return refusal_text(heap, why),
    };
    let mut text = even.line(heap, "even")?;
    let line = relative.line(heap, "relative")?;
    text.push_str(line.as_str())?;
    Ok(text)
}

// A weight, by how much it misses, and the rules of its table.
#[derive(Clone, Copy)]
pub(crate) struct Near {
    weight: u32,
    miss: u64,
    rules: u32,
}

impl Near {
    // The nearest weight under a measure.
    fn find<E: Measure>(measure: &E, width: u32, target: u32, limit: u32) -> Result<Self, Refusal>
        ensures refused { refusal result ≡ first (limit_grounds width target limit) }
        ensures weight { IfOk result (λ n. n.weight ≡ nearest_weight (E.Measure.miss measure.now) width target limit) }
        ensures miss { IfOk result (λ n. n.miss ≡ E.Measure.miss measure.now width target n.weight) }
        ensures rules { IfOk result (λ n. n.rules ≡ L width n.weight) }
    {
        let weight = nearest(measure, width, target, limit)?;
        Ok(Near {
            weight,
            miss: measure.miss(width, target, weight),
            rules: fewest_rules(width, weight).unwrap(),
        })
    }

    fn line(self, heap: Global, name: &str) -> Result<String, AllocError>
        ensures { IfOk result (λ text. string_bytes text ≡ near_line name.now self.weight self.miss self.rules) }
    {
        let Near {
            weight,
            miss,
            rules,
        } = self;
        format!(in heap; "{name} {weight} miss {miss} rules {rules}\n")
    }
}
