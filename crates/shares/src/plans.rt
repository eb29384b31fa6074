// The text of a plan.
ghost use Rattle.std.specs.Prelude.{◌≡◌, ◌^◌, ◌≤◌, length, IfOk, slice_get, string_bytes};
ghost use Rattle.plan.specs.ByTag.{Every};
ghost use Rattle.plan.specs.Even.{even};
ghost use Rattle.plan.specs.Plans.{worst_miss, plan_weights, rule_total};
ghost use Rattle.rules.specs.Refusals.{first, refusal};
ghost use Rattle.shares.specs.Texts.{tagged, services_grounds, plan_lines, worst_line, plan_answer};

use plan::even::Even;
use plan::planned::Planned;
use plan::planner::plan;
use rules::fewest::fewest_rules;
use rules::refusal::Refusal;
use rules::width::Width;
use std::alloc::{AllocError, Global};
use std::array;
use text::refused::refusal_text;

// A line for each service, and what the plan comes to.
pub(crate) fn plan_text(
    heap: Global,
    width: u32,
    capacity: u32,
    targets: &[u32],
) -> Result<String, AllocError>
    ensures { IfOk result (λ text. string_bytes text ≡ plan_answer width capacity targets.now (first (services_grounds width capacity targets.now))) }
{
    // Kept as a `match`: a refusal is told as text here, while `?` hands on that memory ran out.
    let width = match Width::new(width) {
        Ok(width) => width,
        Err(why) => return refusal_text(heap, why),
    };
    let planned = match plan_in_order(width, capacity, targets) {
        Ok(planned) => planned,
        Err(why) => return refusal_text(heap, why),
    };
    let mut text = lines_text(heap, width, targets, &planned.weights)?;
    let line = worst_text(heap, planned.worst, planned.rules, capacity)?;
    text.push_str(line.as_str())?;
    Ok(text)
}

// The plan of services with the tags 0, 1, .. under the even measure.
fn plan_in_order(width: Width, capacity: u32, targets: &[u32]) -> Result<Planned, Refusal>
    ensures refused { refusal result ≡ first (services_grounds width.bits capacity targets.now) }
    ensures worst { IfOk result (λ p. p.worst ≡ worst_miss even width.bits capacity (tagged targets.now)) }
    ensures weights { IfOk result (λ p. p.weights ≡ plan_weights even width.bits capacity (tagged targets.now)) }
    ensures inside { IfOk result (λ p. Every (λ d. d ≤ 2 ^ width.bits) p.weights) }
    ensures rules { IfOk result (λ p. p.rules ≡ rule_total width.bits p.weights) }
{
    if targets.len() > 64 {
        return Err(Refusal::TagOutOfRange);
    }
    plan(&Even, width.bits(), capacity, &by_tag(targets))
}

fn by_tag(targets: &[u32]) -> [Option<u32>; 64]
    requires { length targets.now ≤ 64 }
    ensures { result ≡ tagged targets.now }
{
    array::from_fn(
        |tag|
            ensures { result ≡ slice_get targets.entry.now tag }
        { targets.get(tag).copied() },
    )
}

fn lines_text(
    heap: Global,
    width: Width,
    targets: &[u32],
    weights: &[Option<u32>; 64],
) -> Result<String, AllocError>
    requires { Every (λ d. d ≤ 2 ^ width.bits) weights.now }
    ensures { IfOk result (λ text. string_bytes text ≡ plan_lines width.bits targets.now weights.now) }
{
    let mut text = String::new(heap);
    for (target, weight) in targets.iter().zip(weights) {
        if let Some(weight) = weight {
            let rules = fewest_rules(width.bits(), *weight).unwrap();
            writeln!(text, "target {target} weight {weight} rules {rules}")?;
        }
    }
    Ok(text)
}

fn worst_text(heap: Global, worst: u64, rules: u32, capacity: u32) -> Result<String, AllocError>
    ensures { IfOk result (λ text. string_bytes text ≡ worst_line worst rules capacity) }
{
    format!(in heap; "worst {worst} rules {rules} of {capacity}\n")
}
