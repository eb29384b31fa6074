// The text of a table.
ghost use Rattle.std.specs.Prelude.{◌≡◌, ◌+◌, ◌≤◌, true, length, IfOk, string_bytes};
ghost use Rattle.rules.specs.Grounds.{weight_grounds};
ghost use Rattle.rules.specs.Prefixes.{all_fit, weight, Covers};
ghost use Rattle.rules.specs.Refusals.{first};
ghost use Rattle.rules.specs.Shortest.{L};
ghost use Rattle.rules.specs.Walk.{to_come};
ghost use Rattle.shares.specs.Texts.{rule_lines, sum_line, table_answer};

use rules::counter::count_addresses;
use rules::rule::Rule;
use rules::table::Table;
use rules::weight::Weight;
use rules::width::Width;
use std::alloc::{AllocError, Global};
use text::refused::refusal_text;

// The table's rules, and what the counter finds in them, from the longest on, since the longest match decides in a table.
pub(crate) fn table_text(heap: Global, width: u32, weight: u32) -> Result<String, AllocError>
    ensures { IfOk result (λ text. string_bytes text ≡ table_answer width weight (first (weight_grounds width weight))) }
{
    // Kept as a `match`: a refusal is told as text here, while `?` hands on that memory ran out.
    let weight = match Weight::new(width, weight) {
        Ok(weight) => weight,
        Err(why) => return refusal_text(heap, why),
    };
    let mut rules = listed(heap, weight.table())?;
    let mut text = rules_text(heap, rules.as_slice())?;
    rules.reverse();
    let (given, over) = counted(weight.width(), rules.as_slice());
    let line = sum_text(heap, given, rules.len(), over)?;
    text.push_str(line.as_str())?;
    Ok(text)
}

// The weight of rules that leave no address out, and by how many they pass the fewest.
fn counted(width: Width, rules: &[Rule]) -> (u32, u32)
    requires few { length rules.now ≤ 1024 }
    requires fit { all_fit width.bits rules.now ≡ true }
    requires covers { Covers width.bits rules.now }
    ensures weight { result.0 ≡ weight width.bits rules.now }
    ensures over { result.1 + L width.bits (weight width.bits rules.now) ≡ length rules.now }
{
    let count = count_addresses(width.bits(), rules).unwrap();
    (count.one, count.excess.unwrap())
}

fn listed(heap: Global, table: Table) -> Result<Vec<Rule>, AllocError>
    ensures { IfOk result (λ rules. rules.items ≡ to_come table) }
{
    table.collect(heap)
}

fn sum_text(heap: Global, weight: u32, rules: usize, over: u32) -> Result<String, AllocError>
    ensures { IfOk result (λ text. string_bytes text ≡ sum_line weight rules over) }
{
    format!(in heap; "weight {weight} rules {rules} over {over}\n")
}

fn rules_text(heap: Global, rules: &[Rule]) -> Result<String, AllocError>
    ensures { IfOk result (λ text. string_bytes text ≡ rule_lines rules.now) }
{
    let mut text = String::new(heap);
    for rule in rules {
        writeln!(text, "{rule}")?;
    }
    Ok(text)
}
