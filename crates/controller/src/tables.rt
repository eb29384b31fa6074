// The shortest table of a weight, written into a buffer of the caller's.
ghost use Rattle.std.specs.Prelude.{◌≡◌, ◌*◌, ◌^◌, ◌<◌, ◌≤◌, ◌++◌, length, drop, MatchResult};
ghost use Rattle.std.specs.List.{AllByRecursion};
ghost use Rattle.rules.specs.Refusals.{first, refusal};
ghost use Rattle.rules.specs.Shortest.{L};
ghost use Rattle.rules.specs.Walk.{to_come};
ghost use Rattle.controller.specs.Answers.{Tabled, Written, table_of};
ghost use Rattle.controller.specs.Grounds.{table_grounds};
ghost use Rattle.controller.specs.Records.{records_of};

use crate::answers::TableAnswer;
use crate::records::record_bytes;
use rules::refusal::Refusal;
use rules::table::Table;
use rules::weight::Weight;

// Writes the records of the table's rules, in the table's order, from the start of `out` on. Refused, nothing is written. A table has at most 13
// rules, so 104 bytes always suffice.
#[tactic(auto, using(rules::proofs::Fewness::L_most))]
#[unsafe(no_mangle)]
pub extern "C" fn splitter_table(width: u32, weight: u32, out: &mut [u8]) -> TableAnswer
    ensures answered { Tabled width weight out.old out.new result (first (table_grounds width weight (length out.old))) }
    ensures most { width ≤ 24 → weight ≤ 2 ^ width → L width weight ≤ 13 }
{
    match write_table(width, weight, out) {
        Ok(rules) => TableAnswer { refusal: 0, rules },
        Err(why) => why.into(),
    }
}

// How many rules were written.
fn write_table(width: u32, weight: u32, out: &mut [u8]) -> Result<u32, Refusal>
    ensures refused { refusal result ≡ first (table_grounds width weight (length out.old)) }
    ensures written { MatchResult result (λ n. Written width weight out.old out.new (table_of n)) (λ _. out.new ≡ out.old) }
{
    let weight = Weight::new(width, weight)?;
    let rules = weight.fewest_rules();
    if out.len() < 8 * rules as usize {
        return Err(Refusal::BufferTooShort);
    }
    write_rules(weight.table(), out);
    Ok(rules)
}

// Kept as a write by place: of a buffer that is written through the chunks that it lends, only the length would be known afterwards.
fn write_rules(table: Table, out: &mut [u8])
    requires small { AllByRecursion (λ rule. rule.length < 256) (to_come table) }
    requires room { 8 * length (to_come table) ≤ length out.old }
    ensures { out.new ≡ records_of (to_come table) ++ drop (8 * length (to_come table)) out.old }
{
    for (place, rule) in table.enumerate() {
        out[8 * place..8 * place + 8].copy_from_slice(&record_bytes(rule));
    }
}
