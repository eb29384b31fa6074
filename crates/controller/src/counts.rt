// The counter over the records of a list of rules.
ghost use Rattle.std.specs.Prelude.{◌≡◌, ◌*◌, ◌≤◌, length, IfOk, Some, None, MatchResult};
ghost use Rattle.rules.specs.Refusals.{first, refusal};
ghost use Rattle.rules.specs.declared.refusal.Refusal.TheVariants.{BrokenLayout};
ghost use Rattle.controller.specs.Answers.{Tallied, Read, count_of};
ghost use Rattle.controller.specs.Grounds.{record_grounds};
ghost use Rattle.controller.specs.Records.{rules_in, RecordLaws};

use crate::answers::CountAnswer;
use crate::records::read_rule;
use rules::counter::{Count, count_addresses};
use rules::refusal::Refusal;
use rules::rule::Rule;
use rules::server::Server;
use rules::width::Width;

// Counts what the rules of the records do with all addresses; they may stand in any order, and the first that matches an address decides.
#[tactic(auto, using(crate::proofs::Inverse::record_laws))]
#[unsafe(no_mangle)]
pub extern "C" fn splitter_count(width: u32, records: &[u8]) -> CountAnswer
    ensures answered { Tallied width records.now result (first (record_grounds width records.now)) }
    ensures laws { RecordLaws }
{
    match count_records(width, records) {
        Ok(count) => count.into(),
        Err(why) => why.into(),
    }
}

fn count_records(width: u32, records: &[u8]) -> Result<Count, Refusal>
    ensures refused { refusal result ≡ first (record_grounds width records.now) }
    ensures counted { IfOk result (λ c. Read width records.now (count_of c)) }
{
    // A wrong width is told first, whatever the records are.
    Width::new(width)?;
    if records.len() > 8 * 1024 {
        return Err(Refusal::RuleCountOutOfRange);
    }
    // Kept as an array: an `ArrayVec` fills its free places with defaults, and a rule has none.
    let mut rules = [Rule {
        start: 0,
        length: 0,
        server: Server::One,
    }; 1024];
    let rules = read_rules(records, &mut rules)?;
    count_addresses(width, rules)
}

// Reads the rules into the front of `rules`, and hands that front back.
fn read_rules<'a>(records: &[u8], rules: &'a mut [Rule; 1024]) -> Result<&'a [Rule], Refusal>
    requires { length records.now ≤ 8 * 1024 }
    ensures { MatchResult result (λ read. (length read.now ≤ 1024) × (rules_in records.now ≡ Some read.now)) (λ why. (why ≡ BrokenLayout) × (rules_in records.now ≡ None)) }
{
    // Kept as a write by place: a proof does not know what a loop over a `zip` with `iter_mut` has written.
    for (place, bytes) in records.chunks(8).enumerate() {
        rules[place] = read_rule(bytes)?;
    }
    Ok(&rules[..records.len() / 8])
}
