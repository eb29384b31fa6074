// Code over any reader and any rule memory, proved once by their contracts.
ghost use Rattle.std.specs.Prelude.{◌≡◌, ℕ, ◌+◌, true, if◌then◌else◌, None, MatchBool};
ghost use Rattle.memory.specs.Holding.{at, Exactly, same_server, all_held, among, apart, prefixes_of};

use crate::key::{KeyRule, Prefix};
use crate::reader::Reader;
use crate::rule_memory::RuleMemory;

// Whether a rule of the list has this prefix.
fn names(rules: &[KeyRule], prefix: Prefix) -> bool
    ensures { result ≡ among (prefixes_of rules.now) prefix.value prefix.length }
{
    rules.iter().any(|rule| rule.prefix == prefix)
}

// Whether no two rules of the list have one prefix.
fn are_apart(rules: &[KeyRule]) -> bool
    ensures { result ≡ apart (prefixes_of rules.now) }
{
    let mut rest = rules;
    while let Some((first, others)) = rest.split_first() {
        if names(others, first.prefix) {
            return false;
        }
        rest = others;
    }
    true
}

// Whether the reader holds this rule.
fn holds<R: Reader>(reader: &R, rule: KeyRule) -> bool
    ensures { result ≡ same_server (at (R.Reader.held_at reader.now) rule.prefix) rule.server }
{
    reader.held(rule.prefix) == Some(rule.server)
}

// Whether the reader holds each rule of the list.
fn holds_all<R: Reader>(reader: &R, rules: &[KeyRule]) -> bool
    ensures { result ≡ all_held (R.Reader.held_at reader.now) rules.now }
{
    rules.iter().all(|rule| holds(reader, *rule))
}

// Whether the reader holds exactly the rules of the list: as many as it has, each of them, and so no other.
pub fn holds_exactly<R: Reader>(reader: &R, rules: &[KeyRule]) -> bool
    ensures { MatchBool result (Exactly (R.Reader.held_at reader.now) rules.now) (Exactly (R.Reader.held_at reader.now) rules.now → ⊥) }
{
    reader.count() as usize == rules.len() && are_apart(rules) && holds_all(reader, rules)
}

// Takes the rules at these prefixes out, and tells how many were there. A prefix that breaks its layout has none.
pub fn remove_all<M: RuleMemory>(memory: &mut M, prefixes: &[Prefix]) -> u32
    ensures holds { (v l : ℕ) → M.Reader.held_at memory.new v l ≡ (if among prefixes.now v l then None else M.Reader.held_at memory.old v l) }
    ensures counts { M.Reader.size memory.new + result ≡ M.Reader.size memory.old }
    ensures limit { M.RuleMemory.limit memory.new ≡ M.RuleMemory.limit memory.old }
{
    let before = memory.count();
    // Kept as a loop: after a chain whose closure writes to the memory, a proof would know nothing of it.
    for prefix in prefixes {
        let _ = memory.remove(*prefix);
    }
    before - memory.count()
}
