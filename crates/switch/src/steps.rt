// The steps of a change, found by their place.
ghost use Rattle.std.specs.Prelude.{◌≡◌, length};
ghost use Rattle.model.specs.Changes.{steps, write_at};
ghost use Rattle.switch.specs.Steps.{removal, placement};

use crate::tables::{Tables, TaggedRule};
use model::write::Write;

// The write at place n, the first at 0, if there are so many. All removals come before all puts.
pub(crate) fn nth_write(standing: Tables, coming: Tables, n: u32) -> Option<Write>
    requires { standing.width ≡ coming.width }
    ensures { result ≡ write_at (steps standing.entry.width.bits standing.entry.weights.now coming.entry.weights.now) n }
{
    let removals = standing.rules().filter_map(|rule| removal(coming, rule));
    let puts = coming.rules().filter_map(|rule| put(standing, rule));
    removals.chain(puts).nth(n as usize)
}

// How many steps there are. Their chain stands here again, since no function can hand out a chain of closures.
pub(crate) fn count_writes(standing: Tables, coming: Tables) -> u32
    requires { standing.width ≡ coming.width }
    ensures { result ≡ length (steps standing.entry.width.bits standing.entry.weights.now coming.entry.weights.now) }
{
    let removals = standing.rules().filter_map(|rule| removal(coming, rule));
    let puts = coming.rules().filter_map(|rule| put(standing, rule));
    removals.chain(puts).count() as u32
}

// A standing rule is removed where the coming tables lack its prefix.
fn removal(coming: Tables, rule: TaggedRule) -> Option<Write>
    ensures { result ≡ removal coming.entry.width.bits coming.entry.weights.now rule }
{
    let prefix = rule.key_rule.prefix;
    match coming.server_at(rule.tag, prefix) {
        Some(_) => None,
        None => Some(Write::Remove(prefix)),
    }
}

// A coming rule is put where the standing tables lack it or send its prefix to the other server.
fn put(standing: Tables, rule: TaggedRule) -> Option<Write>
    ensures { result ≡ placement standing.entry.width.bits standing.entry.weights.now rule }
{
    let TaggedRule { tag, key_rule, .. } = rule;
    if standing.server_at(tag, key_rule.prefix) == Some(key_rule.server) {
        return None;
    }
    Some(Write::Put(key_rule))
}
