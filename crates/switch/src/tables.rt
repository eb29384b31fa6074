// The tables of all services, by the weights that the services have.
ghost use Rattle.std.specs.Prelude.{◌≡◌, ◌^◌, ◌<◌, true, false, None, OnSome, slice_index_or};
ghost use Rattle.rules.specs.Prefixes.{fits, all_fit};
ghost use Rattle.plan.specs.Plans.{beyond};
ghost use Rattle.memory.specs.Holding.{at, listed};
ghost use Rattle.model.specs.Keyed.{keyed, table_of, rules_of};
ghost use Rattle.switch.specs.Tabled.{left_in};

use memory::key::{KeyRule, Prefix};
use rules::rule::Rule;
use rules::server::Server;
use rules::table::Table;
use rules::weight::Weight;
use rules::width::Width;

// The weights stand by tag, None where there is no service.
#[derive(Clone, Copy)]
pub(crate) struct Tables<'a> {
    pub(crate) width: Width,
    pub(crate) weights: &'a [Option<u32>; 64],
    ghost fit: { beyond (2 ^ width.bits) weights.now ≡ false },
}

// A rule of the service under a tag, as it is in the service's table and as a memory has it.
#[derive(Clone, Copy)]
pub(crate) struct TaggedRule {
    pub(crate) tag: u32,
    pub(crate) rule: Rule,
    pub(crate) key_rule: KeyRule,
}

// The state from which the rules of all tables come one after the other: those left in the table of `tag`, and then those of the tags behind it. It
// is a type of its own, since a chain that holds closures has no type that a function could hand out.
#[derive(Clone, Copy)]
pub(crate) struct TaggedRules<'a> {
    pub(crate) tables: Tables<'a>,
    pub(crate) tag: u32,
    pub(crate) table: Option<Table>,
    ghost in_range: { tag < 64 },
    ghost fit: { all_fit tables.width.bits (left_in table) ≡ true },
}

impl<'a> Tables<'a> {
    pub(crate) fn new(width: Width, weights: &'a [Option<u32>; 64]) -> Tables<'a>
        requires { beyond (2 ^ width.bits) weights.now ≡ false }
        ensures width { result.width ≡ width }
        ensures weights { result.weights.now ≡ weights.now }
    {
        Tables { width, weights }
    }

    // The server that the table of a tag has at a prefix, if it has the prefix. It is a loop and no `find`, since a closure that keys a rule would have
    // to be told that the rule fits.
    #[tactic(auto, unfolding(model::specs::Keyed::rules_of))]
    pub(crate) fn server_at(self, tag: u32, prefix: Prefix) -> Option<Server>
        ensures { result ≡ at (listed (rules_of self.entry.width.bits self.entry.weights.now tag)) prefix }
    {
        for rule in self.table(tag)? {
            let rule = key_rule(self.width, tag, rule);
            if rule.prefix == prefix {
                return Some(rule.server);
            }
        }
        None
    }

    // The table of a tag, if there is a service under it. Since the weights fit, nothing is capped.
    pub(crate) fn table(self, tag: u32) -> Option<Table>
        ensures rules { left_in result ≡ table_of self.entry.width.bits (slice_index_or self.entry.weights.now tag None) }
        ensures fit { all_fit self.entry.width.bits (left_in result) ≡ true }
        ensures in_range { OnSome result (tag < 64) }
    {
        let weights = self.weights;
        let weight = (*weights.get(tag as usize)?)?;
        Some(Weight::capped(self.width, weight).table())
    }
}

// A rule of a service's table in the keys of its tag.
pub(crate) fn key_rule(width: Width, tag: u32, rule: Rule) -> KeyRule
    requires tag { tag < 64 }
    requires fits { fits width.bits rule ≡ true }
    ensures { result ≡ keyed width.bits tag rule }
{
    KeyRule {
        prefix: Prefix {
            value: tag * width.addresses() + rule.start,
            length: 32 - width.bits() + rule.length,
        },
        server: rule.server,
    }
}
