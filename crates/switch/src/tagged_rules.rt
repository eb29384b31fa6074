// The rules of all tables, one after the other.
ghost use Rattle.std.specs.Prelude.{◌≡◌, [], ◌++◌, length, IfNone};
ghost use Rattle.std.specs.Iterator.{at_most};
ghost use Rattle.std.specs.Option.{option_to_list};
ghost use Rattle.switch.specs.Tabled.{tagged_rules, left_in};
ghost use Rattle.switch.specs.Walked.{rules_left, Gives};

use crate::tables::{Tables, TaggedRule, TaggedRules, key_rule};

impl<'a> Tables<'a> {
    // By rising tag and in table order.
    pub(crate) fn rules(self) -> TaggedRules<'a>
        ensures { rules_left result ≡ tagged_rules self.entry.width.bits self.entry.weights.now }
    {
        TaggedRules {
            tables: self,
            tag: 0,
            table: self.table(0),
        }
    }
}

impl<'a> Iterator for TaggedRules<'a> {
    type Item = TaggedRule;

    ghost next_gives = { Gives };

    ghost remaining = { λ s. at_most (length (rules_left s)) };

    fn next(&mut self) -> Option<TaggedRule> {
        loop {
            if let Some(rule) = self.next_of_tag() {
                return Some(rule);
            }
            if self.tag == 63 {
                return None;
            }
            // Kept as a number that rises: it is the iterator's own state.
            self.table = self.tables.table(self.tag + 1);
            self.tag += 1;
        }
    }
}

impl<'a> TaggedRules<'a> {
    // The next rule of the table at hand.
    #[tactic(auto, unfolding(crate::specs::Walked::rules_left))]
    fn next_of_tag(&mut self) -> Option<TaggedRule>
        ensures tables { self.new.tables ≡ self.old.tables }
        ensures tag { self.new.tag ≡ self.old.tag }
        ensures steps { rules_left self.old ≡ option_to_list result ++ rules_left self.new }
        ensures done { IfNone result (left_in self.new.table ≡ []) }
    {
        let rule = self.table.as_mut()?.next()?;
        Some(TaggedRule {
            tag: self.tag,
            rule,
            key_rule: key_rule(self.tables.width, self.tag, rule),
        })
    }
}
