// Rule memories: readers that also take writes, up to their capacity.
ghost use Rattle.std.specs.Prelude.{◌≡◌, ℕ, ◌≤◌, is_some, IfOk};
ghost use Rattle.memory.specs.Holding.{at};
ghost use Rattle.memory.specs.Writes.{Put, Removed};

use crate::key::{KeyRule, Prefix};
use crate::reader::Reader;
use rules::refusal::Refusal;

// A rule memory holds the rules that were put and not removed since. Writes leave all other rules and the capacity as they were.
pub trait RuleMemory: Reader {
    // The capacity: how many rules the memory takes.
    ghost limit: { Self → ℕ };

    // How many rules the memory takes.
    fn capacity(&self) -> u32
        ensures { result ≡ limit self.now };

    // Adds a rule, or replaces the server at its prefix.
    fn put(&mut self, rule: KeyRule) -> Result<(), Refusal>
        ensures rules { Put (Self.Reader.held_at self.old) (Self.Reader.held_at self.new) (Self.Reader.size self.old) (Self.Reader.size self.new) (limit self.old) rule result }
        ensures limit { limit self.new ≡ limit self.old };

    // Takes the rule at a prefix out, and tells whether one was there.
    fn remove(&mut self, prefix: Prefix) -> Result<bool, Refusal>
        ensures rules { Removed (Self.Reader.held_at self.old) (Self.Reader.held_at self.new) (Self.Reader.size self.old) (Self.Reader.size self.new) prefix result }
        ensures tells { IfOk result (λ there. there ≡ is_some (at (Self.Reader.held_at self.old) prefix)) }
        ensures limit { limit self.new ≡ limit self.old };

    // No memory takes more than 65,536 rules.
    ghost most: { (m : Self) → limit m ≤ 65536 };
}
