// Rule memories whose capacity can be set anew.
ghost use Rattle.std.specs.Prelude.{◌≡◌, ℕ};
ghost use Rattle.memory.specs.Writes.{Fitted};

use crate::rule_memory::RuleMemory;
use rules::refusal::Refusal;

// A rule memory that can be emptied and fitted for any capacity up to its ceiling. The ceiling never changes.
pub trait Fitting: RuleMemory {
    // The ceiling: the largest capacity.
    ghost most: { Self → ℕ };

    fn ceiling(&self) -> u32
        ensures { result ≡ most self.now };

    // Sets the capacity, and empties the memory. Refused above the ceiling. Each memory has its own way to become empty.
    fn fit(&mut self, capacity: u32) -> Result<(), Refusal>
        ensures fitted { Fitted (most self.old) capacity (Self.Reader.held_at self.old) (Self.Reader.held_at self.new) (Self.Reader.size self.old) (Self.Reader.size self.new) (Self.RuleMemory.limit self.old) (Self.RuleMemory.limit self.new) result }
        ensures most { most self.new ≡ most self.old };
}
