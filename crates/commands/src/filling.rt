// The calls of a line that is being read. A caller who knows that the bytes of the line so far are p, in the sense of `Holds`, knows what each call
// answers.
ghost use Rattle.std.specs.Prelude.{◌≡◌, ℕ, ◌<◌, ◌≤◌, List, [], ◌∷◌, ◌++◌, length, IfOk, Decides, MatchOption};
ghost use Rattle.commands.specs.Lines.{Reads, Small};
ghost use Rattle.commands.specs.Pending.{Holds};

use crate::command::Command;
use crate::pending::Pending;
use crate::reading::read_line;
use rules::refusal::Refusal;

impl Pending {
    // An empty line.
    pub fn new() -> Pending
        ensures { Holds [] result }
    {
        Pending {
            bytes: [0; 64],
            len: 0,
            more: false,
        }
    }

    // One byte more. A line feed is a byte like any other.
    pub fn push(&mut self, byte: u8)
        ensures { (p : List ℕ) → Holds p self.old → Holds (p ++ byte ∷ []) self.new }
    {
        if self.len < 64 {
            self.bytes[self.len] = byte;
            self.len += 1;
        } else {
            self.more = true;
        }
    }

    // The whole line so far, if it has at most 64 bytes.
    pub fn line(&self) -> Option<&[u8]>
        ensures { (p : List ℕ) → Holds p self.now → MatchOption result (64 < length p) (λ line. (line.now ≡ p) × (length p ≤ 64)) }
    {
        if self.more {
            None
        } else {
            Some(&self.bytes[..self.len])
        }
    }

    // The command that the line so far spells, however long it is. Every other line is unreadable.
    pub fn read(&self) -> Result<Command, Refusal>
        ensures meaning { (p : List ℕ) → Holds p self.now → Reads p result }
        ensures small { IfOk result Small }
    {
        match self.line() {
            Some(line) => read_line(line),
            None => Err(Refusal::Unreadable),
        }
    }

    // Whether the line so far has no byte.
    pub fn is_empty(&self) -> bool
        ensures { (p : List ℕ) → Holds p self.now → Decides result (p ≡ []) }
    {
        self.len == 0
    }

    // Back to an empty line.
    pub fn clear(&mut self)
        ensures { Holds [] self.new }
    {
        self.len = 0;
        self.more = false;
    }
}
