// Readers: what answers looks by the key rules that it holds.
ghost use Rattle.std.specs.Prelude.{◌≡◌, ℕ, true, is_some, Option};
ghost use Rattle.rules.specs.declared.server.Server.{Server};
ghost use Rattle.memory.specs.Keys.{formed};
ghost use Rattle.memory.specs.Holding.{at, Counted};
ghost use Rattle.memory.specs.Looks.{longest, Answered};

use crate::key::Prefix;
use rules::server::Server;

// A reader means a finite set of key rules, no two of them with one prefix. A question alters nothing.
pub trait Reader {
    // The server of the rule that is held at an exact prefix, a value and a length.
    ghost held_at: { Self → ℕ → ℕ → Option Server };

    // How many rules are held.
    ghost size: { Self → ℕ };

    // The server of the longest match of a key, or none.
    fn look(&self, key: u32) -> Option<Server>
        ensures value { result ≡ longest (held_at self.now) key }
        ensures best { Answered (held_at self.now) key result };

    // The server at one exact prefix, or none; none, too, at a prefix that breaks its layout, since none such is held.
    fn held(&self, prefix: Prefix) -> Option<Server>
        ensures { result ≡ at (held_at self.now) prefix };

    // How many rules are held.
    fn count(&self) -> u32
        ensures { result ≡ size self.now };

    // Only well-formed prefixes are held.
    ghost layout: { (m : Self) (v l : ℕ) → is_some (held_at m v l) ≡ true → formed v l ≡ true };

    // The count is the count of that set: where n different prefixes are held and the count is n, nothing else is.
    ghost counted: { (m : Self) → ∥ Counted (held_at m) (size m) ∥₁ };
}
