// A prefix rule.
ghost use Rattle.std.specs.Prelude.{◌≡◌, ◌-◌, true, Some};
ghost use Rattle.rules.specs.Prefixes.{fits};
ghost use Rattle.rules.specs.Texts.{rule_text};

use crate::block::Block;
use crate::server::Server;
use crate::width::{Width, power};
use std::fmt;

// At width W the rule matches the 2^(W - length) addresses from `start` on, and sends them to `server`. Any numbers may be handed in: `fits` of
// the specifications says which of them make a rule.
#[derive(Clone, Copy, PartialEq, Eq, Debug)]
pub struct Rule {
    pub start: u32,
    pub length: u32,
    pub server: Server,
}

impl Rule {
    // Whether it keeps the layout.
    pub(crate) fn fits(self, width: Width) -> bool
        ensures { result ≡ fits width.bits self }
    {
        self.length <= width.bits()
            && self.start < width.addresses()
            && self.start % power(width.bits() - self.length) == 0
    }

    // The addresses that it matches.
    pub(crate) fn block(self, width: Width) -> Block
        requires { fits width.bits self ≡ true }
        ensures start { result.start ≡ self.start }
        ensures bits { result.bits ≡ width.bits - self.length }
    {
        Block {
            start: self.start,
            bits: width.bits() - self.length,
        }
    }
}

impl fmt::Display for Rule {
    ghost output = { λ rule. Some (rule_text rule) };

    fn fmt<W: fmt::Write>(&self, f: &mut fmt::Formatter<W>) -> fmt::Result {
        let start = self.start;
        let length = self.length;
        let server = self.server;
        write!(f, "{start} {length} {server}")
    }
}
