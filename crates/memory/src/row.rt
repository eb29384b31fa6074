// A row of the slots: a rule whose prefix is well formed, and the last key that the prefix covers, so that a look compares and computes nothing.
ghost use Rattle.std.specs.Prelude.{◌≡◌, ◌+◌, ◌-◌, ◌^◌, true};
ghost use Rattle.memory.specs.Keys.{formed};

use crate::key::KeyRule;

#[derive(Clone, Copy)]
pub struct Row {
    pub rule: KeyRule,
    pub last: u32,
    ghost whole: { formed rule.prefix.value rule.prefix.length ≡ true },
    ghost reach: { last + 1 ≡ rule.prefix.value + 2 ^ (32 - rule.prefix.length) },
}
