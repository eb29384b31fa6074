// The counter: what a list of rules does with all addresses.
ghost use Rattle.std.specs.Prelude.{◌≡◌, ◌+◌, ◌^◌, ◌≤◌, true, length, position, IfOk};
ghost use Rattle.rules.specs.Blocks.{Shared, Totals, meets, whole_block};
ghost use Rattle.rules.specs.Counts.{Counted};
ghost use Rattle.rules.specs.Grounds.{count_grounds};
ghost use Rattle.rules.specs.Prefixes.{all_fit};
ghost use Rattle.rules.specs.Refusals.{first, refusal};

use crate::block::Block;
use crate::refusal::Refusal;
use crate::rule::Rule;
use crate::server::Server;
use crate::weight::Weight;
use crate::width::Width;

// The addresses of each server and those that no rule matches, and by how many rules the list exceeds the fewest of its weight, where all are matched.
#[derive(Clone, Copy, PartialEq, Eq, Debug)]
pub struct Count {
    pub one: u32,
    pub two: u32,
    pub unmatched: u32,
    pub excess: Option<u32>,
}

// The rules may stand in any order, and the first that matches an address decides.
pub fn count_addresses(width: u32, rules: &[Rule]) -> Result<Count, Refusal>
    ensures refused { refusal result ≡ first (count_grounds width rules.now) }
    ensures counted { IfOk result (λ c. Counted width rules.now c) }
{
    let width = Width::new(width)?;
    if rules.len() > 1024 {
        return Err(Refusal::RuleCountOutOfRange);
    }
    if !all_fit(width, rules) {
        return Err(Refusal::BrokenLayout);
    }
    let list = RuleList { width, rules };
    Ok(list.count())
}

fn all_fit(width: Width, rules: &[Rule]) -> bool
    ensures { result ≡ all_fit width.bits rules.now }
{
    rules.iter().all(|rule| rule.fits(width))
}

// Rules in the order in which they decide.
#[derive(Clone, Copy)]
struct RuleList<'a> {
    width: Width,
    rules: &'a [Rule],
    ghost fit: { all_fit width.bits rules.now ≡ true },
}

impl<'a> RuleList<'a> {
    fn count(self) -> Count
        requires { length self.rules.now ≤ 1024 }
        ensures { Counted self.entry.width.bits self.entry.rules.now result }
    {
        let shares = self.all_shares();
        let weight = Weight {
            width: self.width,
            addresses: shares.one,
        };
        let excess = if shares.unmatched == 0 {
            Some(self.rules.len() as u32 - weight.fewest_rules())
        } else {
            None
        };
        // Kept field by field: `Count` is what callers see.
        Count {
            one: shares.one,
            two: shares.two,
            unmatched: shares.unmatched,
            excess,
        }
    }

    // How all addresses of the width are shared out.
    fn all_shares(self) -> Shares
        ensures { Totals self.entry.width.bits self.entry.rules.now result }
    {
        self.shares(Block {
            start: 0,
            bits: self.width.bits(),
        })
    }

    // Counts by halves. A block that one rule decides is not cut, and its halves look only at the rules from the first on that meets the block.
    fn shares(self, block: Block) -> Shares
        ensures shared { Shared self.entry.width.bits self.entry.rules.now block.start (2 ^ block.bits) result }
        ensures all { result.one + result.two + result.unmatched ≡ 2 ^ block.bits }
    {
        let Some(index) = self.first_meeting(block) else {
            return whole(None, block.addresses());
        };
        let (_, rules) = self.rules.split_at(index);
        let rule = rules[0];
        if rule.block(self.width).covers(block) {
            return whole(Some(rule.server), block.addresses());
        }
        let list = RuleList {
            width: self.width,
            rules,
        };
        let (low, high) = block.halves();
        let low = list.shares(low);
        let high = list.shares(high);
        Shares {
            one: low.one + high.one,
            two: low.two + high.two,
            unmatched: low.unmatched + high.unmatched,
        }
    }

    // The place of the first rule that meets the block.
    fn first_meeting(self, block: Block) -> Option<usize>
        ensures { result ≡ position (meets self.entry.width.bits block.start (2 ^ block.bits)) self.entry.rules.now }
    {
        self.rules
            .iter()
            .position(|rule| rule.block(self.width).meets(block))
    }
}

// How the addresses of a block are shared out.
#[derive(Clone, Copy)]
pub(crate) struct Shares {
    one: u32,
    two: u32,
    unmatched: u32,
}

fn whole(answer: Option<Server>, addresses: u32) -> Shares
    ensures { result ≡ whole_block answer addresses }
{
    let none = Shares {
        one: 0,
        two: 0,
        unmatched: 0,
    };
    match answer {
        Some(Server::One) => Shares {
            one: addresses,
            ..none
        },
        Some(Server::Two) => Shares {
            two: addresses,
            ..none
        },
        None => Shares {
            unmatched: addresses,
            ..none
        },
    }
}
