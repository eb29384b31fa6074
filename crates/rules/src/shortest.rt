// The shortest table of a weight, rule by rule.
ghost use Rattle.std.specs.Prelude.{◌≡◌, ℕ, ◌+◌, ◌-◌, ◌*◌, ◌^◌, ◌<◌, ◌≤◌, ◌∷◌, ◌++◌, length, IfOk, IfNone};
ghost use Rattle.std.specs.Option.{option_to_list};
ghost use Rattle.rules.specs.Digits.{after};
ghost use Rattle.rules.specs.Grounds.{weight_grounds};
ghost use Rattle.rules.specs.Refusals.{first, refusal};
ghost use Rattle.rules.specs.Tables.{all_to, table, ShortestTable};
ghost use Rattle.rules.specs.Walk.{end_at, digits_left, left_at, to_come, Gives};
ghost use Rattle.std.specs.Iterator.{at_most};

use crate::refusal::Refusal;
use crate::rule::Rule;
use crate::server::Server;
use crate::table::Table;
use crate::weight::Weight;
use crate::width::power;

// The rules come in the table's set order, and nothing is allocated. Server 1 gets exactly the addresses below the weight, by the longest match, and
// no list of rules that leaves no address out gives it as many with fewer rules.
pub fn shortest_table(width: u32, weight: u32) -> Result<Table, Refusal>
    ensures refused { refusal result ≡ first (weight_grounds width weight) }
    ensures rules { IfOk result (λ t. to_come t ≡ table width weight) }
    ensures shortest { IfOk result (λ t. ShortestTable width weight (to_come t)) }
{
    let weight = Weight::new(width, weight)?;
    Ok(weight.table())
}

impl Weight {
    // From below unless the complement has fewer digits.
    pub fn table(self) -> Table
        ensures rules { to_come result ≡ table self.width.bits self.addresses }
        ensures shortest { ShortestTable self.width.bits self.addresses (to_come result) }
    {
        let complement = self.complement();
        if self.digit_count() <= complement.digit_count() {
            fresh(Server::Two, self)
        } else {
            fresh(Server::One, complement)
        }
    }
}

fn fresh(first: Server, part: Weight) -> Table
    ensures { to_come result ≡ all_to first ∷ digits_left part.width.bits first part.addresses part.width.bits }
{
    Table {
        opening: Some(Rule {
            start: 0,
            length: 0,
            server: first,
        }),
        first,
        part,
        place: part.width.bits(),
    }
}

impl Iterator for Table {
    type Item = Rule;

    ghost next_gives = { Gives };

    ghost remaining = { λ t. at_most (length (to_come t)) };

    #[tactic(auto, using(crate::proofs::Walking::walked), unfolding(crate::specs::Walk::to_come))]
    fn next(&mut self) -> Option<Rule> {
        if let Some(rule) = self.opening.take() {
            return Some(rule);
        }
        // Where server 1's addresses end so far: digits of 0 do not move it.
        let end = self.end(self.place);
        // Kept as a loop over places: a closure of `find_map` would borrow the table while its place changes.
        for place in (0..self.place).rev() {
            self.place = place;
            if let Some(rule) = self.digit_rule(place, end) {
                return Some(rule);
            }
        }
        None
    }
}

impl Table {
    // The rule of the digit at the place, if it is not 0: it moves the end of server 1's addresses from where it was.
    fn digit_rule(&self, place: u32, old: u32) -> Option<Rule>
        requires place { place < self.now.part.width.bits }
        requires old { old ≡ end_at self.now.part.width.bits self.now.first self.now.part.addresses (place + 1) }
        ensures rule { left_at self.now (place + 1) ≡ option_to_list result ++ left_at self.now place }
        ensures stays { IfNone result (old ≡ end_at self.now.part.width.bits self.now.first self.now.part.addresses place) }
    {
        let new = self.end(place);
        if old == new {
            return None;
        }
        Some(Rule {
            start: old.min(new),
            length: self.part.width.bits() - place,
            server: if old < new { Server::One } else { Server::Two },
        })
    }

    // Where server 1's addresses end once the digits from the place up are worked.
    fn end(&self, place: u32) -> u32
        requires { place ≤ self.now.part.width.bits }
        ensures { result ≡ end_at self.now.part.width.bits self.now.first self.now.part.addresses place }
    {
        let part = self.part.rounded(place);
        match self.first {
            Server::Two => part.addresses,
            Server::One => part.complement().addresses,
        }
    }
}

impl Weight {
    // What its digits from the place up come to: those of 3n less those of n, one place further up.
    fn rounded(self, place: u32) -> Self
        requires { place ≤ self.width.bits }
        ensures width { result.width ≡ self.width }
        ensures value { result.addresses ≡ after place self.addresses * 2 ^ place }
    {
        let n = self.addresses;
        Weight {
            width: self.width,
            addresses: (((3 * n) >> (place + 1)) - (n >> (place + 1))) * power(place),
        }
    }
}
