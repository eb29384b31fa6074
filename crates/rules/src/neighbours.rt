// The weights nearest to a target that a number of rules can give.
ghost use Rattle.std.specs.Prelude.{◌≡◌, ◌*◌, ◌/◌, ◌^◌, ◌<◌, ◌≤◌, IfOk};
ghost use Rattle.rules.specs.Grounds.{limit_grounds};
ghost use Rattle.rules.specs.Nearby.{Lighter, Heavier};
ghost use Rattle.rules.specs.Refusals.{first, refusal};

use crate::refusal::Refusal;
use crate::weight::Weight;
use crate::width::power;

// The nearest lighter and the nearest heavier weight with at most `limit` rules; a target that few enough rules give is both.
pub fn neighbours(width: u32, target: u32, limit: u32) -> Result<(u32, u32), Refusal>
    ensures refused { refusal result ≡ first (limit_grounds width target limit) }
    ensures lighter { IfOk result (λ pair. Lighter width target limit pair.0) }
    ensures heavier { IfOk result (λ pair. Heavier width target limit pair.1) }
{
    let target = Weight::new(width, target)?;
    if limit == 0 {
        return Err(Refusal::RuleCountOutOfRange);
    }
    // What is heavier for server 1 is lighter for server 2.
    let below = target.lighter(limit);
    let above = target.complement().lighter(limit).complement();
    Ok((below.addresses, above.addresses))
}

impl Weight {
    // The weight cut to the first multiple of 2^a, a from 0 up, that needs few enough rules: what lies between needs more. At the full width one rule
    // is enough.
    fn lighter(self, limit: u32) -> Self
        requires { 0 < limit }
        ensures width { result.width ≡ self.width }
        ensures weight { Lighter self.width.bits self.addresses limit result.addresses }
    {
        let most = self.width.bits();
        let a = (0..most).find(|a| self.cut(*a).fewest_rules() <= limit);
        self.cut(a.unwrap_or(most))
    }

    // Cut to a multiple of 2^a.
    fn cut(self, a: u32) -> Self
        requires { a ≤ self.width.bits }
        ensures width { result.width ≡ self.width }
        ensures addresses { result.addresses ≡ self.addresses / 2 ^ a * 2 ^ a }
    {
        let unit = power(a);
        Weight {
            width: self.width,
            addresses: self.addresses / unit * unit,
        }
    }
}
