// The fewest rules that give server 1 a weight.
ghost use Rattle.std.specs.Prelude.{◌≡◌, IfOk};
ghost use Rattle.rules.specs.Digits.{D, DigitLaws};
ghost use Rattle.rules.specs.Grounds.{weight_grounds};
ghost use Rattle.rules.specs.Refusals.{first, refusal};
ghost use Rattle.rules.specs.Shortest.{L, LeastRules};

use crate::refusal::Refusal;
use crate::weight::Weight;

// One rule for all addresses and one for each digit of the weight or of its complement, whichever has fewer. No list of rules that leaves no
// address out gives server 1 this weight with fewer.
pub fn fewest_rules(width: u32, weight: u32) -> Result<u32, Refusal>
    ensures refused { refusal result ≡ first (weight_grounds width weight) }
    ensures count { IfOk result (λ n. n ≡ L width weight) }
    ensures least { IfOk result (λ n. LeastRules width weight n) }
    ensures digits { DigitLaws }
{
    let weight = Weight::new(width, weight)?;
    Ok(weight.fewest_rules())
}

impl Weight {
    pub fn fewest_rules(self) -> u32
        ensures { result ≡ L self.width.bits self.addresses }
    {
        let ones = self.digit_count();
        let twos = self.complement().digit_count();
        1 + ones.min(twos)
    }

    // How many digits other than 0 write it in the digits -1, 0 and 1: they stand where 3n and n differ.
    pub(crate) fn digit_count(self) -> u32
        ensures { result ≡ D self.addresses }
    {
        let n = self.addresses;
        ((3 * n) ^ n).count_ones()
    }
}
