// The weight: how many of a width's addresses a server gets, or should get. Where nothing else is said it is server 1.
ghost use Rattle.std.specs.Prelude.{◌≡◌, ◌-◌, ◌^◌, ◌≤◌, min, IfOk};
ghost use Rattle.rules.specs.Grounds.{weight_grounds};
ghost use Rattle.rules.specs.Refusals.{first, refusal};

use crate::refusal::Refusal;
use crate::width::Width;

#[derive(Clone, Copy)]
pub struct Weight {
    pub(crate) width: Width,
    pub(crate) addresses: u32,
    ghost inside: { addresses ≤ 2 ^ width.bits },
}

impl Weight {
    // Refused as the width is, and then where the width has fewer addresses.
    pub fn new(width: u32, addresses: u32) -> Result<Self, Refusal>
        ensures refused { refusal result ≡ first (weight_grounds width addresses) }
        ensures kept { IfOk result (λ w. (w.width.bits ≡ width) × (w.addresses ≡ addresses)) }
    {
        let width = Width::new(width)?;
        if addresses > width.addresses() {
            return Err(Refusal::BeyondWidth);
        }
        Ok(Weight { width, addresses })
    }

    // All addresses where the width has fewer.
    pub fn capped(width: Width, addresses: u32) -> Self
        ensures width { result.width ≡ width }
        ensures addresses { result.addresses ≡ min addresses (2 ^ width.bits) }
    {
        Weight {
            width,
            addresses: addresses.min(width.addresses()),
        }
    }

    pub fn width(self) -> Width
        ensures { result ≡ self.width }
    {
        self.width
    }

    pub fn addresses(self) -> u32
        ensures { result ≡ self.addresses }
    {
        self.addresses
    }

    // What it leaves to server 2.
    pub fn complement(self) -> Self
        ensures width { result.width ≡ self.width }
        ensures addresses { result.addresses ≡ 2 ^ self.width.bits - self.addresses }
    {
        Weight {
            width: self.width,
            addresses: self.width.addresses() - self.addresses,
        }
    }
}

impl Width {
    // The width of a weight: refused as the weight is.
    pub fn for_weight(bits: u32, weight: u32) -> Result<Self, Refusal>
        ensures refused { refusal result ≡ first (weight_grounds bits weight) }
        ensures kept { IfOk result (λ w. (w.bits ≡ bits) × (weight ≤ 2 ^ bits)) }
    {
        Ok(Weight::new(bits, weight)?.width)
    }
}
