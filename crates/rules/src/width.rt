// The width: how many bits an address has.
ghost use Rattle.std.specs.Prelude.{◌≡◌, ◌^◌, ◌≤◌, IfOk};
ghost use Rattle.rules.specs.Grounds.{width_grounds};
ghost use Rattle.rules.specs.Refusals.{first, refusal};

use crate::refusal::Refusal;

// A service of width W has the addresses 0 to 2^W - 1.
#[derive(Clone, Copy)]
pub struct Width {
    bits: u32,
    ghost some: { 1 ≤ bits },
    ghost most: { bits ≤ 24 },
    // Follows from the one before, and stands here so that proofs have it at hand.
    ghost small: { 2 ^ bits ≤ 2 ^ 24 },
}

impl Width {
    // Refused outside 1 to 24.
    pub fn new(bits: u32) -> Result<Self, Refusal>
        ensures refused { refusal result ≡ first (width_grounds bits) }
        ensures kept { IfOk result (λ w. w.bits ≡ bits) }
    {
        if bits < 1 || bits > 24 {
            return Err(Refusal::WidthOutOfRange);
        }
        Ok(Width { bits })
    }

    pub fn bits(self) -> u32
        ensures { result ≡ self.bits }
    {
        self.bits
    }

    // How many addresses there are.
    pub fn addresses(self) -> u32
        ensures { result ≡ 2 ^ self.bits }
    {
        power(self.bits)
    }
}

// A shift is said as a power, once for all callers.
pub(crate) fn power(exponent: u32) -> u32
    requires { exponent ≤ 24 }
    ensures { result ≡ 2 ^ exponent }
{
    1 << exponent
}
