// Blocks of addresses: those that a rule matches, and those into which the counter cuts all addresses.
ghost use Rattle.std.specs.Prelude.{◌≡◌, ◌+◌, ◌^◌, ◌<◌, ◌≤◌, ◌&&◌, nat_le, nat_lt};

use crate::width::power;

// The 2^bits addresses from `start` on.
#[derive(Clone, Copy)]
pub(crate) struct Block {
    pub(crate) start: u32,
    pub(crate) bits: u32,
    ghost narrow: { bits ≤ 24 },
    ghost inside: { start + 2 ^ bits ≤ 2 ^ 24 },
}

impl Block {
    pub(crate) fn addresses(self) -> u32
        ensures { result ≡ 2 ^ self.bits }
    {
        power(self.bits)
    }

    // The first number behind its addresses.
    fn end(self) -> u32
        ensures { result ≡ self.start + 2 ^ self.bits }
    {
        self.start + self.addresses()
    }

    pub(crate) fn halves(self) -> (Self, Self)
        requires { 0 < self.bits }
        ensures low { (result.0.start ≡ self.start) × (result.0.bits + 1 ≡ self.bits) }
        ensures high { (result.1.start ≡ self.start + 2 ^ result.0.bits) × (result.1.bits ≡ result.0.bits) }
        ensures all { 2 ^ self.bits ≡ 2 ^ result.0.bits + 2 ^ result.1.bits }
    {
        let bits = self.bits - 1;
        let start = self.start + power(bits);
        (
            Block {
                start: self.start,
                bits,
            },
            Block { start, bits },
        )
    }

    pub(crate) fn meets(self, other: Self) -> bool
        ensures { result ≡ (nat_lt self.start (other.start + 2 ^ other.bits) && nat_lt other.start (self.start + 2 ^ self.bits)) }
    {
        self.start < other.end() && other.start < self.end()
    }

    pub(crate) fn covers(self, other: Self) -> bool
        ensures { result ≡ (nat_le self.start other.start && nat_le (other.start + 2 ^ other.bits) (self.start + 2 ^ self.bits)) }
    {
        self.start <= other.start && other.end() <= self.end()
    }
}
