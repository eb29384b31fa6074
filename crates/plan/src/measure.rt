// What a measure of miss is.
ghost use Rattle.std.specs.Prelude.{◌≡◌, ◌^◌, if◌then◌else◌, Some, None};
ghost use Rattle.plan.specs.Measures.{Misses, Lawful, in_range};

use rules::width::Width;

// How far a weight misses a target, a whole number: 0 is a hit, and 2^40 stands for what is out of range or beyond comparison.
pub trait Measure {
    ghost miss: { Self → Misses };

    fn miss(&self, width: u32, target: u32, weight: u32) -> u64
        ensures { result ≡ miss self.now width target weight };

    ghost lawful: { (s : Self) → Lawful (miss s) };
}

// The largest miss, 2^40. Kept as a number, and no None: the law of all measures speaks of it, and its numbers compare.
pub const FARTHEST: u64 = 1_099_511_627_776;

// How many addresses there are, where all three numbers are in range. Each measure asks for it at its start. Kept as a call of their own: what
// they do with the number differs, and `miss` is the one method that the law speaks of.
pub(crate) fn addresses(width: u32, target: u32, weight: u32) -> Option<u32>
    ensures { result ≡ (if in_range width target weight then Some (2 ^ width) else None) }
{
    let addresses = Width::new(width).ok()?.addresses();
    if target > addresses || weight > addresses {
        return None;
    }
    Some(addresses)
}
