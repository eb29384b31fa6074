// The way down a trie over the bits of a key, the highest bit first.
ghost use Rattle.std.specs.Prelude.{◌≡◌, ◌≤◌, true, false, MatchOption};
ghost use Rattle.memory.specs.Keys.{formed};
ghost use Rattle.memory.specs.Tries.{Within, Split};

use crate::key::Prefix;

// What is still to walk of a path: `length` of the `height` bits that the value has. The bits behind them are 0.
#[derive(Clone, Copy)]
pub(crate) struct Path {
    height: u32,
    value: u32,
    length: u32,
    ghost within: { Within height length value },
    ghost low: { height ≤ 32 },
}

impl Path {
    // The path to a prefix, if that keeps its layout.
    pub(crate) fn of(prefix: Prefix) -> Option<Path>
        ensures { MatchOption result (formed prefix.value prefix.length ≡ false) (λ p. (formed prefix.value prefix.length ≡ true) × (p.height ≡ 32) × (p.value ≡ prefix.value) × (p.length ≡ prefix.length)) }
    {
        if !prefix.is_well_formed() {
            return None;
        }
        Some(Path {
            height: 32,
            value: prefix.value,
            length: prefix.length,
        })
    }

    // The path along all bits of a key.
    pub(crate) fn whole(key: u32) -> Path
        ensures height { result.height ≡ 32 }
        ensures value { result.value ≡ key }
        ensures length { result.length ≡ 32 }
    {
        Path {
            height: 32,
            value: key,
            length: 32,
        }
    }

    // The first bit, and the path behind it; nothing at the path's end.
    pub(crate) fn split_first(self) -> Option<(bool, Path)>
        ensures { MatchOption result (self.length ≡ 0) (λ x. Split self.height self.length self.value x.0 x.1.height x.1.length x.1.value) }
    {
        if self.length == 0 {
            return None;
        }
        let height = self.height - 1;
        let half = 1u32 << height;
        let bit = half <= self.value;
        let rest = Path {
            height,
            value: if bit { self.value - half } else { self.value },
            length: self.length - 1,
        };
        Some((bit, rest))
    }
}
