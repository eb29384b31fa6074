// Key rules: which keys of 32 bits go to which server.
ghost use Rattle.std.specs.Prelude.{◌≡◌, ◌-◌, ◌^◌, ◌≤◌};
ghost use Rattle.memory.specs.Keys.{formed};

use rules::server::Server;

// The keys whose first `length` bits are those of `value`. Any numbers may be handed in; a well-formed prefix is at most 32 bits long, and
// the bits of its value that it leaves open are 0.
#[derive(Clone, Copy, PartialEq, Eq, Debug)]
pub struct Prefix {
    pub value: u32,
    pub length: u32,
}

// The keys of a prefix, and the server that they go to.
#[derive(Clone, Copy, PartialEq, Eq, Debug)]
pub struct KeyRule {
    pub prefix: Prefix,
    pub server: Server,
}

// How many keys a prefix of this length covers.
pub(crate) fn breadth(length: u32) -> u64
    requires { length ≤ 32 }
    ensures value { result ≡ 2 ^ (32 - length) }
    ensures low { 1 ≤ result }
    ensures high { result ≤ 2 ^ 32 }
{
    1u64 << (32 - length)
}

impl Prefix {
    // Whether the prefix keeps its layout.
    pub fn is_well_formed(self) -> bool
        ensures { result ≡ formed self.value self.length }
    {
        self.length <= 32 && u64::from(self.value) % breadth(self.length) == 0
    }
}
