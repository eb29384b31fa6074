// A finished plan.
ghost use Rattle.std.specs.Prelude.{◌≡◌, length};

// By tag the weight of each service, the worst miss among them, and the rules of all their tables together. The length is a fact of its own, since a
// proof that reads a field does not get what the field's type says of it.
#[derive(Clone, Copy, PartialEq, Eq, Debug)]
pub struct Planned {
    pub weights: [Option<u32>; 64],
    pub worst: u64,
    pub rules: u32,
    ghost long: { length weights ≡ 64 },
}
