// The line that is being read, in bounded memory: no line that spells a command is longer than what is kept. The calls are in `filling`.
ghost use Rattle.std.specs.Prelude.{◌≡◌, ◌≤◌, length};

// The first 64 bytes of a line, and whether there were more. Kept as an array with its length: a pending line is copied like a number, and a bounded
// vector is not; and with a flag beside: of a longer line the first 64 bytes are still told. That the array has 64 places is a fact of its own, since a
// proof that reads a field does not get what the field's type says of it.
#[derive(Clone, Copy)]
pub struct Pending {
    pub(crate) bytes: [u8; 64],
    pub(crate) len: usize,
    pub(crate) more: bool,
    ghost long: { length bytes ≡ 64 },
    ghost within: { len ≤ 64 },
}
