// How long a number is in decimal digits.
ghost use Rattle.std.specs.Prelude.{◌≡◌, ◌≤◌, length, decimal};

// How many digits a number has.
pub(crate) fn digits_of(n: u32) -> u32
    ensures value { result ≡ length (decimal n) }
    ensures few { result ≤ 10 }
{
    if n < 10 { 1 } else { digits_of(n / 10) + 1 }
}
