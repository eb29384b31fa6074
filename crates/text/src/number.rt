// Decimal numbers.
ghost use Rattle.std.specs.Prelude.{◌≡◌, ℕ, ◌^◌, ◌<◌, decimal, MatchOption, ◌≢◌};

// A number below 2^32 in decimal digits, with no zero in front but for 0 itself. Every other text is no number.
pub fn read_number(text: &[u8]) -> Option<u32>
    ensures { MatchOption result ((n : ℕ) → n < 2 ^ 32 → text.now ≢ decimal n) (λ n. text.now ≡ decimal n) }
{
    if text.len() == 0 || text.len() > 10 || (text[0] == b'0' && text.len() > 1) {
        return None;
    }
    // Kept as a loop over the digits: the library's `parse`, behind a look whether the bytes are text, took twice as long.
    let mut value: u64 = 0;
    for digit in text {
        if *digit < b'0' || *digit > b'9' {
            return None;
        }
        value = value * 10 + (*digit - b'0') as u64;
    }
    if value >= 0x1_0000_0000 {
        return None;
    }
    Some(value as u32)
}

#[cfg(test)]
mod tests {
    use super::read_number;

    #[test]
    fn numbers(rt: HostRuntime) {
        assert_eq!(rt; read_number(b"0"), Some(0));
        assert_eq!(rt; read_number(b"4294967295"), Some(4_294_967_295));
        assert_eq!(rt; read_number(b"4294967296"), None);
        assert_eq!(rt; read_number(b"00"), None);
        assert_eq!(rt; read_number(b"+1"), None);
        assert_eq!(rt; read_number(b"1 "), None);
        assert_eq!(rt; read_number(b""), None);
    }
}
