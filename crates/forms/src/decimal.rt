// Decimal numbers: digits without a leading zero, below 2^64.
ghost use Rattle.std.specs.Prelude.{◌≡◌};
ghost use Rattle.forms.specs.Decimal.{decimal_of, with_digit};

use super::bytes::{Digit, Kind};

// A number with a digit behind it.
#[tactic(auto, using(crate::proofs::FormSteps::digit_refused, crate::proofs::FormSteps::digit_over, crate::proofs::FormSteps::digit_added))]
fn with_digit(n: u64, b: u8) -> Option<u64>
    ensures { result ≡ with_digit n b }
{
    if !Digit::has(b) {
        return None;
    }
    n.checked_mul(10)?.checked_add((b - b'0') as u64)
}

// The number that the bytes are in decimal. The library's `parse` wants a &str, and takes a plus sign and
// leading zeros too.
pub fn decimal(s: &[u8]) -> Option<u64>
    ensures { result ≡ decimal_of s.now }
{
    if s.is_empty() {
        return None;
    }
    if s[0] == b'0' && 1 < s.len() {
        return None;
    }
    let mut n = 0;
    for b in s {
        n = with_digit(n, *b)?;
    }
    Some(n)
}
