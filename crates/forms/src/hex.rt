// Hexadecimal strings: two digits a byte, in lower case, and `-` for no bytes.
ghost use Rattle.std.specs.Prelude.{◌≡◌, ◌+◌, ◌*◌, ◌/◌, ◌<◌, min, length};
ghost use Rattle.forms.specs.Hex.{is_hex, digit_value, byte_at, decoded_out};

use super::bytes::{HexDigit, front};

// Whether the bytes are a hexadecimal string.
#[tactic(auto, unfolding(crate::specs::Hex::is_hex))]
pub fn is_hex(s: &[u8]) -> bool
    ensures { result ≡ is_hex s.now }
{
    if s.is_empty() {
        return false;
    }
    if s.len() == 1 {
        return s[0] == b'-';
    }
    s.len() % 2 == 0 && front::<HexDigit>(s) == s.len()
}

// What a digit says; of any other byte, 0. The library's `to_digit` takes upper case too.
#[tactic(auto, unfolding(crate::specs::Hex::digit_value))]
fn digit_value(b: u8) -> u8
    ensures { result ≡ digit_value b }
{
    match b {
        b'0'..=b'9' => b - b'0',
        b'a'..=b'f' => b - b'a' + 10,
        _ => 0,
    }
}

#[tactic(auto, using(crate::proofs::HexLaws::digit_value_lt), unfolding(crate::specs::Hex::byte_at))]
fn byte_at(s: &[u8], i: usize) -> u8
    requires { i * 2 + 1 < length s.now }
    ensures { result ≡ byte_at s.now i }
{
    let high = digit_value(s[i * 2]);
    let low = digit_value(s[i * 2 + 1]);
    high * 16 + low
}

// Writes what pairs of digits say to the front of `out`, as far as it has room, and answers how many
// bytes that are. A byte that is no digit says 0; `is_hex` tells whether there is one. The answer is
// their number and not a slice of `out`, so that it can be said that what is behind them stays.
// So the loop goes over this number: a zip of pairs and bytes would need it besides.
pub fn decode(s: &[u8], out: &mut [u8]) -> usize
    ensures value { result ≡ min (length s.now / 2) (length out.old) }
    ensures out_after { out.new ≡ decoded_out s.now out.old }
{
    let n = (s.len() / 2).min(out.len());
    for i in 0..n {
        out[i] = byte_at(s, i);
    }
    n
}
