// The bracket reader: where a form ends (document 02, 2026-01). A form is an opening bracket, a word,
// then items, each after one blank, and a closing bracket; an item is a word, a decimal number, a
// hexadecimal string or a form. The reader gives positions and not values: an item's place decides
// whether `10` is a number or a byte.
ghost use Rattle.std.specs.Prelude.{◌≡◌};
ghost use Rattle.forms.specs.Form.{is_number, plain_end, open_end, is_open, form_end};

use super::bytes::{Digit, HexDigit, Letter, front};

// Reading stopped at the first byte that cannot stand there, which may be the one that is missing at
// the end. Where it did not stop, the answer is the place behind what was to be read.
#[derive(Clone, Copy, Debug)]
pub struct Stopped {
    pub at: usize,
}

// Whether the first n bytes are a number without a leading zero; n is not 0. The slice goes on behind them, as in
// the definition, which looks at no more.
#[tactic(auto, unfolding(crate::specs::Form::is_number))]
fn is_number(s: &[u8], n: usize) -> bool
    ensures { result ≡ is_number s.now n }
{
    if front::<Digit>(s) < n {
        return false;
    }
    n == 1 || 0 < s.len() && s[0] != b'0'
}

// Behind an item that is not a form.
fn plain_end(s: &[u8]) -> Result<usize, Stopped>
    ensures { result ≡ plain_end s.now }
{
    if s.starts_with(b"-") {
        return Ok(1);
    }
    let letters = front::<Letter>(s);
    let digits = front::<HexDigit>(s);
    if digits <= letters {
        if letters == 0 {
            return Err(Stopped { at: 0 });
        }
        return Ok(letters);
    }
    if digits % 2 == 0 || is_number(s, digits) {
        return Ok(digits);
    }
    Err(Stopped { at: digits })
}

#[tactic(auto, unfolding(crate::specs::Form::is_open))]
fn is_open(s: &[u8]) -> bool
    ensures { result ≡ is_open s.now }
{
    s.starts_with(b"(")
}

// Behind a form's bracket and its word.
#[tactic(auto, using(crate::proofs::BytesLaws::front_le, crate::proofs::FormSteps::from_place), unfolding(crate::specs::Form::open_end))]
fn open_end(s: &[u8]) -> Result<usize, Stopped>
    ensures { result ≡ open_end s.now }
{
    if !is_open(s) {
        return Err(Stopped { at: 0 });
    }
    let n = front::<Letter>(&s[1..]);
    if n == 0 {
        return Err(Stopped { at: 1 });
    }
    Ok(1 + n)
}

// Behind a form that is at most so deep.
fn form_within(s: &[u8], depth: u8) -> Result<usize, Stopped>
    ensures { result ≡ form_end depth s.now }
{
    if depth == 0 {
        return Err(Stopped { at: 0 });
    }
    // Each turn goes past a blank and a whole item. By the place, since the answer is a place too.
    let mut at = open_end(s)?;
    while at < s.len() {
        let b = s[at];
        if b == b')' {
            return Ok(at + 1);
        }
        if b != b' ' {
            break;
        }
        let from = at + 1;
        let rest = &s[from..];
        let item = if is_open(rest) {
            form_within(rest, depth - 1)
        } else {
            plain_end(rest)
        };
        // A refusal's place is moved by a match: `map_err` would need a closure with a contract of its own.
        at = match item {
            Ok(n) => from + n,
            Err(stopped) => return Err(Stopped {
                at: from + stopped.at,
            }),
        };
    }
    Err(Stopped { at })
}

// Behind the form in front, to document 02's depth of four.
pub fn form_end(s: &[u8]) -> Result<usize, Stopped>
    ensures { result ≡ form_end 4 s.now }
{
    form_within(s, 4)
}
