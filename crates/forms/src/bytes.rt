// Kinds of bytes, and how many bytes of a kind stand in front.
ghost use Rattle.std.specs.Prelude.{◌≡◌, ◌≤◌, ℕ, Bool, length};
ghost use Rattle.forms.specs.Bytes.{is_letter, is_digit, is_hex_digit, is_item, is_line, front, run_at};

// A kind of bytes, by its test. A kind is a type and not a closure, so that a function over kinds asks
// nothing of its callers.
pub trait Kind {
    ghost test: { ℕ → Bool };

    fn has(b: u8) -> bool
        ensures { result ≡ test b };
}

#[derive(Clone, Copy)]
pub struct Letter;

#[derive(Clone, Copy)]
pub struct Digit;

#[derive(Clone, Copy)]
pub struct HexDigit;

// Neither a blank nor a closing bracket.
#[derive(Clone, Copy)]
pub struct Item;

// No newline.
#[derive(Clone, Copy)]
pub struct Line;

impl Kind for Letter {
    ghost test = { is_letter };

    fn has(b: u8) -> bool {
        b.is_ascii_lowercase()
    }
}

impl Kind for Digit {
    ghost test = { is_digit };

    fn has(b: u8) -> bool {
        b.is_ascii_digit()
    }
}

impl Kind for HexDigit {
    ghost test = { is_hex_digit };

    fn has(b: u8) -> bool {
        Digit::has(b) || matches!(b, b'a'..=b'f')
    }
}

impl Kind for Item {
    ghost test = { is_item };

    fn has(b: u8) -> bool {
        b != b' ' && b != b')'
    }
}

impl Kind for Line {
    ghost test = { is_line };

    fn has(b: u8) -> bool {
        b != b'\n'
    }
}

// How many bytes of a kind stand in front.
pub(crate) fn front<K: Kind>(s: &[u8]) -> usize
    ensures { result ≡ front K.test s.now }
{
    s.iter().take_while(|b| K::has(**b)).count()
}

// The bytes of a kind that stand in a row from a place on.
pub fn run_at<K: Kind>(s: &[u8], at: usize) -> &[u8]
    ensures { result.now ≡ run_at K.test s.now at }
{
    match s.get(at..) {
        Some(rest) => &rest[..front::<K>(rest)],
        None => &[],
    }
}
