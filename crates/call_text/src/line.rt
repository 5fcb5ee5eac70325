// A line of a call list: the variant or the call that it stands for. A line is held against the shape
// of each call's form; where its fields begin is noted, and what they say is read from there.
ghost use Rattle.std.specs.Prelude.{◌≡◌, leb, eqb, get_or, cond, Some, None};
ghost use Rattle.call_text.specs.Line.{is_form, item_at, number_in, is_mark, fits, compare, fields_of, shape_of, placed, found_as, found_in, known, read_variant};

use forms::{bytes, decimal, form, hex};
use tc_aead_cipher::call::CallKind;
use tc_aead_cipher::phase::Direction;
use tc_aead_cipher::variant::SparkleVariant;

// How far a line agrees with a shape: the place reached, and where the last four fields begin. Places and no
// slices, as in `Found`.
#[derive(Clone, Copy)]
pub struct Fields {
    pub(crate) at: usize,
    pub(crate) begin: [usize; 4],
}

// A call in its line: its kind and number, where its runs of bytes begin, and its output's length.
// Places and not slices: so one equation says what is found, and nothing need be said of lengths.
#[derive(Clone, Copy)]
pub struct Found {
    pub(crate) kind: CallKind,
    pub(crate) number: usize,
    pub(crate) first: usize,
    pub(crate) second: usize,
    pub(crate) third: usize,
    pub(crate) room: usize,
}

// The kinds, in the order in which they are looked for.
const KINDS: [CallKind; 9] = [
    CallKind::Init(Direction::Encrypt),
    CallKind::Init(Direction::Decrypt),
    CallKind::Aad,
    CallKind::Data,
    CallKind::Final,
    CallKind::Update,
    CallKind::Output,
    CallKind::Mac,
    CallKind::Reset,
];

// Whether a line is one form and nothing else.
#[tactic(auto, unfolding(crate::specs::Line::is_form))]
fn is_form(s: &[u8]) -> bool
    ensures { result ≡ is_form s.now }
{
    form::form_end(s).is_ok_and(|n| n == s.len())
}

// The item that begins at a place.
#[tactic(auto, unfolding(crate::specs::Line::item_at))]
pub(crate) fn item_at(s: &[u8], at: usize) -> &[u8]
    ensures { result.now ≡ item_at s.now at }
{
    bytes::run_at::<bytes::Item>(s, at)
}

// The number that an item is, or 0; where a number counts, `fits` has seen that it is one.
#[tactic(auto, unfolding(crate::specs::Line::number_in))]
fn number_in(item: &[u8]) -> usize
    ensures { result ≡ number_in item.now }
{
    decimal::decimal(item).unwrap_or(0) as usize
}

// Whether an item can stand at a shape's mark: bytes at `#`, a number at `%`. A mark is a byte and no enum,
// since a shape is text.
#[tactic(auto, unfolding(crate::specs::Line::fits))]
fn fits(mark: u8, item: &[u8]) -> bool
    ensures { result ≡ fits mark item.now }
{
    if mark == b'#' {
        return hex::is_hex(item);
    }
    decimal::decimal(item).is_some()
}

#[tactic(auto, unfolding(crate::specs::Line::is_mark))]
fn is_mark(mark: u8) -> bool
    ensures { result ≡ is_mark mark }
{
    mark == b'#' || mark == b'%'
}

// Whether a byte stands at a place; behind the line none does. The library's `get` gives a reference to be
// compared, which is no plainer.
fn byte_is(s: &[u8], at: usize, b: u8) -> bool
    ensures { result ≡ eqb (get_or s.now at 256) b }
{
    at < s.len() && s[at] == b
}

// One byte of a shape held against the line. A new field is noted behind the last three.
#[tactic(auto, unfolding(crate::specs::Line::compare, crate::specs::Line::past_byte, crate::specs::Line::past_field))]
fn compare(s: &[u8], f: Fields, mark: u8) -> Option<Fields>
    ensures { result ≡ compare s.now f mark }
{
    let at = f.at;
    if is_mark(mark) {
        let item = item_at(s, at);
        if !fits(mark, item) {
            return None;
        }
        let [_, b, c, d] = f.begin;
        return Some(Fields {
            at: at + item.len(),
            begin: [b, c, d, at],
        });
    }
    if !byte_is(s, at, mark) {
        return None;
    }
    Some(Fields { at: at + 1, ..f })
}

// A whole line held against a shape.
fn read_shape(shape: &[u8], s: &[u8]) -> Option<Fields>
    ensures { result ≡ fields_of shape.now s.now }
{
    let mut f = Fields {
        at: 0,
        begin: [0; 4],
    };
    for mark in shape {
        f = compare(s, f, *mark)?;
    }
    if f.at == s.len() { Some(f) } else { None }
}

// The shape of a kind's form.
fn shape_of(kind: CallKind) -> &'static [u8]
    ensures { result.now ≡ shape_of kind }
{
    match kind {
        CallKind::Init(Direction::Encrypt) => b"(init seal (key #) (nonce #) (tag %) (header #))",
        CallKind::Init(Direction::Decrypt) => b"(init open (key #) (nonce #) (tag %) (header #))",
        CallKind::Aad => b"(aad #)",
        CallKind::Data => b"(data # %)",
        CallKind::Final => b"(final %)",
        CallKind::Reset => b"(reset)",
        CallKind::Mac => b"(mac)",
        CallKind::Update => b"(update %)",
        CallKind::Output => b"(output %)",
    }
}

// The length of an output that an item says, where an output may have so many bytes.
fn room_in(item: &[u8]) -> Option<usize>
    ensures { result ≡ cond (leb (number_in item.now) 32768) (Some (number_in item.now)) None }
{
    let n = number_in(item);
    if n <= 32768 { Some(n) } else { None }
}

// The call of a kind, from where its shape's fields begin.
#[tactic(auto, unfolding(crate::specs::Line::placed))]
fn placed(s: &[u8], kind: CallKind, f: Fields) -> Option<Found>
    ensures { result ≡ placed s.now kind f }
{
    let [a, b, c, d] = f.begin;
    let end = s.len();
    let bare = Found {
        kind,
        number: 0,
        first: end,
        second: end,
        third: end,
        room: 0,
    };
    match kind {
        CallKind::Init(_) => Some(Found {
            number: number_in(item_at(s, c)),
            first: a,
            second: b,
            third: d,
            ..bare
        }),
        CallKind::Aad => Some(Found { first: d, ..bare }),
        CallKind::Data => {
            let room = room_in(item_at(s, d))?;
            Some(Found {
                first: c,
                room,
                ..bare
            })
        }
        CallKind::Final => {
            let room = room_in(item_at(s, d))?;
            Some(Found { room, ..bare })
        }
        CallKind::Reset | CallKind::Mac => Some(bare),
        CallKind::Update | CallKind::Output => Some(Found {
            number: number_in(item_at(s, d)),
            ..bare
        }),
    }
}

#[tactic(auto, unfolding(crate::specs::Line::found_as))]
fn found_as(s: &[u8], kind: CallKind) -> Option<Found>
    ensures { result ≡ found_as s.now kind }
{
    placed(s, kind, read_shape(shape_of(kind), s)?)
}

// The call that a line stands for.
#[tactic(auto, unfolding(crate::specs::Line::found_in))]
pub(crate) fn found_in(s: &[u8]) -> Option<Found>
    ensures { result ≡ found_in s.now }
{
    if !is_form(s) {
        return None;
    }
    KINDS.iter().find_map(|kind| found_as(s, *kind))
}

// The variant of a number, where there is one.
fn known(n: usize) -> Option<SparkleVariant>
    ensures { result ≡ known n }
{
    let k = u8::try_from(n).ok()?;
    SparkleVariant::try_from(k).ok()
}

// The variant that a line stands for.
#[tactic(auto, unfolding(crate::specs::Line::read_variant))]
pub(crate) fn variant_in(s: &[u8]) -> Option<SparkleVariant>
    ensures { result ≡ read_variant s.now }
{
    let f = read_shape(b"(variant %)", s)?;
    if !is_form(s) {
        return None;
    }
    known(number_in(item_at(s, f.begin[3])))
}
