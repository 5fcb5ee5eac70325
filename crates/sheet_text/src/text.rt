// The texts of document 01's sheet ("Worked by hand"): its title and its lines, each by value.
ghost use Rattle.std.specs.Prelude.{◌≡◌, [], ◌++◌};
ghost use Rattle.tc_aead_cipher.specs.Reply.{outcome_of, refusal_of};
ghost use Rattle.forms.specs.Bytes.{text};
ghost use Rattle.forms.specs.Decimal.{decimal};
ghost use Rattle.sheet_text.specs.Text.{Adds, spaced, outcome_text, name_text, flag_text, refusal_text, line_text, title_text};

use itoa::Buffer;
use std::marker::Model;
use tc_aead_cipher::call::CallKind;
use tc_aead_cipher::reply::Reply;
use tc_aead_cipher::variant::SparkleVariant;

// A text of at most 128 bytes, which lie in the value itself with zeros behind them: there is no heap.
// Its parts are pushed and not written by `write!`, which can fail, as a line can't.
#[derive(Clone, Copy)]
pub struct Text {
    bytes: [u8; 128],
    len: usize,
}

// Contracts see a text as the list of its bytes.
impl Model for Text {
    ghost use Rattle.std.specs.Prelude.{ℕ, ◌≡◌, ◌-◌, ◌≤◌, ◌++◌, List, length, take, drop, replicate};
    ghost use Rattle.std.proofs.Common.{arith, take-append-drop, length-take-le};

    ghost Value = { List ℕ };

    ghost view = { λ t. take t.len t.bytes };

    ghost invariant = { λ t. (t.len ≤ 128) × (length t.bytes ≡ 128) × (drop t.len t.bytes ≡ replicate (128 - t.len) 0) };

    ghost inverse = { λ s. record { bytes = s ++ replicate (128 - length s) 0; len = length s } };

    ghost inverse_ok = { λ t h.
        let within : t.len ≤ length t.bytes = omega (arith, h.0, h.1) in
        let all : take t.len t.bytes ++ replicate (128 - t.len) 0 ≡ t.bytes = (rw (← h.2) (take-append-drop t.len t.bytes)) in
        let back : take t.len t.bytes ++ replicate (128 - length (take t.len t.bytes)) 0 ≡ t.bytes = (rw (length-take-le t.len t.bytes within) all) in
        λ i. record {
          bytes = back i;
          len = length-take-le t.len t.bytes within i;
        } };
}

impl Text {
    // No text.
    pub fn new() -> Self
        ensures { result ≡ [] }
    {
        Text {
            bytes: [0; 128],
            len: 0,
        }
    }

    // The bytes of the text.
    pub fn as_bytes(&self) -> &[u8]
        ensures { result.now ≡ self.now }
    {
        &self.bytes[..self.len]
    }

    // Adds bytes; what passes the array is left out.
    fn push(&mut self, s: &[u8])
        ensures { Adds self.old s.now self.new }
    {
        let at = self.len;
        let n = (128 - at).min(s.len());
        self.bytes[at..at + n].copy_from_slice(&s[..n]);
        self.len = at + n;
    }

    // Adds a number in decimal.
    fn push_number(&mut self, n: u64)
        ensures { Adds self.old (decimal n) self.new }
    {
        let mut digits = Buffer::new();
        self.push(digits.format(n).as_bytes());
    }

    // Adds a blank and a number.
    fn push_spaced(&mut self, n: u64)
        ensures { Adds self.old (text " " ++ decimal n) self.new }
    {
        self.push(b" ");
        self.push_number(n);
    }

    // Adds a refusal's number and as many values as its reply has.
    fn push_refusal(&mut self, reply: Reply)
        ensures { Adds self.old (spaced (refusal_of reply)) self.new }
    {
        self.push_spaced(reply.number as u64);
        match reply.values {
            0 => {}
            1 => self.push_spaced(reply.first as u64),
            _ => {
                self.push_spaced(reply.first as u64);
                self.push_spaced(reply.second as u64);
            }
        }
    }

    // Adds an answer.
    fn push_outcome(&mut self, reply: Reply)
        ensures { Adds self.old (outcome_text (outcome_of reply)) self.new }
    {
        if reply.number == 0 {
            self.push(b"(ok ");
            self.push_number(reply.first as u64);
            self.push(b")");
        } else {
            self.push(b"(no");
            self.push_refusal(reply);
            self.push(b")");
        }
    }
}

// A call's name, which for a start does not show the direction.
fn name(kind: CallKind) -> &'static [u8]
    ensures { result.now ≡ name_text kind }
{
    match kind {
        CallKind::Init(_) => b"init",
        CallKind::Aad => b"aad",
        CallKind::Data => b"data",
        CallKind::Final => b"final",
        CallKind::Reset => b"reset",
        CallKind::Mac => b"mac",
        CallKind::Update => b"update",
        CallKind::Output => b"output",
    }
}

// A flag is text of a sheet, as the names are, and no number.
fn flag(b: bool) -> &'static [u8]
    ensures { result.now ≡ flag_text b }
{
    if b { b"1" } else { b"0" }
}

// A line that is a refusal alone; of a reply, as `line` is.
pub fn refusal(reply: Reply) -> Text
    ensures { result ≡ refusal_text (refusal_of reply) }
{
    let mut refusal = Text::new();
    refusal.push(b"(no");
    refusal.push_refusal(reply);
    refusal.push(b")\n");
    refusal
}

// A line of a sheet: the call, its answer, the steps, and whether a tag can be read.
// It takes a Reply and no Result: the text is of a reply's numbers, and any reply is taken.
pub fn line(kind: CallKind, reply: Reply, steps: u64, readable: bool) -> Text
    ensures { result ≡ line_text kind (record { outcome = outcome_of reply; steps = steps; readable = readable }) }
{
    let mut line = Text::new();
    line.push(b"(");
    line.push(name(kind));
    line.push(b" ");
    line.push_outcome(reply);
    line.push(b" (work ");
    line.push_number(steps);
    line.push(b") (tag ");
    line.push(flag(readable));
    line.push(b"))\n");
    line
}

// The first line of a sheet.
pub fn title(variant: SparkleVariant) -> Text
    ensures { result ≡ title_text variant }
{
    let mut title = Text::new();
    title.push(b"(sheet (variant ");
    title.push_number(u64::from(u8::from(variant)));
    title.push(b"))\n");
    title
}
