// A call of a list (docs/HOST.md): how it is read, and its answer.
ghost use Rattle.std.specs.Prelude.{◌≡◌, ◌+◌, length, MatchOption};
ghost use Rattle.tc_sparkle_aead.specs.Sheet.{step};
ghost use Rattle.dispatch.specs.Called.{call_made};
ghost use Rattle.host.specs.CallList.{kind_read, read_of, IsRead, shown_by, answer_head, answer_of};

use super::bytes;
use dispatch::Call;
use tc_aead_cipher::call::CallKind;
use tc_aead_cipher::phase::Direction;
use tc_aead_cipher::reply::Reply;
use tc_sparkle_aead::aead_cipher;
use tc_sparkle_aead::engine::SparkleEngine;

// The bytes of a call's head, and of an answer's.
const CALL_HEAD: usize = 33;

pub(crate) const ANSWER_HEAD: usize = 34;

// The kind of call that a number means. It is no TryFrom: the kind is a type of another crate, and the
// numbers are those of docs/HOST.md.
#[tactic(auto, unfolding(crate::specs::CallList::kind_read, crate::specs::CallList::kind_at))]
fn kind_read(n: u8) -> Option<CallKind>
    ensures { result ≡ kind_read n }
{
    match n {
        1 => Some(CallKind::Init(Direction::Encrypt)),
        2 => Some(CallKind::Init(Direction::Decrypt)),
        3 => Some(CallKind::Aad),
        4 => Some(CallKind::Data),
        5 => Some(CallKind::Final),
        6 => Some(CallKind::Reset),
        7 => Some(CallKind::Mac),
        8 => Some(CallKind::Update),
        9 => Some(CallKind::Output),
        _ => None,
    }
}

// The call in front of the rest of a list, and what stands behind it; none where it is malformed.
pub(crate) fn read_call(rest: &[u8]) -> Option<(Call<'_>, &[u8])>
    ensures { MatchOption result (None ≡ read_of rest.now) (λ r. IsRead rest.now r.0.kind r.0.number r.0.first.now r.0.second.now r.0.third.now r.1.now) }
{
    let (head, runs) = rest.split_first_chunk::<CALL_HEAD>()?;
    let kind = kind_read(head[0])?;
    let (first, behind) = runs.split_at_checked(bytes::number_at(head, 9))?;
    let (second, behind) = behind.split_at_checked(bytes::number_at(head, 17))?;
    let (third, behind) = behind.split_at_checked(bytes::number_at(head, 25))?;
    let call = Call {
        kind,
        number: bytes::number_at(head, 1),
        first,
        second,
        third,
    };
    Some((call, behind))
}

// How many bytes stand behind the head of a call's answer.
pub(crate) fn shown_len(call: Call<'_>) -> usize
    ensures { result ≡ shown_by call.entry.kind (length call.entry.third.now) }
{
    match call.kind {
        CallKind::Data | CallKind::Final => call.third.len(),
        CallKind::Mac => 32,
        _ => 0,
    }
}

// The head of an answer: the reply, whether a tag can be read, the steps, and how many bytes stand behind.
// It is a slice of 34 bytes and no array: where an array is split off, that there are too few bytes would be
// a case of its own.
fn put_head(head: &mut [u8], r: Reply, readable: bool, steps: u64, n: usize)
    requires { length head.old ≡ 34 }
    ensures { head.new ≡ answer_head r readable steps n }
{
    head[0] = r.number;
    head[1] = u8::from(readable);
    head[2..10].copy_from_slice(&bytes::number_bytes(r.first as u64));
    head[10..18].copy_from_slice(&bytes::number_bytes(r.second as u64));
    head[18..26].copy_from_slice(&bytes::number_bytes(steps));
    head[26..34].copy_from_slice(&bytes::number_bytes(n as u64));
}

// Makes a call and writes its answer: the head, and behind it the output that the call is lent, or the
// tag's array.
pub(crate) fn answer(e: SparkleEngine, call: Call<'_>, out: &mut [u8]) -> SparkleEngine
    requires { length out.old ≡ 34 + shown_by call.kind (length call.third.now) }
    ensures value { result ≡ (step e (call_made call.entry call.entry.third.now)).engine }
    ensures out_after { out.new ≡ answer_of e (call_made call.entry call.entry.third.now) }
{
    let (head, shown) = out.split_at_mut(ANSWER_HEAD);
    if let CallKind::Data | CallKind::Final = call.kind {
        bytes::copy(shown, call.third);
    }
    let called = call.make(e, shown);
    let tag = aead_cipher::mac(called.engine);
    if let CallKind::Mac = call.kind {
        shown.copy_from_slice(&tag.bytes);
    }
    let steps = aead_cipher::steps(called.engine);
    let reply = Reply::from(called.answer);
    put_head(head, reply, tag.readable, steps, shown.len());
    called.engine
}
