// The answers to a list, held to those that it has to have, call by call. An answer is a head of 34
// bytes, and as many bytes more as the last eight of the head say (docs/HOST.md).
ghost use Rattle.std.specs.Prelude.{◌≡◌, ◌<◌, ◌≤◌, IfSome, MatchOption, length, drop};
ghost use Rattle.replay.specs.Answers.{answer_length, bytes_behind};

use super::error::ReplayError;
use super::record;
use std::io;

// How many answers there are, and how many of them differ.
#[derive(Clone, Copy, Default)]
pub(crate) struct Compared {
    pub(crate) calls: u64,
    pub(crate) differences: u64,
}

// The bytes of an answer's head.
const HEAD: usize = 34;

// An answer: what its head says, and the bytes behind it. The number, and 1 or 0 for whether a tag can be
// read, stay the bytes that they are in docs/HOST.md: what differs is said as it stands there.
#[derive(Clone, Copy)]
struct Answer<'a> {
    number: u8,
    readable: u8,
    first: u64,
    second: u64,
    steps: u64,
    length: u64,
    bytes: &'a [u8],
}

impl<'a> Answer<'a> {
    // Nothing where the head is not whole.
    fn new(answer: &'a [u8]) -> Option<Answer<'a>>
        ensures { MatchOption result (length answer.now < 34) (λ a. (34 ≤ length answer.now) × (a.length ≡ bytes_behind answer.now) × (a.bytes.now ≡ drop 34 answer.now)) }
    {
        let (bytes, rest) = answer.split_first_chunk::<2>()?;
        let (first, rest) = rest.split_first_chunk::<8>()?;
        let (second, rest) = rest.split_first_chunk::<8>()?;
        let (steps, rest) = rest.split_first_chunk::<8>()?;
        let (length, rest) = rest.split_first_chunk::<8>()?;
        Some(Answer {
            number: bytes[0],
            readable: bytes[1],
            first: record::number(*first),
            second: record::number(*second),
            steps: record::number(*steps),
            length: record::number(*length),
            bytes: rest,
        })
    }
}

// The bytes of the answer in front of the rest, where a whole one stands there.
#[tactic(auto, using(crate::proofs::AnswerLaws::answer_none, crate::proofs::AnswerLaws::answer_whole, crate::proofs::AnswerLaws::answer_cut))]
fn answer_len(rest: &[u8]) -> Option<usize>
    ensures value { result ≡ answer_length rest.now }
    ensures head { IfSome result (λ n. 34 ≤ n) }
{
    let answer = Answer::new(rest)?;
    let n = answer.length as usize;
    if n <= answer.bytes.len() {
        Some(HEAD + n)
    } else {
        None
    }
}

// Says a number of two answers where it differs.
fn say_number(rt: &impl Print, name: &str, got: u64, expected: u64) -> io::Result<()> {
    if got != expected {
        print!(rt; ": {name} {got}, expected {expected}")?;
    }
    Ok(())
}

// Says what differs in two answers.
fn say_difference(rt: &impl Print, got: &Answer<'_>, expected: &Answer<'_>) -> io::Result<()> {
    say_number(rt, "number", got.number as u64, expected.number as u64)?;
    say_number(
        rt,
        "tag readable",
        got.readable as u64,
        expected.readable as u64,
    )?;
    say_number(rt, "count or first value", got.first, expected.first)?;
    say_number(rt, "second value", got.second, expected.second)?;
    say_number(rt, "steps", got.steps, expected.steps)?;
    say_number(rt, "length", got.length, expected.length)?;
    if got.bytes != expected.bytes {
        print!(rt; ": the bytes differ")?;
    }
    println!(rt; "")
}

// Says where the answer to a call is another one, and answers whether it is. Printer and numbers stand side
// by side: a struct of them would say no more.
fn differs(
    rt: &impl Print,
    list: u64,
    call: u64,
    got: &[u8],
    expected: &[u8],
) -> Result<bool, ReplayError> {
    if got == expected {
        return Ok(false);
    }
    let got = Answer::new(got).ok_or(ReplayError::Malformed)?;
    let expected = Answer::new(expected).ok_or(ReplayError::Malformed)?;
    print!(rt; "list {list} call {call}")?;
    say_difference(rt, &got, &expected)?;
    Ok(true)
}

// Compares the answers to a list, each with the one that it has to be. There are no fewer bytes of
// the first than of the others. Printer and number stand side by side, as at `differs`.
pub(crate) fn answers(
    rt: &impl Print,
    list: u64,
    mut got: &[u8],
    mut expected: &[u8],
) -> Result<Compared, ReplayError> {
    let mut compared = Compared::default();
    while !expected.is_empty() {
        let n = answer_len(expected).ok_or(ReplayError::Malformed)?;
        let (answer, got_rest) = got.split_at_checked(n).ok_or(ReplayError::Malformed)?;
        let (right, expected_rest) = expected.split_at_checked(n).ok_or(ReplayError::Malformed)?;
        compared.calls = compared.calls.wrapping_add(1);
        if differs(rt, list, compared.calls, answer, right)? {
            compared.differences = compared.differences.wrapping_add(1);
        }
        got = got_rest;
        expected = expected_rest;
    }
    Ok(compared)
}
