// Document 01's sheet ("Worked by hand"): the calls given there on a new engine of variant 1, all
// contents zero, and a line for each made from its answer. The calls go through the lent engine and
// AeadParamsRef. The file stdout holds the printed block.
#![tactic(auto)]

ghost use Rattle.std.specs.Prelude.{◌≡◌};
ghost use Rattle.tc_sparkle_aead.specs.Calls.{process_aad_bytes, process_bytes, process_bytes_out, do_final, do_final_out};

use entry_calls::aead_params_ref::AeadParamsRef;
use entry_calls::{aead_cipher, aead_params_ref};
use sheet_text::text;
use std::io;
use tc_aead_cipher::call::CallKind;
use tc_aead_cipher::phase::Direction;
use tc_aead_cipher::refusal;
use tc_aead_cipher::refusal::Refusal;
use tc_aead_cipher::reply::Reply;
use tc_aead_cipher::variant::SparkleVariant;
use tc_sparkle_aead::engine;
use tc_sparkle_aead::engine::SparkleEngine;

// Writes the line of a call, from its answer and the engine afterwards.
fn show(
    rt: &impl Print,
    e: &SparkleEngine,
    kind: CallKind,
    answer: Result<usize, Refusal>,
) -> io::Result<()> {
    let steps = aead_cipher::steps(e);
    let tag = aead_cipher::mac(e);
    rt.write_all(text::line(kind, Reply::from(answer), steps, tag.readable).as_bytes())
}

// A sealing start without initial header.
fn init(rt: &impl Print, e: &mut SparkleEngine) -> io::Result<()> {
    let zeros = [0; 16];
    let params = AeadParamsRef::new(&zeros, &zeros, 16, b"");
    let answer = aead_params_ref::init_with(e, Direction::Encrypt, params);
    let kind = CallKind::Init(Direction::Encrypt);
    show(rt, e, kind, refusal::start_answer(answer))
}

// The calls of the sheet, each with its line: what a call leaves is said, whether or not its line is written. One
// function for the three would take the call as a closure, and be no shorter.
fn process_aad_bytes(rt: &impl Print, e: &mut SparkleEngine, input: &[u8]) -> io::Result<()>
    ensures engine_after { e.new ≡ (process_aad_bytes e.old input.now).engine }
{
    let answer = aead_cipher::process_aad_bytes(e, input);
    show(rt, e, CallKind::Aad, refusal::call_answer(answer))
}

fn process_bytes(
    rt: &impl Print,
    e: &mut SparkleEngine,
    input: &[u8],
    output: &mut [u8],
) -> io::Result<()>
    ensures engine_after { e.new ≡ (process_bytes e.old input.now output.old).engine }
    ensures output_after { output.new ≡ process_bytes_out e.old input.now output.old }
{
    let answer = aead_cipher::process_bytes(e, input, output);
    show(rt, e, CallKind::Data, refusal::call_answer(answer))
}

fn do_final(rt: &impl Print, e: &mut SparkleEngine, output: &mut [u8]) -> io::Result<()>
    ensures engine_after { e.new ≡ (do_final e.old output.old).engine }
    ensures output_after { output.new ≡ do_final_out e.old output.old }
{
    let answer = aead_cipher::do_final(e, output);
    show(rt, e, CallKind::Final, refusal::call_answer(answer))
}

fn main(rt: HostRuntime) -> io::Result<()> {
    let variant = SparkleVariant::Schwaemm128_128;
    rt.write_all(text::title(variant).as_bytes())?;
    let mut e = engine::new(variant);
    init(&rt, &mut e)?;
    process_aad_bytes(&rt, &mut e, &[0; 20])?;
    process_bytes(&rt, &mut e, &[0; 33], &mut [0; 32])?;
    process_aad_bytes(&rt, &mut e, &[0; 1])?;
    do_final(&rt, &mut e, &mut [0; 16])?;
    do_final(&rt, &mut e, &mut [0; 17])?;
    process_bytes(&rt, &mut e, b"", &mut [])?;
    init(&rt, &mut e)
}
