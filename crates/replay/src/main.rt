// Replays call lists by the boundary's own function and compares all that it answers, byte for byte,
// with what the Rust original did. The file lists is written by rust/replay; of an end in opening
// Aad, where the Rust is known to differ, it has document 01's answer.
#![tactic(auto)]

ghost use Rattle.std.specs.Prelude.{◌≤◌};

mod compare;
mod error;
mod record;

use error::ReplayError;
use std::fs::File;
use std::io;
use std::io::Read;

// How many lists, calls and differences there were so far.
#[derive(Clone, Copy, Default)]
struct Counts {
    lists: u64,
    calls: u64,
    differences: u64,
}

// Says where the run of a list stopped before its end, and answers whether it did: code and place are
// docs/HOST.md's, as C has them. Printer and list stand side by side here and below, as at `differs` of compare.rt.
fn stopped(rt: &impl Print, list: u64, code: u8, place: usize) -> io::Result<bool> {
    if code == 0 {
        return Ok(false);
    }
    println!(rt; "list {list}: code {code} at {place}")?;
    Ok(true)
}

// Says where bytes behind the answers were written, and answers whether they were.
fn behind(rt: &impl Print, list: u64, got: &[u8], expected: &[u8]) -> io::Result<bool> {
    if got == expected {
        return Ok(false);
    }
    println!(rt; "list {list}: bytes behind the answers were written")?;
    Ok(true)
}

// Runs a list and counts it. Its answers have to be the right ones, and behind them the room for
// answers stays as it was.
fn run_list(
    rt: &impl Print,
    counts: &mut Counts,
    list: &[u8],
    right: &[u8],
) -> Result<(), ReplayError> {
    let mut answers = record::ROOM;
    let mut place = 0;
    let code = host::schwaemm_run(list, &mut answers, &mut place);
    let number = counts.lists.wrapping_add(1);
    let early = stopped(rt, number, code, place)?;
    let (got, got_behind) = answers
        .split_at_checked(right.len())
        .ok_or(ReplayError::Malformed)?;
    let compared = compare::answers(rt, number, got, right)?;
    let late = behind(rt, number, got_behind, &record::ROOM[right.len()..])?;
    let differences = compared
        .differences
        .wrapping_add(u64::from(early) + u64::from(late));
    counts.lists = number;
    counts.calls = counts.calls.wrapping_add(compared.calls);
    counts.differences = counts.differences.wrapping_add(differences);
    Ok(())
}

// What stands behind the length n of a list: the list, and its answers.
fn list<R: Read>(
    rt: &impl Print,
    file: &mut R,
    counts: &mut Counts,
    n: usize,
) -> Result<(), ReplayError> {
    let mut list = record::ROOM;
    let mut expected = record::ROOM;
    let list = record::read(file, &mut list, n)?;
    let answers = record::read_number(file)? as usize;
    let expected = record::read(file, &mut expected, answers)?;
    run_list(rt, counts, list, expected)
}

// The file ends here, and has as many lists and calls as it says.
fn end<R: Read>(file: &mut R, counts: &Counts) -> Result<(), ReplayError> {
    let lists = record::read_number(file)?;
    let calls = record::read_number(file)?;
    if lists == counts.lists && calls == counts.calls && record::at_end(file)? {
        Ok(())
    } else {
        Err(ReplayError::Malformed)
    }
}

// A file of more lists than this is taken as malformed: a proved loop ends.
const MOST: u64 = 1_000_000;

// Replays each list and counts it.
fn lists<R: Read>(rt: &impl Print, file: &mut R, counts: &mut Counts) -> Result<(), ReplayError> {
    for _ in 0..MOST {
        let n = record::read_number(file)? as usize;
        if n == 0 {
            return end(file, counts);
        }
        list(rt, file, counts, n)?;
    }
    Err(ReplayError::Malformed)
}

fn replay<R: Read>(rt: &impl Print, file: &mut R) -> io::Result<()> {
    let mut counts = Counts::default();
    let end = lists(rt, file, &mut counts);
    let Counts {
        lists,
        calls,
        differences,
    } = counts;
    match end {
        Ok(()) => println!(rt; "lists {lists} calls {calls} differences {differences}"),
        Err(ReplayError::Malformed) => println!(rt; "the file is malformed after list {lists}"),
        Err(ReplayError::Io(e)) => Err(e),
    }
}

fn main(rt: HostRuntime) -> io::Result<()> {
    match File::open(&rt, "lists") {
        Ok(mut file) => replay(&rt, &mut file),
        Err(e) => {
            eprintln!(rt; "lists: {e}")?;
            println!(rt; "the file cannot be opened")
        }
    }
}
