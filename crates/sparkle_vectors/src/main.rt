// Permutation vectors: both forms on four states and nine counts of steps. Each line has the form,
// the words of the state, the count of steps and the array's 16 words afterwards, also those beyond
// the state. Then runs that are picked up midway and runs far from step 0, with their first step and
// count, and runs in parts, each part with the number of the next step and how many are left. The
// file stdout is written by rust/vectors, over the Rust original. Two of the runs far from step 0 are
// theorems too (proofs/Vectors.antt).
#![tactic(auto)]

ghost use Rattle.std.specs.Prelude.{◌<◌};

use sparkle::scalar::StateWords;
use sparkle_parts::PartialRun;
use std::io;

// All zeros, the word's place, all ones, and multiples of 0x9e3779b9 modulo 2^32.
const ZEROS: [u32; 16] = [0; 16];

const PLACES: [u32; 16] = [0, 1, 2, 3, 4, 5, 6, 7, 8, 9, 10, 11, 12, 13, 14, 15];

const ONES: [u32; 16] = [0xffff_ffff; 16];

const MULTIPLES: [u32; 16] = [
    0x9e37_79b9,
    0x3c6e_f372,
    0xdaa6_6d2b,
    0x78dd_e6e4,
    0x1715_609d,
    0xb54c_da56,
    0x5384_540f,
    0xf1bb_cdc8,
    0x8ff3_4781,
    0x2e2a_c13a,
    0xcc62_3af3,
    0x6a99_b4ac,
    0x08d1_2e65,
    0xa708_a81e,
    0x4540_21d7,
    0xe377_9b90,
];

// The states that are run.
const STATES: [[u32; 16]; 4] = [ZEROS, PLACES, ONES, MULTIPLES];

// The three sizes of a state.
const SIZES: [StateWords; 3] = [StateWords::Words8, StateWords::Words12, StateWords::Words16];

// The counts of steps that are run from step 0.
const COUNTS: [u32; 9] = [0, 1, 2, 7, 8, 10, 11, 12, 17];

// Runs that are picked up: the step at which, and how many steps follow.
const PICKED_UP: [(u32, u32); 5] = [(1, 6), (2, 8), (7, 5), (8, 9), (12, 5)];

// Runs far from step 0: the size, the first step and the count.
const FAR: [(StateWords, u32, u32); 5] = [
    (StateWords::Words8, 0xffff_ffff, 2),
    (StateWords::Words12, 0x1234_5678, 5),
    (StateWords::Words12, 0xffff_fffd, 7),
    (StateWords::Words16, 0x8000_0000, 4),
    (StateWords::Words16, 0xffff_fffe, 3),
];

fn print_words(rt: &impl Print, w: [u32; 16]) -> io::Result<()> {
    for word in w {
        print!(rt; " {word:08x}")?;
    }
    println!(rt; "")
}

// Array and size stand side by side, as `sparkle_scalar` takes them: a line has all 16 words.
fn scalar(rt: &impl Print, w: [u32; 16], size: StateWords, steps: u32) -> io::Result<()> {
    print!(rt; "scalar {} {steps}", size.count())?;
    print_words(rt, sparkle::scalar::sparkle_scalar(w, size, 0, steps))
}

fn groups(rt: &impl Print, w: [u32; 16], steps: u32) -> io::Result<()> {
    print!(rt; "groups 16 {steps}")?;
    print_words(rt, sparkle::sse2::sparkle_opt16(w, steps))
}

// Each count of steps: in both forms where the state has 16 words.
fn each_count(rt: &impl Print, w: [u32; 16], size: StateWords) -> io::Result<()> {
    for steps in COUNTS {
        scalar(rt, w, size, steps)?;
        if let StateWords::Words16 = size {
            groups(rt, w, steps)?;
        }
    }
    Ok(())
}

// `count` steps from the step `first` on.
fn from(rt: &impl Print, w: [u32; 16], size: StateWords, first: u32, count: u32) -> io::Result<()> {
    print!(rt; "from {} {first} {count}", size.count())?;
    print_words(rt, sparkle::scalar::sparkle_scalar(w, size, first, count))
}

// A run of first + count steps from step 0, picked up at the step `first`.
fn midway(
    rt: &impl Print,
    w: [u32; 16],
    size: StateWords,
    first: u32,
    count: u32,
) -> io::Result<()> {
    print!(rt; "midway {} {first} {count}", size.count())?;
    let begun = sparkle::scalar::sparkle_scalar(w, size, 0, first);
    print_words(
        rt,
        sparkle::scalar::sparkle_scalar(begun, size, first, count),
    )
}

// A run of `count` steps in parts of at most `most`, as the head of `sparkle_parts` shows.
fn parts(rt: &impl Print, w: [u32; 16], size: StateWords, count: u32, most: u32) -> io::Result<()>
    requires { 0 < most }
{
    let mut run = PartialRun {
        size,
        words: w,
        next: 0,
        left: count,
    };
    // A turn goes past a whole part, and what is left is the run's own: no index is counted.
    while 0 < run.left {
        run = run.advance(most);
        print!(rt; "part {} {} {}", size.count(), run.next, run.left)?;
        print_words(rt, run.words)?;
    }
    Ok(())
}

fn main(rt: HostRuntime) -> io::Result<()> {
    for w in STATES {
        for size in SIZES {
            each_count(&rt, w, size)?;
        }
    }
    for w in STATES {
        for size in SIZES {
            for (first, count) in PICKED_UP {
                midway(&rt, w, size, first, count)?;
            }
        }
    }
    for (size, first, count) in FAR {
        from(&rt, PLACES, size, first, count)?;
    }
    parts(&rt, MULTIPLES, StateWords::Words8, 11, 1)?;
    parts(&rt, MULTIPLES, StateWords::Words12, 17, 3)?;
    parts(&rt, MULTIPLES, StateWords::Words16, 12, 5)
}
