// The permutation by the C calling convention: two functions for the benchmark (rust/bench), and
// `sparkle_run`, which starts at any step (docs/HOST.md). The words are lent and changed.
#![tactic(auto)]

ghost use Rattle.std.specs.Prelude.{◌≡◌, ◌/◌, ◌%◌, ◌≤◌, length};
ghost use Rattle.sparkle.specs.Sparkle.{sparkle, sparkle_in};
ghost use Rattle.sparkle_bench.specs.Sizes.{branches_of};
ghost use Rattle.sparkle_bench.specs.Run.{sparkle_run, run_reply};

use sparkle::scalar::{State, StateWords};

// The scalar form; a number of words that no state has counts as 16. C hands over the size as a number.
#[tactic(auto, unfolding(sparkle::specs::Sparkle::state_words))]
#[unsafe(no_mangle)]
pub extern "C" fn sparkle_bench_scalar(state: &mut [u32; 16], words: u32, steps: u32)
    ensures { state.new ≡ sparkle_in (branches_of words) 0 steps state.old }
{
    match StateWords::from_count(words) {
        Some(StateWords::Words8) => run_on::<8>(state, 0, steps),
        Some(StateWords::Words12) => run_on::<12>(state, 0, steps),
        _ => run_on::<16>(state, 0, steps),
    }
}

// The four-group form.
#[unsafe(no_mangle)]
pub extern "C" fn sparkle_bench_groups(state: &mut [u32; 16], steps: u32)
    ensures { state.new ≡ sparkle_in 8 0 steps state.old }
{
    *state = sparkle::sse2::sparkle_opt16(*state, steps);
}

// The permutation on a state of N words.
fn permuted<const N: usize>(words: [u32; N], first: u32, count: u32) -> [u32; N]
    requires { (8 ≤ N) × (N ≤ 16) × (N % 4 ≡ 0) }
    ensures { result ≡ sparkle (N / 2) first count words.entry }
{
    State { words }.run(first, count).words
}

// A run on the state of N words at the head of a slice. N is a constant, so that the copies need no call and
// no array is filled first.
#[tactic(auto, using(crate::proofs::RunLaws::laid_back))]
fn run_on<const N: usize>(words: &mut [u32], first: u32, count: u32)
    requires { (8 ≤ N) × (N ≤ 16) × (N % 4 ≡ 0) × (N ≤ length words.old) }
    ensures { words.new ≡ sparkle_in (N / 2) first count words.old }
{
    let mut state = [0u32; N];
    state.copy_from_slice(&words[..N]);
    words[..N].copy_from_slice(&permuted(state, first, count));
}

// `count` steps from the step `first` on, on a state of `size` words at the head of a slice
// (document 02, 2026-02). Returns 0; or 1, with the words as they were, where the size is none of 8,
// 12 and 16 or the slice is shorter. C hands over the size as a number, and takes the answer as one.
#[tactic(auto, unfolding(sparkle::specs::Sparkle::state_words, crate::specs::Run::begins_with_state, crate::specs::Run::run_reply, crate::specs::Run::sparkle_run))]
#[unsafe(no_mangle)]
pub extern "C" fn sparkle_run(words: &mut [u32], size: u8, first: u32, count: u32) -> u8
    ensures value { result ≡ run_reply size words.old }
    ensures words_after { words.new ≡ sparkle_run size first count words.old }
{
    match StateWords::from_count(size as u32) {
        Some(state) if state.count() <= words.len() => {
            // A const parameter takes no value that is known at run time only.
            match state {
                StateWords::Words8 => run_on::<8>(words, first, count),
                StateWords::Words12 => run_on::<12>(words, first, count),
                StateWords::Words16 => run_on::<16>(words, first, count),
            }
            0
        }
        _ => 1,
    }
}
