// The permutation on 32-bit words one at a time: the Rust's `sparkle_scalar`, `arx_box` and `ell`
// (engine.rs), by value and once for the three sizes.
ghost use Rattle.std.specs.Prelude.{◌≡◌, ◌+◌, ◌/◌, ◌%◌, ◌≤◌};
ghost use Rattle.sparkle.specs.Words.{rotr, ell};
ghost use Rattle.sparkle.specs.Sparkle.{rcon, quarter, arx_box, boxes, linear, step, run, sparkle_in, branches, state_words};

// The round constants.
pub(crate) const RCON: [u32; 8] = [
    0xb7e1_5162,
    0xbf71_5880,
    0x38b4_da56,
    0x324e_7738,
    0xbb11_85eb,
    0x4f7c_7b57,
    0xcfbf_a1c8,
    0xc2b3_293d,
];

// How many words of the array are the state.
#[derive(Clone, Copy)]
pub enum StateWords {
    Words8,
    Words12,
    Words16,
}

// Two methods and no TryFrom and From: a TryFrom would need an error type that nobody reads and a relation
// for its clause, and `usize::from(size)` would not say what is counted.
impl StateWords {
    // The state of so many words, if there is one.
    #[tactic(auto, unfolding(crate::specs::Sparkle::state_words))]
    pub fn from_count(count: u32) -> Option<StateWords>
        ensures { result ≡ state_words count }
    {
        match count {
            8 => Some(StateWords::Words8),
            12 => Some(StateWords::Words12),
            16 => Some(StateWords::Words16),
            _ => None,
        }
    }

    // How many words they are.
    pub fn count(self) -> usize
        ensures { result ≡ branches self + branches self }
    {
        match self {
            StateWords::Words8 => 8,
            StateWords::Words12 => 12,
            StateWords::Words16 => 16,
        }
    }
}

// A branch of the state: the words x and y.
#[derive(Clone, Copy)]
pub struct Branch {
    pub x: u32,
    pub y: u32,
}

// A state of N words, two to a branch: 8, 12 or 16.
#[derive(Clone, Copy)]
pub struct State<const N: usize> {
    pub words: [u32; N],
    pub ghost size: { (8 ≤ N) × (N ≤ 16) × (N % 4 ≡ 0) },
}

// The word x rotated right by n bits: document 01 has rotations in a helper.
#[tactic(auto, using(crate::proofs::Rotate::rotate_right_rotr))]
fn rotate_right(x: u32, n: u32) -> u32
    ensures { result ≡ rotr (n % 32) x }
{
    x.rotate_right(n)
}

// The remainder is document 01's own: ell(x) = (x rotated by 16) xor (x mod 65536).
fn ell(x: u32) -> u32
    ensures { result ≡ ell x }
{
    rotate_right(x, 16) ^ (x % 65536)
}

// RCON[s % 8], by a match: `RCON[s as usize % 8]` takes a register more in each step, and packets of
// 12 words 3 percent more instructions (docs/PERFORMANCE.md, "Fragile points").
#[tactic(auto, unfolding(crate::specs::Sparkle::rcon))]
pub(crate) fn round_constant(s: u32) -> u32
    ensures { result ≡ rcon (s % 8) }
{
    match s % 8 {
        0 => RCON[0],
        1 => RCON[1],
        2 => RCON[2],
        3 => RCON[3],
        4 => RCON[4],
        5 => RCON[5],
        6 => RCON[6],
        _ => RCON[7],
    }
}

// A quarter of the ARX box, with the rotations a and b.
fn quarter(v: Branch, a: u32, b: u32, rc: u32) -> Branch
    ensures { result ≡ quarter (a % 32) (b % 32) rc v }
{
    let x = v.x.wrapping_add(rotate_right(v.y, a));
    Branch {
        x: x ^ rc,
        y: v.y ^ rotate_right(x, b),
    }
}

fn arx_box(rc: u32, x: u32, y: u32) -> Branch
    ensures { result ≡ arx_box rc (record { x = x; y = y }) }
{
    let a = quarter(Branch { x, y }, 31, 24, rc);
    let b = quarter(a, 17, 17, rc);
    let c = quarter(b, 0, 31, rc);
    quarter(c, 24, 16, rc)
}

impl<const N: usize> State<N> {
    // A box on each branch.
    fn boxes(self) -> Self
        ensures { result.words ≡ boxes 0 self.entry.words }
    {
        let mut words = self.words;
        // By index, as the specification counts branches: a turn reads and writes two words of one array.
        for i in 0..N / 2 {
            let b = arx_box(RCON[i], words[2 * i], words[2 * i + 1]);
            words[2 * i] = b.x;
            words[2 * i + 1] = b.y;
        }
        State { words }
    }

    // The linear layer: the right half takes up the left one and ell of its words, and moves by a
    // branch as it becomes the left half.
    fn linear(self) -> Self
        ensures { result.words ≡ linear (N / 2) self.entry.words }
    {
        let old = self.words;
        let mut x = 0;
        let mut y = 0;
        // Both loops go by index, as the specification does: a branch is written at another place than it is read.
        for i in 0..N / 4 {
            x ^= old[2 * i];
            y ^= old[2 * i + 1];
        }
        let to_x = ell(y);
        let to_y = ell(x);
        let mut words = old;
        for i in 0..N / 4 {
            let left = 2 * i;
            let right = N / 2 + left;
            let moved = (right - 2) % (N / 2);
            words[moved] = old[left] ^ old[right] ^ to_x;
            words[moved + 1] = old[left + 1] ^ old[right + 1] ^ to_y;
            words[right] = old[left];
            words[right + 1] = old[left + 1];
        }
        State { words }
    }

    // Step s.
    fn step(self, s: u32) -> Self
        ensures { result.words ≡ step (N / 2) s self.entry.words }
    {
        let mut words = self.words;
        words[1] ^= round_constant(s);
        words[3] ^= s;
        State { words }.boxes().linear()
    }

    // `count` steps from the step `first` on, whose number wraps at 2^32 (document 02, 2026-02).
    pub fn run(self, first: u32, count: u32) -> Self
        ensures { result.words ≡ run (N / 2) first count self.entry.words }
    {
        let mut state = self;
        for i in 0..count {
            state = state.step(first.wrapping_add(i));
        }
        state
    }
}

// The permutation on the first N words of an array.
fn sparkle_head<const N: usize>(w: [u32; 16], first: u32, count: u32) -> [u32; 16]
    requires { (8 ≤ N) × (N ≤ 16) × (N % 4 ≡ 0) }
    ensures { result ≡ sparkle_in (N / 2) first count w }
{
    let mut words = [0u32; N];
    words.copy_from_slice(&w[..N]);
    let state = State { words }.run(first, count);
    let mut result = w;
    result[..N].copy_from_slice(&state.words);
    result
}

// The permutation with `count` steps from the step `first` on, whose number wraps at 2^32 (document
// 02, 2026-02); the words beyond the state's stay as they are. The match chooses an instance: a const
// parameter takes no value that is known at run time only.
pub fn sparkle_scalar(w: [u32; 16], size: StateWords, first: u32, count: u32) -> [u32; 16]
    ensures { result ≡ sparkle_in (branches size) first count w }
{
    match size {
        StateWords::Words8 => sparkle_head::<8>(w, first, count),
        StateWords::Words12 => sparkle_head::<12>(w, first, count),
        StateWords::Words16 => sparkle_head::<16>(w, first, count),
    }
}
