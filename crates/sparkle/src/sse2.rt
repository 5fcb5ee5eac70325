// The permutation of 16 words in four groups of four (the Rust's sse2.rs): arrays by value in place
// of `__m128i`, and lane helpers in place of the intrinsics. The helpers are functions of their own, and no
// one function that takes the operation: document 01 asks for them so ("lane helpers for add, xor, shift and
// shuffle"), and `or4` and `and4` are of the same kind.
//
// The compiler makes SSE2 instructions of it where it finds the four lanes alike and no rotation, for
// which SSE2 has no instruction. So a rotation is taken up one shift after the other, and the right
// shift is taken of `t`, which has the high bits of y and not its low ones. The constants of a step
// are a row that is read whole from a table, so that all lanes are alike: of a row written
// `[rc, s, 0, 0]` in the loop the two zeros fold away, and the lanes part. And `step16` has one
// caller, so that it is compiled into `run_rows`. docs/PERFORMANCE.md compares it with other shapes, and the
// gate looks at the instructions.
ghost use Rattle.std.specs.Prelude.{◌≡◌, ℕ, ◌+◌, ◌/◌, ◌%◌, ◌^◌, ◌<◌, ◌≤◌, bit_and, bit_or, bit_xor};
ghost use Rattle.sparkle.specs.Words.{addw, shlw, ell};
ghost use Rattle.sparkle.specs.Sparkle.{quarter, arx_box, step, run, sparkle_in};
ghost use Rattle.sparkle.specs.Lanes.{lanes, lanes2, shuffled, lanes_x, lanes_y, folded, Above, joined, row, rows_from};

use super::scalar;
use super::scalar::RCON;

// The state: words 0, 2, 4, 6, then 1, 3, 5, 7, and so on.
#[derive(Clone, Copy)]
pub struct Groups {
    pub s0246: [u32; 4],
    pub s1357: [u32; 4],
    pub s8ace: [u32; 4],
    pub s9bdf: [u32; 4],
}

// The constants of the first twelve steps, a row for each: row s has RCON[s % 8], the step's number s
// and two zeros, which step s xors into words 1, 3, 5 and 7.
const ROWS: [[u32; 4]; 12] = [
    [RCON[0], 0, 0, 0],
    [RCON[1], 1, 0, 0],
    [RCON[2], 2, 0, 0],
    [RCON[3], 3, 0, 0],
    [RCON[4], 4, 0, 0],
    [RCON[5], 5, 0, 0],
    [RCON[6], 6, 0, 0],
    [RCON[7], 7, 0, 0],
    [RCON[0], 8, 0, 0],
    [RCON[1], 9, 0, 0],
    [RCON[2], 10, 0, 0],
    [RCON[3], 11, 0, 0],
];

// Four branches on the way through a box: the x words, the y words, and words t with the bits of the
// y words from bit FROM on.
#[derive(Clone, Copy)]
struct Lanes<const FROM: u32> {
    x: [u32; 4],
    y: [u32; 4],
    t: [u32; 4],
    ghost above: { Above FROM t y },
}

// The sums of the lanes, without carries out of them. A lane helper for each operation: see the head.
pub fn add4(a: [u32; 4], b: [u32; 4]) -> [u32; 4]
    ensures { result ≡ lanes2 addw a b }
{
    [
        a[0].wrapping_add(b[0]),
        a[1].wrapping_add(b[1]),
        a[2].wrapping_add(b[2]),
        a[3].wrapping_add(b[3]),
    ]
}

// Xor, or and and of the lanes.
pub fn xor4(a: [u32; 4], b: [u32; 4]) -> [u32; 4]
    ensures { result ≡ lanes2 bit_xor a b }
{
    [a[0] ^ b[0], a[1] ^ b[1], a[2] ^ b[2], a[3] ^ b[3]]
}

pub fn or4(a: [u32; 4], b: [u32; 4]) -> [u32; 4]
    ensures { result ≡ lanes2 bit_or a b }
{
    [a[0] | b[0], a[1] | b[1], a[2] | b[2], a[3] | b[3]]
}

pub fn and4(a: [u32; 4], b: [u32; 4]) -> [u32; 4]
    ensures { result ≡ lanes2 bit_and a b }
{
    [a[0] & b[0], a[1] & b[1], a[2] & b[2], a[3] & b[3]]
}

// The lanes shifted left, and right, by n % 32 bits.
pub fn shl4(v: [u32; 4], n: u32) -> [u32; 4]
    ensures { result ≡ lanes (shlw (n % 32)) v }
{
    let k = n % 32;
    [v[0] << k, v[1] << k, v[2] << k, v[3] << k]
}

pub fn shr4(v: [u32; 4], n: u32) -> [u32; 4]
    ensures { result ≡ lanes (λ x. x / 2 ^ (n % 32)) v }
{
    let k = n % 32;
    [v[0] >> k, v[1] >> k, v[2] >> k, v[3] >> k]
}

// The lanes in the order that the control gives, two bits for each.
pub fn shuffle4(v: [u32; 4], control: usize) -> [u32; 4]
    ensures { result ≡ shuffled control v }
{
    let a = control % 4;
    let b = control / 4 % 4;
    let c = control / 16 % 4;
    let d = control / 64 % 4;
    [v[a], v[b], v[c], v[d]]
}

// A quarter of the ARX box on four branches, with the rotations A and b. The next rotation is TO.
fn quarter4<const A: u32, const TO: u32>(v: Lanes<A>, b: u32, rc: [u32; 4]) -> Lanes<TO>
    requires { (0 < A) × (A < 32) × (0 < b) × (b < 32) × (32 ≤ TO + b) }
    ensures { (result.x ≡ lanes_x (quarter A b) rc v.entry.x v.entry.y) × (result.y ≡ lanes_y (quarter A b) rc v.entry.x v.entry.y) }
{
    let sum = add4(add4(v.x, shl4(v.y, 32 - A)), shr4(v.t, A));
    let high = xor4(v.y, shl4(sum, 32 - b));
    Lanes {
        x: xor4(sum, rc),
        y: xor4(high, shr4(sum, b)),
        t: high,
    }
}

// The third quarter, whose first rotation is by 0. It is no instance of `quarter4`, which shifts by 32 - A:
// a shift by 32 would be one by 0, and each of the three words is put together in another way.
fn third4(v: Lanes<24>, rc: [u32; 4]) -> Lanes<24>
    ensures { (result.x ≡ lanes_x (quarter 0 31) rc v.x v.y) × (result.y ≡ lanes_y (quarter 0 31) rc v.x v.y) }
{
    let sum = add4(v.x, v.y);
    let high = shl4(sum, 1);
    Lanes {
        x: xor4(sum, rc),
        y: xor4(xor4(v.y, high), shr4(sum, 31)),
        t: xor4(v.t, high),
    }
}

// The last quarter of the second four branches, half a word at a time: nothing shifts these y words
// afterwards, and of a t that nobody takes up the compiler would make rotations.
fn last4(v: Lanes<24>, rc: [u32; 4]) -> Lanes<0>
    ensures { (result.x ≡ lanes_x (quarter 24 16) rc v.x v.y) × (result.y ≡ lanes_y (quarter 24 16) rc v.x v.y) }
{
    let sum = add4(add4(v.x, shl4(v.y, 8)), shr4(v.t, 24));
    let high = and4(xor4(v.y, shl4(sum, 16)), [0xffff_0000; 4]);
    let low = and4(xor4(v.y, shr4(sum, 16)), [0x0000_ffff; 4]);
    let y = or4(high, low);
    Lanes {
        x: xor4(sum, rc),
        y,
        t: y,
    }
}

// The boxes of four branches but for their last quarter. Inlined by name, and its parts are not: otherwise the
// compiler puts the second four branches' boxes before the first's, for which the next step waits, and variant 4
// takes 7 percent more (docs/PERFORMANCE.md).
#[inline(always)]
fn three_quarters(x: [u32; 4], y: [u32; 4], rc: [u32; 4]) -> Lanes<24>
    ensures { (lanes_x (quarter 24 16) rc result.x result.y ≡ lanes_x arx_box rc x y) × (lanes_y (quarter 24 16) rc result.x result.y ≡ lanes_y arx_box rc x y) }
{
    let start = Lanes::<31> { x, y, t: y };
    let first: Lanes<17> = quarter4(start, 24, rc);
    let second: Lanes<24> = quarter4(first, 17, rc);
    third4(second, rc)
}

// ell of each lane; t has the high halves of the lanes.
fn ell4(v: [u32; 4], t: [u32; 4]) -> [u32; 4]
    requires { Above 16 t v }
    ensures { result ≡ lanes ell v }
{
    let high = shl4(v, 16);
    xor4(high, shr4(xor4(t, high), 16))
}

// The xor of the four lanes, in each of them.
fn horizontal_xor(v: [u32; 4]) -> [u32; 4]
    ensures { result ≡ folded v }
{
    let paired = xor4(v, shuffle4(v, 0x1b));
    xor4(paired, shuffle4(paired, 0xb1))
}

// ell of the xor of the four lanes, in each of them: ell first, which keeps the lanes apart for
// longer.
fn ell_of_xor(v: [u32; 4], t: [u32; 4]) -> [u32; 4]
    requires { Above 16 t v }
    ensures { result ≡ lanes ell (folded v) }
{
    horizontal_xor(ell4(v, t))
}

// The step that has the row `constants`.
fn step16(g: Groups, constants: [u32; 4]) -> Groups
    ensures { (s : ℕ) → constants ≡ row s → joined result ≡ step 8 s (joined g) }
{
    let rc03 = [RCON[0], RCON[1], RCON[2], RCON[3]];
    let rc47 = [RCON[4], RCON[5], RCON[6], RCON[7]];
    let first = three_quarters(g.s0246, xor4(g.s1357, constants), rc03);
    let low: Lanes<16> = quarter4(first, 16, rc03);
    let second = three_quarters(g.s8ace, g.s9bdf, rc47);
    let high = last4(second, rc47);
    let x = ell_of_xor(low.x, low.x);
    let y = ell_of_xor(low.y, low.t);
    let s8ace = low.x;
    let s9bdf = low.y;
    Groups {
        s0246: xor4(y, shuffle4(xor4(low.x, high.x), 0x39)),
        s1357: xor4(x, shuffle4(xor4(low.y, high.y), 0x39)),
        s8ace,
        s9bdf,
    }
}

// `count` steps, by the rows of a table whose first row is that of the step `first`, which only the
// contract names. The test stands at the end of a turn: with a `for` over the rows the lanes part, and
// with a call of it for each block packets take 4 percent more instructions (docs/PERFORMANCE.md).
fn run_rows(start: Groups, rows: [[u32; 4]; 12], count: u32) -> Groups
    requires { (0 < count) × (count ≤ 12) }
    ensures { (first : ℕ) → rows ≡ rows_from first 12 → joined result ≡ run 8 first count (joined start) }
{
    let mut g = start;
    let mut s = 0u32;
    loop {
        g = step16(g, rows[s as usize]);
        s += 1;
        if s == count {
            break;
        }
    }
    g
}

// The row of step s.
#[tactic(auto, unfolding(crate::specs::Lanes::row))]
fn row(s: u32) -> [u32; 4]
    ensures { result ≡ row s }
{
    [scalar::round_constant(s), s, 0, 0]
}

// The rows of twelve steps from the step `first` on, computed.
fn rows_from(first: u32) -> [[u32; 4]; 12]
    ensures { result ≡ rows_from first 12 }
{
    std::array::from_fn(
        |i: usize| -> [u32; 4]
            requires { i < 12 }
            ensures { result ≡ row (first + i) }
        { row(first.wrapping_add(i as u32)) },
    )
}

// The permutation's steps on four groups, from step 0: the first twelve by the table of rows, those
// behind them by rows that are computed, twelve at a time.
pub fn run_groups(start: Groups, count: u32) -> Groups
    ensures { joined result ≡ run 8 0 count (joined start) }
{
    if count == 0 {
        return start;
    }
    let mut g = start;
    let mut rows = ROWS;
    for first in (12..count).step_by(12) {
        g = run_rows(g, rows, 12);
        rows = rows_from(first);
    }
    run_rows(g, rows, (count - 1) % 12 + 1)
}

// A state in four groups. By name and no `From`, which would not say the order of the words.
pub fn split(w: [u32; 16]) -> Groups
    ensures { joined result ≡ w }
{
    Groups {
        s0246: [w[0], w[2], w[4], w[6]],
        s1357: [w[1], w[3], w[5], w[7]],
        s8ace: [w[8], w[10], w[12], w[14]],
        s9bdf: [w[9], w[11], w[13], w[15]],
    }
}

// The state that four groups hold.
pub fn join(g: Groups) -> [u32; 16]
    ensures { result ≡ joined g }
{
    let a = g.s0246;
    let b = g.s1357;
    let c = g.s8ace;
    let d = g.s9bdf;
    [
        a[0], b[0], a[1], b[1], a[2], b[2], a[3], b[3], c[0], d[0], c[1], d[1], c[2], d[2], c[3],
        d[3],
    ]
}

// The permutation of 16 words with `steps` steps, from step 0.
pub fn sparkle_opt16(w: [u32; 16], steps: u32) -> [u32; 16]
    ensures { result ≡ sparkle_in 8 0 steps w }
{
    join(run_groups(split(w), steps))
}
