// A state that takes up blocks: in an array of as many words as it has, or in the permutation's four
// groups. It is a value, so that it stays in local words from block to block.
ghost use Rattle.std.specs.Prelude.{◌≡◌, ℕ, ◌+◌, ◌-◌, ◌*◌, ◌/◌, ◌<◌, ◌≤◌, Bool, List, length, bit_xor, slice_index, nat_lt, if◌then◌else◌};
ghost use Rattle.sparkle.specs.Sparkle.{run, xors};
ghost use Rattle.sparkle.specs.Lanes.{joined};
ghost use Rattle.schwaemm.specs.Schwaemm.{Params, schwaemm256_256};
ghost use Rattle.tc_sparkle_aead.specs.Message.{Fits, sized, state_in, put_state, mask_of, xor_last, xor_block};

use sparkle::scalar::State;
use sparkle::sse2;
use sparkle::sse2::Groups;
use std::marker::Model;

// What the state takes up of a block: the block itself, or what it becomes. That is a word of all ones or
// none, since sealing and opening then differ by data alone. In contracts it says whether the state opens.
#[derive(Clone, Copy)]
pub(crate) struct Mask {
    bits: u32,
}

impl Model for Mask {
    ghost Value = { Bool };

    ghost view = { λ m. nat_lt 0 m.bits };

    ghost invariant = { λ m. m.bits ≡ mask_of (nat_lt 0 m.bits) };

    ghost inverse = { λ opens. record { bits = mask_of opens } };
}

impl Mask {
    #[tactic(auto, unfolding(crate::specs::Message::mask_of))]
    pub(crate) fn new(opening: bool) -> Mask
        ensures { result ≡ opening }
    {
        if opening {
            Mask { bits: 0xffff_ffff }
        } else {
            Mask { bits: 0 }
        }
    }

    fn bits(self) -> u32
        ensures { result ≡ mask_of self }
    {
        self.bits
    }
}

// A state that takes up blocks. In contracts it is the list of its words, and `params` are the
// specification's parameters.
pub(crate) trait Duplex: Copy {
    ghost params: { Params };

    ghost state: { Self → List ℕ };

    // How many words a block has.
    fn block_words() -> usize
        ensures { result * 4 ≡ params.rate };

    // How many steps come behind a block.
    fn steps(big: bool) -> u32
        ensures { result ≡ (if big then params.big else params.slim) };

    // The state in an array of words, with `last` in its last word.
    fn load(words: &[u32; 16], last: u32) -> Self
        requires { Fits params }
        ensures { state result ≡ xor_last params last (state_in params words.now) };

    // What the words of a block become.
    fn crypt(self, block: [u32; 8]) -> [u32; 8]
        ensures { result ≡ xors (state self) block };

    // A block is taken up.
    fn take_up(self, block: [u32; 8], mask: Mask, steps: u32) -> Self
        ensures { state result ≡ run ((params.rate + params.key) / 8) 0 steps (xor_block params (mask_of mask) (state self) block) };

    // The state is put into the array.
    fn store(self, words: &mut [u32; 16])
        ensures { words.new ≡ put_state params words.old (state self) };
}

// A state of WORDS words, RATE of them the rate's, with its numbers of steps.
#[derive(Clone, Copy)]
pub(crate) struct Sponge<const WORDS: usize, const RATE: usize, const SLIM: u32, const BIG: u32> {
    state: State<WORDS>,
    ghost sizes: { Fits (sized WORDS RATE SLIM BIG) },
}

impl<const WORDS: usize, const RATE: usize, const SLIM: u32, const BIG: u32> Sponge<
    WORDS,
    RATE,
    SLIM,
    BIG,
> {
    // The words that are permuted when a block is taken up.
    #[inline(always)]
    fn xor_block(self, block: [u32; 8], mask: u32) -> [u32; WORDS]
        ensures { result ≡ xor_block (sized WORDS RATE SLIM BIG) mask self.entry.state.words block }
    {
        let s = self.state.words;
        let half = RATE / 2;
        let mut mixed = s;
        // By index: a word takes up words of three other places.
        for i in 0..RATE {
            let swapped = if i < half {
                s[half + i]
            } else {
                s[i] ^ s[i - half]
            };
            mixed[i] = swapped ^ (block[i] ^ (s[i] & mask)) ^ s[RATE + i % (WORDS - RATE)];
        }
        mixed
    }
}

impl<const WORDS: usize, const RATE: usize, const SLIM: u32, const BIG: u32> Duplex
    for Sponge<WORDS, RATE, SLIM, BIG> {
    ghost params = { sized WORDS RATE SLIM BIG };

    ghost state = { λ s. s.state.words };

    #[inline(always)]
    fn block_words() -> usize {
        RATE
    }

    #[inline(always)]
    fn steps(big: bool) -> u32 {
        if big { BIG } else { SLIM }
    }

    #[inline(always)]
    #[tactic(auto, using(crate::proofs::DuplexLaws::load_is))]
    fn load(words: &[u32; 16], last: u32) -> Self {
        let mut state = [0; WORDS];
        state.copy_from_slice(&words[..WORDS]);
        state[WORDS - 1] ^= last;
        Sponge {
            state: State { words: state },
        }
    }

    #[inline(always)]
    fn crypt(self, block: [u32; 8]) -> [u32; 8] {
        let words = self.state.words;
        std::array::from_fn(
            |i: usize| -> u32
                requires { (i < 8) × (i < WORDS) }
                ensures { result ≡ bit_xor (slice_index words i) (slice_index block i) }
            { words[i] ^ block[i] },
        )
    }

    #[inline(always)]
    #[tactic(auto, using(crate::proofs::DuplexLaws::branches_are))]
    fn take_up(self, block: [u32; 8], mask: Mask, steps: u32) -> Self {
        let mixed = State {
            words: self.xor_block(block, mask.bits()),
        };
        Sponge {
            state: mixed.run(0, steps),
        }
    }

    #[inline(always)]
    #[tactic(auto, using(crate::proofs::DuplexLaws::store_is))]
    fn store(self, words: &mut [u32; 16]) {
        words[..WORDS].copy_from_slice(&self.state.words);
    }
}

impl Duplex for Groups {
    ghost params = { schwaemm256_256 };

    ghost state = { joined };

    #[inline(always)]
    fn block_words() -> usize {
        8
    }

    #[inline(always)]
    fn steps(big: bool) -> u32 {
        if big { 12 } else { 8 }
    }

    #[inline(always)]
    #[tactic(auto, using(crate::proofs::DuplexLaws::load_whole))]
    fn load(words: &[u32; 16], last: u32) -> Self {
        let mut v = *words;
        v[15] ^= last;
        sse2::split(v)
    }

    #[inline(always)]
    fn crypt(self, block: [u32; 8]) -> [u32; 8] {
        let a = self.s0246;
        let b = self.s1357;
        [
            a[0] ^ block[0],
            b[0] ^ block[1],
            a[1] ^ block[2],
            b[1] ^ block[3],
            a[2] ^ block[4],
            b[2] ^ block[5],
            a[3] ^ block[6],
            b[3] ^ block[7],
        ]
    }

    // Of the mask a lane of the rate's right half has the complement: the feedback xors the right half in once, and
    // opening twice.
    #[inline(always)]
    fn take_up(self, block: [u32; 8], mask: Mask, steps: u32) -> Self {
        let a = self.s0246;
        let b = self.s1357;
        let c = self.s8ace;
        let d = self.s9bdf;
        let left = mask.bits();
        let right = left ^ 0xffff_ffff;
        let lanes = [left, left, right, right];
        let even = [block[0], block[2], block[4], block[6]];
        let odd = [block[1], block[3], block[5], block[7]];
        let mixed = Groups {
            s0246: sse2::xor4(
                sse2::xor4(
                    sse2::shuffle4(a, 0x4e),
                    sse2::xor4(even, sse2::and4(a, lanes)),
                ),
                c,
            ),
            s1357: sse2::xor4(
                sse2::xor4(
                    sse2::shuffle4(b, 0x4e),
                    sse2::xor4(odd, sse2::and4(b, lanes)),
                ),
                d,
            ),
            s8ace: c,
            s9bdf: d,
        };
        sse2::run_groups(mixed, steps)
    }

    #[inline(always)]
    #[tactic(auto, using(crate::proofs::StateLaws::put_all))]
    fn store(self, words: &mut [u32; 16]) {
        *words = sse2::join(self);
    }
}
