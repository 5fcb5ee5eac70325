// The permutation in parts (document 02, 2026-02), for a caller who has other work to do between
// the steps. Eleven steps on 12 words, one at a time, and the radio is looked after between them:
//
//     let mut run = PartialRun { size: StateWords::Words12, words, next: 0, left: 11 };
//     while 0 < run.left {
//         run = run.advance(1);
//     }
#![tactic(auto)]

ghost use Rattle.std.specs.Prelude.{◌≡◌};
ghost use Rattle.sparkle_parts.specs.Parts.{Valid, advance};

use sparkle::scalar::StateWords;

// A run of steps on its way: the size of the state, the array that begins with it, the number of the
// next step and how many steps are left. The array has 16 words at each size: what is beyond the state
// stays as it is, which contracts say.
#[derive(Clone, Copy)]
pub struct PartialRun {
    pub size: StateWords,
    pub words: [u32; 16],
    pub next: u32,
    pub left: u32,
}

impl PartialRun {
    // At most `most` of the steps that are left; none where `most` is 0. Parts whose counts sum to at
    // least the steps that are left make the whole run (`parts_make_the_run`). The words beyond the
    // state's stay as they are.
    #[tactic(auto, unfolding(crate::specs::Parts::advance))]
    pub fn advance(self, most: u32) -> PartialRun
        ensures value { result ≡ advance most self }
        ensures valid { Valid result }
    {
        let count = most.min(self.left);
        PartialRun {
            words: sparkle::scalar::sparkle_scalar(self.words, self.size, self.next, count),
            next: self.next.wrapping_add(count),
            left: self.left - count,
            ..self
        }
    }
}
