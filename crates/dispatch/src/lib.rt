// One call of an engine, given by its kind, a number, three runs of bytes and an output: which of the
// engine's calls a kind means is decided here and nowhere else.
#![tactic(auto)]

ghost use Rattle.std.specs.Prelude.{◌≡◌, cond};
ghost use Rattle.tc_aead_cipher.specs.Variant.{params_of};
ghost use Rattle.tc_sparkle_aead.specs.Calls.{mac_of};
ghost use Rattle.dispatch.specs.Called.{call_made, Leaves, output_after};

use tc_aead_cipher::call::CallKind;
use tc_aead_cipher::refusal;
use tc_aead_cipher::refusal::Refusal;
use tc_sparkle_aead::engine::{Done, SparkleEngine};
use tc_sparkle_aead::{aead_cipher, engine};

// The bytes of the tag that can be read, or 0.
fn tag_len(e: SparkleEngine) -> usize
    ensures { result ≡ cond (mac_of e).readable (params_of e.variant).key 0 }
{
    let m = aead_cipher::mac(e);
    if m.readable { engine::tag_bytes(e) } else { 0 }
}

// A call that is not made yet: its kind, and a number and three runs of bytes, of which a kind takes
// what it needs, as in a list's record (docs/HOST.md).
#[derive(Clone, Copy)]
pub struct Call<'a> {
    pub kind: CallKind,
    pub number: usize,
    pub first: &'a [u8],
    pub second: &'a [u8],
    pub third: &'a [u8],
}

impl<'a> Call<'a> {
    // Makes the call on an engine. What the kind does not take is not looked at.
    #[tactic(auto, unfolding(crate::specs::Called::output_after, tc_sparkle_aead::specs::Sheet::step))]
    pub fn make(self, e: SparkleEngine, output: &mut [u8]) -> Done<Result<usize, Refusal>>
        ensures value { Leaves e (call_made self.entry output.old) result }
        ensures output_after { output.new ≡ output_after e (call_made self.entry output.old) output.old }
    {
        let Call {
            kind,
            number,
            first,
            second,
            third,
        } = self;
        match kind {
            CallKind::Init(d) => aead_cipher::init(e, d, first, second, number, third).into(),
            CallKind::Aad => aead_cipher::process_aad_bytes(e, first).into(),
            CallKind::Data => aead_cipher::process_bytes(e, first, output).into(),
            CallKind::Final => aead_cipher::do_final(e, output).into(),
            CallKind::Reset => Done {
                answer: Ok(0),
                engine: aead_cipher::reset(e),
            },
            CallKind::Mac => Done {
                answer: Ok(tag_len(e)),
                engine: e,
            },
            CallKind::Update => Done {
                answer: refusal::call_answer(aead_cipher::update_output_len(e, number)),
                engine: e,
            },
            CallKind::Output => Done {
                answer: refusal::call_answer(aead_cipher::output_len(e, number)),
                engine: e,
            },
        }
    }
}
