// The run of a file's calls on one engine, a line of the sheet at a time.
ghost use Rattle.std.specs.Prelude.{◌≡◌, ◌<◌, ◌≤◌, min, length, take};
ghost use Rattle.tc_sparkle_aead.specs.Message.{zeros};
ghost use Rattle.dispatch.specs.Called.{Leaves};
ghost use Rattle.forms.specs.Hex.{hex_bytes};
ghost use Rattle.tc_aead_cipher.specs.Call.{call_of};
ghost use Rattle.call_text.specs.Line.{item_at, call_found};
ghost use Rattle.call_text.specs.Run.{stopped, begin_of, next_of};

use super::line::Found;
use super::{line, list};
use dispatch::Call;
use forms::hex;
use sheet_text::text;
use sheet_text::text::Text;
use tc_aead_cipher::call::CallKind;
use tc_aead_cipher::refusal::Refusal;
use tc_aead_cipher::reply::Reply;
use tc_aead_cipher::variant::SparkleVariant;
use tc_sparkle_aead::engine::{Done, SparkleEngine};
use tc_sparkle_aead::{aead_cipher, engine};

// Where a run stands: the engine, and the place in the file.
#[derive(Clone, Copy)]
pub struct Run {
    pub engine: SparkleEngine,
    pub at: usize,
}

// A text to print, and the run behind it. For a refused file, and where no call stands, the text is the
// refusal or empty, and the place the file's end: any bytes get one kind of answer, and a loop ends by the
// place.
#[derive(Clone, Copy)]
pub struct Shown {
    pub text: Text,
    pub run: Run,
}

// The most bytes that an item of a line says, and the most that an output has.
const ROOM: usize = 32768;

// The bytes of the item at a place, as many as an array has room for, in front of it.
fn decoded<'a, const N: usize>(s: &[u8], at: usize, room: &'a mut [u8; N]) -> &'a [u8]
    ensures { result.now ≡ take N (hex_bytes (item_at s.now at)) }
{
    let n = hex::decode(line::item_at(s, at), room);
    &room[..n]
}

// Makes the call that was found in a line, with as much of its runs of bytes and of its output as there
// is room for. The sizes are fixed where it is used, so that a kind of call clears no more than it needs:
// a file of 10,902 shortest calls takes 6.5 ms so, and 42 ms where each call clears 128 KiB.
fn call_with<const FIRST: usize, const REST: usize, const OUT: usize>(
    e: SparkleEngine,
    s: &[u8],
    f: Found,
) -> Done<Result<usize, Refusal>>
    requires { (FIRST ≤ 32768) × (REST ≤ 32768) × (OUT ≤ 32768) }
    ensures { Leaves e
        (call_of f.kind f.number
        (take FIRST (hex_bytes (item_at s.now f.first)))
        (take REST (hex_bytes (item_at s.now f.second)))
        (take REST (hex_bytes (item_at s.now f.third)))
        (zeros (min f.room OUT)))
        result }
{
    let mut first = [0u8; FIRST];
    let mut second = [0u8; REST];
    let mut third = [0u8; REST];
    let mut out = [0u8; OUT];
    let call = Call {
        kind: f.kind,
        number: f.number,
        first: decoded(s, f.first, &mut first),
        second: decoded(s, f.second, &mut second),
        third: decoded(s, f.third, &mut third),
    };
    call.make(e, &mut out[..f.room.min(OUT)])
}

// Makes the call that was found in a line. That the line has at most 65536 bytes, and the output at most
// 32768, stands in the contract: a slice or a number with its bound would have to be made of each line, and
// would say no more.
fn call(e: SparkleEngine, s: &[u8], f: Found) -> Done<Result<usize, Refusal>>
    requires { (length s.now ≤ 65536) × (f.room ≤ 32768) }
    ensures { Leaves e (call_found s.now f) result }
{
    // A match: each arm is another instance, with sizes that are known before.
    match f.kind {
        CallKind::Init(_) => call_with::<ROOM, ROOM, 0>(e, s, f),
        CallKind::Aad | CallKind::Data | CallKind::Final => call_with::<ROOM, 0, ROOM>(e, s, f),
        CallKind::Reset | CallKind::Mac | CallKind::Update | CallKind::Output => {
            call_with::<0, 0, 0>(e, s, f)
        }
    }
}

#[tactic(auto, unfolding(crate::specs::Run::stopped))]
fn stopped(file: &[u8], e: SparkleEngine) -> Shown
    ensures { result ≡ stopped file.now e }
{
    Shown {
        text: Text::new(),
        run: Run {
            engine: e,
            at: file.len(),
        },
    }
}

// The sheet's title and a new engine in front of the calls; for a file that is no call list, the
// refusal, and nothing more.
pub fn begin(file: &[u8]) -> Shown
    ensures { result ≡ begin_of file.now }
{
    match list::check(file) {
        Err(refused) => Shown {
            text: text::refusal(Reply::from(Err(Refusal::Line(refused.line)))),
            run: Run {
                engine: engine::new(SparkleVariant::Schwaemm128_128),
                at: file.len(),
            },
        },
        Ok(v) => Shown {
            text: text::title(v),
            run: Run {
                engine: engine::new(v),
                at: list::line_end(file, 0),
            },
        },
    }
}

// Makes the call of the line where the run stands: the sheet's line, and the run behind it. Where no
// call stands there, an empty text, and the run at the file's end. It does not look at the lines
// before; whoever starts from `begin` runs nothing of a file that is refused.
#[tactic(auto, using(crate::proofs::RunSteps::next_long, crate::proofs::RunSteps::stopped_place))]
pub fn next(file: &[u8], run: Run) -> Shown
    ensures value { result ≡ next_of file.now run }
    ensures at_lt_at { run.at < length file.now → run.at < result.run.at }
{
    let e = run.engine;
    let at = run.at;
    if list::FILE_BYTES < file.len() {
        return stopped(file, e);
    }
    let s = list::line_at(file, at);
    let Some(f) = line::found_in(s) else {
        return stopped(file, e);
    };
    let c = call(e, s, f);
    Shown {
        text: text::line(
            f.kind,
            Reply::from(c.answer),
            aead_cipher::steps(c.engine),
            aead_cipher::mac(c.engine).readable,
        ),
        run: Run {
            engine: c.engine,
            at: list::line_end(file, at),
        },
    }
}
