// The engine (the Rust's engine.rs): its data, by value, and what a start and an end make of it. Fields are
// private: only this crate's calls make and change an engine. The work on a message is `message.rt`'s. The calls
// take the engine by value and give it back (docs/01-scope.md, "Bending the Rust"); `new`, `variant` and the sizes
// are functions as they are, and would say no more as methods.
ghost use Rattle.std.specs.Prelude.{◌≡◌, ◌≤◌, length};
ghost use Rattle.tc_aead_cipher.specs.Variant.{params_of};
ghost use Rattle.tc_aead_cipher.specs.Outcome.{outcome, start_outcome, answered};
ghost use Rattle.tc_sparkle_aead.specs.Engine.{new_engine, no_pair, no_steps, init_steps, repeats, remember};
ghost use Rattle.tc_sparkle_aead.specs.Calls.{add_steps, at_point, refused, started, finish};

use super::bytes;
use super::message::{End, Mac, Point, Start};
use tc_aead_cipher::aead_error::AeadError;
use tc_aead_cipher::aead_init_error::AeadInitError;
use tc_aead_cipher::phase::{Direction, Phase};
use tc_aead_cipher::refusal;
use tc_aead_cipher::refusal::Refusal;
use tc_aead_cipher::variant::SparkleVariant;

// The last loaded key and nonce, and whether there are any (the Rust's `has_key_nonce`): docs/01-scope.md, "Bending
// the Rust", has the flag beside the arrays.
#[derive(Clone, Copy)]
pub struct Pair {
    pub(crate) loaded: bool,
    pub(crate) key: [u8; 32],
    pub(crate) nonce: [u8; 32],
}

// The permutation steps of the current message, and how many they were after init.
#[derive(Clone, Copy)]
pub struct Steps {
    pub(crate) current: u64,
    pub(crate) initial: u64,
}

#[derive(Clone, Copy)]
pub struct SparkleEngine {
    pub(crate) variant: SparkleVariant,
    pub(crate) current: Point,
    // the point after init, which a reset restores
    pub(crate) initial: Point,
    pub(crate) pair: Pair,
    pub(crate) mac: Mac,
    pub(crate) steps: Steps,
}

// What a call answers, and the engine afterwards.
#[derive(Clone, Copy)]
pub struct Done<A> {
    pub answer: A,
    pub engine: SparkleEngine,
}

// A start among the calls of every kind: it counts nothing.
impl From<Done<Result<(), AeadInitError>>> for Done<Result<usize, Refusal>> {
    ghost from_gives = { λ s r. (answered r.answer ≡ start_outcome s.answer) × (r.engine ≡ s.engine) };

    fn from(s: Done<Result<(), AeadInitError>>) -> Done<Result<usize, Refusal>> {
        Done {
            answer: refusal::start_answer(s.answer),
            engine: s.engine,
        }
    }
}

// A call on a message among them. One impl over all kinds of answers would also be one of a type into itself, which
// the library has.
impl From<Done<Result<usize, AeadError>>> for Done<Result<usize, Refusal>> {
    ghost from_gives = { λ d r. (answered r.answer ≡ outcome d.answer) × (r.engine ≡ d.engine) };

    fn from(d: Done<Result<usize, AeadError>>) -> Done<Result<usize, Refusal>> {
        Done {
            answer: refusal::call_answer(d.answer),
            engine: d.engine,
        }
    }
}

// A new engine: no message, no pair, no tag, no steps.
#[tactic(auto, unfolding(crate::specs::Message::zeros, crate::specs::Message::no_message, crate::specs::Engine::no_pair, crate::specs::Engine::new_engine))]
pub fn new(variant: SparkleVariant) -> SparkleEngine
    ensures { result ≡ new_engine variant }
{
    let none = Point::empty(Phase::Uninitialized, [0; 16]);
    SparkleEngine {
        variant,
        current: none,
        initial: none,
        pair: Pair {
            loaded: false,
            key: [0; 32],
            nonce: [0; 32],
        },
        mac: Mac::none(),
        steps: Steps::none(),
    }
}

pub fn variant(e: SparkleEngine) -> SparkleVariant
    ensures { result ≡ e.variant }
{
    e.variant
}

pub fn key_bytes(e: SparkleEngine) -> usize
    ensures { result ≡ (params_of e.variant).key }
{
    variant(e).key_bytes()
}

pub fn nonce_bytes(e: SparkleEngine) -> usize
    ensures { result ≡ (params_of e.variant).rate }
{
    variant(e).nonce_bytes()
}

pub fn tag_bytes(e: SparkleEngine) -> usize
    ensures { result ≡ (params_of e.variant).key }
{
    variant(e).tag_bytes()
}

impl Steps {
    // No steps.
    #[tactic(auto, unfolding(crate::specs::Engine::no_steps, crate::specs::Engine::init_steps))]
    fn none() -> Steps
        ensures { result ≡ no_steps }
    {
        Steps::after_init(0)
    }

    // The steps after a start that ran n.
    #[tactic(auto, unfolding(crate::specs::Engine::init_steps))]
    pub(crate) fn after_init(n: u64) -> Steps
        ensures { result ≡ init_steps no_steps n }
    {
        Steps {
            current: n,
            initial: n,
        }
    }

    // n more steps.
    #[tactic(auto, unfolding(crate::specs::Calls::add_steps))]
    pub(crate) fn add(self, n: u64) -> Steps
        ensures { result ≡ add_steps n self }
    {
        Steps {
            current: self.current.wrapping_add(n),
            ..self
        }
    }
}

impl Pair {
    // Whether a key and a nonce repeat it; both are looked at whole.
    #[tactic(auto, using(crate::proofs::InitLaws::repeats_key, crate::proofs::InitLaws::repeats_nonce, crate::proofs::InitLaws::repeats_none, crate::proofs::InitLaws::repeats_pair, tc_aead_cipher::proofs::VariantLaws::small))]
    pub(crate) fn repeats(self, variant: SparkleVariant, key: &[u8], nonce: &[u8]) -> bool
        ensures { result ≡ repeats (params_of variant) self key.now nonce.now }
    {
        let k = variant.key_bytes();
        let n = variant.nonce_bytes();
        if key.len() != k || nonce.len() != n || !self.loaded {
            return false;
        }
        bytes::same_bytes(&self.key[..k], key) & bytes::same_bytes(&self.nonce[..n], nonce)
    }

    // What is remembered once a key and a nonce are loaded.
    #[tactic(auto, unfolding(crate::specs::Engine::remember))]
    fn remember(key: &[u8], nonce: &[u8]) -> Pair
        requires { (length key.now ≤ 32) × (length nonce.now ≤ 32) }
        ensures { result ≡ remember no_pair key.now nonce.now }
    {
        Pair {
            loaded: true,
            key: bytes::in_array(key),
            nonce: bytes::in_array(nonce),
        }
    }
}

impl SparkleEngine {
    // The engine at another point, after n more steps.
    #[tactic(auto, unfolding(crate::specs::Calls::at_point))]
    pub(crate) fn at_point(self, at: Point, n: u64) -> SparkleEngine
        ensures { result ≡ at_point self at n }
    {
        SparkleEngine {
            current: at,
            steps: self.steps.add(n),
            ..self
        }
    }

    // A refused start ends the message and loads no pair.
    #[tactic(auto, unfolding(crate::specs::Message::zeros, crate::specs::Message::no_message, crate::specs::Engine::refused_steps, crate::specs::Calls::refused))]
    pub(crate) fn refused(self) -> SparkleEngine
        ensures { result ≡ refused self }
    {
        let none = Point::empty(Phase::Uninitialized, [0; 16]);
        SparkleEngine {
            current: none,
            initial: none,
            mac: Mac::none(),
            steps: Steps::none(),
            ..self
        }
    }

    // A start that is taken loads its pair and absorbs its header; of the old engine the variant stays.
    #[tactic(auto, using(crate::proofs::InitLaws::started_is), unfolding(crate::specs::Engine::new_engine))]
    pub(crate) fn start(start: Start, d: Direction) -> SparkleEngine
        ensures { result ≡ started (new_engine start.entry.variant) d start.entry.key.now start.entry.nonce.now start.entry.header.now }
    {
        let variant = start.variant;
        let at = Point::start(start, d);
        let point = at.absorb(variant, d, start.header);
        let big = u64::from(variant.big_steps());
        SparkleEngine {
            variant,
            current: point,
            initial: point,
            pair: Pair::remember(start.key, start.nonce),
            mac: Mac::none(),
            steps: Steps::after_init(big.wrapping_add(at.header_steps(variant, start.header))),
        }
    }

    // The message has ended with this answer, after `first` steps and those of its end.
    #[tactic(auto, unfolding(crate::specs::Message::zeros, crate::specs::Message::final_point, crate::specs::Calls::at_point, crate::specs::Calls::final_engine, crate::specs::Calls::finish))]
    pub(crate) fn finish(
        self,
        answer: Result<usize, AeadError>,
        d: Direction,
        first: u64,
        end: End,
    ) -> Done<Result<usize, AeadError>>
        ensures { result ≡ finish (at_point self self.current first) answer d end.mac end.steps }
    {
        Done {
            answer,
            engine: SparkleEngine {
                current: Point::empty(Phase::Final(d), [0; 16]),
                mac: end.mac,
                steps: self.steps.add(first).add(end.steps),
                ..self
            },
        }
    }
}
