// The four parameter sets (the Rust's variant.rs; document 01's table of variants).
ghost use Rattle.std.specs.Prelude.{◌≡◌};
ghost use Rattle.tc_aead_cipher.specs.Variant.{params_of, number, is_variant, variant_of, Decodes};

#[derive(Clone, Copy, Debug, PartialEq, Eq)]
pub enum SparkleVariant {
    Schwaemm128_128,
    Schwaemm256_128,
    Schwaemm192_192,
    Schwaemm256_256,
}

// A number that no variant has.
#[derive(Clone, Copy, Debug, PartialEq, Eq)]
pub struct UnknownVariant(pub u8);

impl SparkleVariant {
    pub fn key_bytes(self) -> usize
        ensures { result ≡ (params_of self).key }
    {
        match self {
            SparkleVariant::Schwaemm128_128 | SparkleVariant::Schwaemm256_128 => 16,
            SparkleVariant::Schwaemm192_192 => 24,
            SparkleVariant::Schwaemm256_256 => 32,
        }
    }

    pub fn nonce_bytes(self) -> usize
        ensures { result ≡ (params_of self).rate }
    {
        match self {
            SparkleVariant::Schwaemm128_128 => 16,
            SparkleVariant::Schwaemm192_192 => 24,
            SparkleVariant::Schwaemm256_128 | SparkleVariant::Schwaemm256_256 => 32,
        }
    }

    pub fn tag_bytes(self) -> usize
        ensures { result ≡ (params_of self).key }
    {
        self.key_bytes()
    }

    pub fn slim_steps(self) -> u32
        ensures { result ≡ (params_of self).slim }
    {
        match self {
            SparkleVariant::Schwaemm128_128
            | SparkleVariant::Schwaemm256_128
            | SparkleVariant::Schwaemm192_192 => 7,
            SparkleVariant::Schwaemm256_256 => 8,
        }
    }

    pub fn big_steps(self) -> u32
        ensures { result ≡ (params_of self).big }
    {
        match self {
            SparkleVariant::Schwaemm128_128 => 10,
            SparkleVariant::Schwaemm256_128 | SparkleVariant::Schwaemm192_192 => 11,
            SparkleVariant::Schwaemm256_256 => 12,
        }
    }
}

// Document 01's number.
impl From<SparkleVariant> for u8 {
    ghost from_gives = { λ v n. n ≡ number v };

    fn from(v: SparkleVariant) -> u8 {
        match v {
            SparkleVariant::Schwaemm128_128 => 1,
            SparkleVariant::Schwaemm256_128 => 2,
            SparkleVariant::Schwaemm192_192 => 3,
            SparkleVariant::Schwaemm256_256 => 4,
        }
    }
}

// The variant of a number.
impl TryFrom<u8> for SparkleVariant {
    type Error = UnknownVariant;

    ghost try_from_gives = { Decodes };

    #[tactic(auto, unfolding(crate::specs::Variant::is_variant, crate::specs::Variant::variant_of))]
    fn try_from(n: u8) -> Result<SparkleVariant, UnknownVariant> {
        match n {
            1 => Ok(SparkleVariant::Schwaemm128_128),
            2 => Ok(SparkleVariant::Schwaemm256_128),
            3 => Ok(SparkleVariant::Schwaemm192_192),
            4 => Ok(SparkleVariant::Schwaemm256_256),
            _ => Err(UnknownVariant(n)),
        }
    }
}

// Whether a variant has the number. This and `variant_of` cannot fail, for callers who want no `Result`.
#[tactic(auto, unfolding(crate::specs::Variant::is_variant))]
pub fn is_variant(n: u8) -> bool
    ensures { result ≡ is_variant n }
{
    SparkleVariant::try_from(n).is_ok()
}

// The variant of a number; of one that no variant has, the last.
#[tactic(auto, using(crate::proofs::VariantLaws::no_variant_last))]
pub fn variant_of(n: u8) -> SparkleVariant
    ensures { result ≡ variant_of n }
{
    SparkleVariant::try_from(n).unwrap_or(SparkleVariant::Schwaemm256_256)
}
