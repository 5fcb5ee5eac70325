// Bytes and words. Bytes are taken from the held ones and the input together, as one stream, so that
// nothing is moved on the way.
ghost use Rattle.std.specs.Prelude.{◌≡◌, ◌+◌, ◌*◌, ◌%◌, ◌≤◌, ◌++◌, length, take, drop};
ghost use Rattle.sparkle.specs.Sparkle.{xors};
ghost use Rattle.schwaemm.specs.Bytes.{to_bytes, same};
ghost use Rattle.tc_sparkle_aead.specs.Message.{in_array, written};

// A slice of at most N bytes, with zeros behind it.
#[tactic(auto, using(crate::proofs::Fill::over_zeros))]
pub(crate) fn in_array<const N: usize>(bytes: &[u8]) -> [u8; N]
    requires { length bytes.now ≤ N }
    ensures { result ≡ in_array N bytes.now }
{
    let mut r = [0u8; N];
    r[..bytes.len()].copy_from_slice(bytes);
    r
}

// The bytes of `b`, xored with those of `a` from its start, and zeros behind them. By index: with the slices
// zipped, no proof was found that all of `b` is gone through.
#[tactic(auto, using(crate::proofs::XorLaws::xored_turn, crate::proofs::XorLaws::xored_end), unfolding(crate::proofs::Fill::laid, crate::specs::Message::zeros))]
pub(crate) fn xored<const N: usize>(a: &[u8], b: &[u8]) -> [u8; N]
    requires { (length b.now ≤ length a.now) × (length b.now ≤ N) }
    ensures { result ≡ in_array N (xors a.now b.now) }
{
    let mut r = [0u8; N];
    for (i, y) in b.iter().enumerate() {
        r[i] = a[i] ^ y;
    }
    r
}

// n bytes of the held ones followed by the input, from `pos` on.
#[tactic(auto, using(crate::proofs::ByteLaws::put_behind, crate::proofs::ByteLaws::stream_behind, crate::proofs::ByteLaws::stream_seam))]
pub(crate) fn gather(held: &[u8], input: &[u8], pos: usize, n: usize) -> [u8; 64]
    requires { (n ≤ 64) × (pos + n ≤ length held.now + length input.now) }
    ensures { result ≡ in_array 64 (take n (drop pos (held.now ++ input.now))) }
{
    if held.len() <= pos {
        let start = pos - held.len();
        return in_array(&input[start..start + n]);
    }
    let front = n.min(held.len() - pos);
    let mut r = in_array(&held[pos..pos + front]);
    r[front..n].copy_from_slice(&input[..n - front]);
    r
}

// Words written to the start of the output, the low byte first. By index: of the chunks that
// `chunks_exact_mut` lends, the library's contract says nothing afterwards but their length.
#[tactic(auto, using(crate::proofs::ByteLaws::word_behind), unfolding(schwaemm::specs::Bytes::to_bytes, crate::specs::Message::written))]
pub(crate) fn put_words(output: &mut [u8], words: &[u32])
    requires { length words.now * 4 ≤ length output.old }
    ensures { output.new ≡ written (to_bytes words.now) output.old }
{
    for (k, word) in words.iter().enumerate() {
        let at = k * 4;
        output[at..at + 4].copy_from_slice(&word.to_le_bytes());
    }
}

// Whether two slices of one length are the same; all bytes are looked at, whatever they hold.
#[tactic(auto, using(crate::proofs::SameLaws::same_turn), unfolding(schwaemm::specs::Bytes::same))]
pub(crate) fn same_bytes(a: &[u8], b: &[u8]) -> bool
    requires { length a.now ≡ length b.now }
    ensures { result ≡ same a.now b.now }
{
    let mut equal = true;
    for (x, y) in a.iter().zip(b) {
        equal &= x == y;
    }
    equal
}

// The words of a slice of bytes, little-endian, with zeros behind them. By index: over `chunks_exact` no proof
// was found of what the array becomes.
#[tactic(auto, unfolding(crate::proofs::Fill::laid, crate::specs::Message::zeros))]
pub(crate) fn words_in(bytes: &[u8]) -> [u32; 8]
    requires { (length bytes.now ≤ 32) × (length bytes.now % 4 ≡ 0) }
    ensures { take (length bytes.now) (to_bytes result) ≡ bytes.now }
{
    let mut r = [0u32; 8];
    for k in 0..bytes.len() / 4 {
        let at = k * 4;
        r[k] = u32::from_le_bytes([bytes[at], bytes[at + 1], bytes[at + 2], bytes[at + 3]]);
    }
    r
}

// The bytes of an array of words, little-endian.
pub(crate) fn bytes_of(words: [u32; 16]) -> [u8; 64]
    ensures { result ≡ to_bytes words }
{
    let mut r = [0u8; 64];
    put_words(&mut r, &words);
    r
}
