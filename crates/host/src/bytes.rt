// Numbers of eight bytes, the lowest byte first, and runs of bytes.
ghost use Rattle.std.specs.Prelude.{◌≡◌, ◌+◌, ◌≤◌, length};
ghost use Rattle.host.specs.Bytes.{number_at, number};

// The number that stands at a place: a head has its numbers at places that are fixed.
#[tactic(auto, using(crate::proofs::Numbers::number_of_bytes))]
pub(crate) fn number_at(bytes: &[u8], at: usize) -> usize
    requires { at + 8 ≤ length bytes.now }
    ensures { result ≡ number_at bytes.now at }
{
    let mut number = [0; 8];
    number.copy_from_slice(&bytes[at..at + 8]);
    u64::from_le_bytes(number) as usize
}

// The eight bytes of a number.
#[tactic(auto, using(crate::proofs::Numbers::bytes_of_number))]
pub(crate) fn number_bytes(n: u64) -> [u8; 8]
    ensures { result ≡ number n }
{
    n.to_le_bytes()
}

// Copies a run of bytes. With `copy_from_slice` in its place the archive (`crates/host_c`) would call C's
// `memmove`, besides `memcpy` and `memset`.
pub(crate) fn copy(to: &mut [u8], from: &[u8])
    requires { length to.old ≡ length from.now }
    ensures { to.new ≡ from.now }
{
    for (i, b) in from.iter().enumerate() {
        to[i] = *b;
    }
}
