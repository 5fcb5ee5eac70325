// A file of lines, the variant's and the calls': accepted, or refused at a line.
ghost use Rattle.std.specs.Prelude.{◌≡◌};
ghost use Rattle.call_text.specs.List.{check_file};
ghost use Rattle.call_text.specs.Run.{line_at, line_end};

use super::line;
use forms::bytes;
use tc_aead_cipher::variant::SparkleVariant;

// A file that is no call list: the first line that is wrong, or 0 where the file is too long (document 02,
// 2026-01). It is a type of its own, since a check of a file gives no other refusal; `run::begin` makes a `Refusal` of it.
#[derive(Clone, Copy, Debug)]
pub struct Refused {
    pub line: usize,
}

// How many bytes a call list has at most.
pub(crate) const FILE_BYTES: usize = 65536;

// The line that begins at a place of a file, without its newline.
#[tactic(auto, unfolding(crate::specs::Run::line_at))]
pub(crate) fn line_at(file: &[u8], at: usize) -> &[u8]
    ensures { result.now ≡ line_at file.now at }
{
    bytes::run_at::<bytes::Line>(file, at)
}

// The place behind a line and its newline.
#[tactic(auto, using(crate::proofs::ListSteps::line_within), unfolding(crate::specs::Run::line_end))]
pub(crate) fn line_end(file: &[u8], at: usize) -> usize
    ensures { result ≡ line_end file.now at }
{
    if file.len() <= at {
        return file.len();
    }
    let to = at + line_at(file, at).len();
    if to < file.len() { to + 1 } else { to }
}

// The variant of a call list, or at which line a file is none.
pub(crate) fn check(file: &[u8]) -> Result<SparkleVariant, Refused>
    ensures { result ≡ check_file file.now }
{
    if FILE_BYTES < file.len() {
        return Err(Refused { line: 0 });
    }
    let Some(v) = line::variant_in(line_at(file, 0)) else {
        return Err(Refused { line: 1 });
    };
    // By the place, as the definitions say a line; lines are counted besides, since a refusal says which.
    let mut at = line_end(file, 0);
    let mut k = 2;
    while at < file.len() {
        if line::found_in(line_at(file, at)).is_none() {
            return Err(Refused { line: k });
        }
        at = line_end(file, at);
        k += 1;
    }
    Ok(v)
}
