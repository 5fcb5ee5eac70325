// The archive libhost.a: exports the run of a call list by the C calling convention (docs/HOST.md).
// What it does, `crates/host` says and proves, which is a library for Rattle's programs too.
#![tactic(auto)]

ghost use Rattle.std.specs.Prelude.{◌≡◌, ◌-◌, length};
ghost use Rattle.tc_sparkle_aead.specs.Message.{written};
ghost use Rattle.host.specs.CallList.{run_list};

// Runs a call list from one slice and writes the answers to another.
#[unsafe(no_mangle)]
pub extern "C" fn schwaemm_run(list: &[u8], answers: &mut [u8], place: &mut usize) -> u8
    ensures value { result ≡ (run_list list.now (length answers.old)).code }
    ensures place_after { place.new ≡ length list.now - (run_list list.now (length answers.old)).left }
    ensures answers_after { answers.new ≡ written (run_list list.now (length answers.old)).answers answers.old }
{
    host::schwaemm_run(list, answers, place)
}
