// The host boundary: call lists. The function takes numbers and byte slices (docs/HOST.md); no engine
// crosses. `crates/host_c` exports it by the C calling convention. Whole packets at once are `crates/packet`.
#![tactic(auto)]

ghost use Rattle.std.specs.Prelude.{◌≡◌, ◌-◌, length};
ghost use Rattle.tc_sparkle_aead.specs.Message.{written};
ghost use Rattle.host.specs.CallList.{run_list};

mod bytes;
mod call;
pub mod run;

// Runs a call list from one slice and writes the answers to another. The code is a number, as `crates/host_c`
// hands it to C.
pub fn schwaemm_run(list: &[u8], answers: &mut [u8], place: &mut usize) -> u8
    ensures value { result ≡ (run_list list.now (length answers.old)).code }
    ensures place_after { place.new ≡ length list.now - (run_list list.now (length answers.old)).left }
    ensures answers_after { answers.new ≡ written (run_list list.now (length answers.old)).answers answers.old }
{
    match run::run_list(list, answers) {
        Ok(()) => {
            *place = list.len();
            0
        }
        Err(stop) => {
            *place = stop.place;
            stop.reason.into()
        }
    }
}
