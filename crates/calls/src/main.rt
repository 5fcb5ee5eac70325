// Call lists as text (document 02, 2026-01): reads a list from standard input and writes the sheet of
// its calls, or `(no 12 3)` where line 3 is wrong. What is decided, `call_text` decides.
#![tactic(auto)]

ghost use Rattle.std.specs.Prelude.{◌≤◌, IfOk, length};

use call_text::run;
use std::io;
use std::io::Read;

fn show_all(rt: &impl Print, file: &[u8]) -> io::Result<()> {
    let begun = run::begin(file);
    rt.write_all(begun.text.as_bytes())?;
    let mut r = begun.run;
    // A run goes from line to line, and has the place of the next itself.
    while r.at < file.len() {
        let shown = run::next(file, r);
        rt.write_all(shown.text.as_bytes())?;
        r = shown.run;
    }
    Ok(())
}

// Reads until the buffer is full or the input ends, and answers how many bytes it read. The library's
// `read_to_end` wants a Vec, and there is no heap; its `read_exact` fails where the input ends.
fn read_full<R: Read>(input: &mut R, buf: &mut [u8]) -> io::Result<usize>
    ensures { IfOk result (λ n. n ≤ length buf.new) }
{
    let mut done = 0;
    while done < buf.len() {
        let n = input.read(&mut buf[done..])?;
        if n == 0 {
            break;
        }
        done += n;
    }
    Ok(done)
}

fn main(rt: HostRuntime) -> io::Result<()> {
    let mut file = [0u8; 65537];
    let n = read_full(&mut rt.stdin(), &mut file)?;
    show_all(&rt, &file[..n])
}
