// Runs a listing: reads a chunk of standard input, has it served, and writes the answers.
// Nothing is kept but the line that is begun, the history and its tables, so the input may be of any length.
#![tactic(auto)]

use lines::{ANSWERS, CHUNK, Kept, at_start};
use std::io;
use std::io::{Read, Write};

fn main(rt: HostRuntime) -> io::Result<()> {
    let mut chunk = [0u8; CHUNK];
    let mut out = [0u8; ANSWERS];
    let mut kept = at_start();
    // Counted, since a loop has to end; no input has so many chunks.
    for _ in 0..u64::MAX {
        let read = rt.stdin().read(&mut chunk);
        let n = or_say(&rt, read, "standard input cannot be read")?;
        let filled = serve(&mut kept, &chunk, n, &mut out);
        let written = io::writer(&rt).write_all(&out[..filled.min(ANSWERS)]);
        or_say(&rt, written, "standard output cannot be written")?;
        if n == 0 {
            return Ok(());
        }
    }
    Ok(())
}

// Where reading or writing fails, says so before the error goes out.
fn or_say<T: Drop>(rt: &impl Eprint, done: io::Result<T>, fault: &str) -> io::Result<T> {
    if done.is_err() {
        eprintln!(rt; "listing: {fault}")?;
    }
    done
}

// The bytes that were read are served; where there are none, the input has ended.
fn serve(kept: &mut Kept, chunk: &[u8; CHUNK], n: usize, out: &mut [u8; ANSWERS]) -> usize {
    if n == 0 {
        return kept.finish(out);
    }
    kept.serve(chunk, n, out)
}
