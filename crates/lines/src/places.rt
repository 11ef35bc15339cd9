// Where the next line of a chunk begins and ends, and which line it is.
// A place also carries how much text of the answers there is.
ghost use Rattle.std.specs.Prelude.{◌≡◌, ◌==◌, position, ◌+◌, ◌≤◌, ◌<◌, length};
ghost use Rattle.lines.specs.Replies.{widest};
ghost use Rattle.lines.specs.Feeding.{Ends};
ghost use Rattle.lines.specs.Places.{Placed, First, Goes};

use crate::keeping::{begun_line, keep};
use crate::short::short_step;
use crate::text::put_accepted;
use crate::{Begun, Place};
use grammar::Command;
use trie::Refusal;

fn first_newline(bytes: &[u8]) -> Option<usize>
    ensures { result ≡ position (λ b. b == 10) bytes.now }
{
    bytes.iter().position(|&b| b == b'\n')
}

// Where the line ends that the bytes begin with.
fn line_end(bytes: &[u8]) -> usize
    ensures { Ends bytes.now 0 result }
{
    first_newline(bytes).unwrap_or(bytes.len())
}

// Where the first line of a chunk ends.
// Not inlined: among all that serves a chunk the search has no register left, and a long line takes a sixth more instructions.
#[inline(never)]
fn first_end(chunk: &[u8]) -> usize
    ensures { Ends chunk.now 0 result }
{
    line_end(chunk)
}

// The line that begins at `from`, whatever it is.
pub(crate) fn whole_line(chunk: &[u8], from: usize, filled: usize) -> Place
    requires { from ≤ length chunk.now }
    ensures { Placed chunk.now from filled result }
{
    let line = &chunk[from..];
    let length = line_end(line);
    Place {
        line: grammar::parse(&line[..length]),
        from,
        end: from + length,
        filled,
    }
}

// The first line of a chunk, of which some bytes may have come before.
pub(crate) fn first_place(begun: Begun, chunk: &[u8]) -> Place
    ensures { First begun chunk.now result }
{
    let e = first_end(chunk);
    Place {
        line: begun_line(keep(begun, &chunk[..e])),
        from: 0,
        end: e,
        filled: 0,
    }
}

// The answer is written, and the next line read, of which a short step is found without a search.
pub(crate) fn go_on(turn: Result<(), Refusal>, p: Place, chunk: &[u8], out: &mut [u8]) -> Place
    requires { (p.end < length chunk.now) × (p.filled + widest ≤ length out.old) }
    ensures { Goes turn p chunk.now out.old out.new result }
{
    let filled = p.filled + put_accepted(turn, &mut out[p.filled..]);
    let from = p.end + 1;
    match short_step(&chunk[from..]) {
        Some(step) => Place {
            line: Some(Command::Step(step.worker)),
            from,
            end: from + step.end,
            filled,
        },
        None => whole_line(chunk, from, filled),
    }
}
