// The line that is begun at the end of a chunk: its bytes are kept until its end comes.
// A line of more than 40 bytes is refused whole, so of such a line no byte is kept.
ghost use Rattle.std.specs.Prelude.{◌≡◌, ◌≤◌, length, drop};
ghost use Rattle.lines.specs.Chunks.{part_of, begun_of, line_at};
ghost use Rattle.lines.specs.Feeding.{grown, before};

use crate::{BLANK, Begun, Place};
use grammar::{Command, LONGEST_LINE};

// As many bytes are held of a line that is longer than any command, whose bytes are not kept.
const OVERLONG: usize = LONGEST_LINE + 1;

// The line that is begun, with some bytes more; a line of more than 40 is not stored.
pub(crate) fn keep(begun: Begun, s: &[u8]) -> Begun
    ensures { result ≡ begun_of (grown (part_of begun) s.now) }
{
    let mut bytes = [0u8; LONGEST_LINE];
    let held = begun.held;
    let length = held.saturating_add(s.len());
    if LONGEST_LINE < length {
        return Begun {
            bytes,
            held: OVERLONG,
        };
    }
    bytes[..held].copy_from_slice(&begun.bytes[..held]);
    bytes[held..length].copy_from_slice(s);
    Begun {
        bytes,
        held: length,
    }
}

// The line that was begun, once it has ended.
pub(crate) fn begun_line(begun: Begun) -> Option<Command>
    ensures { result ≡ line_at (part_of begun) }
{
    if LONGEST_LINE < begun.held {
        return None;
    }
    grammar::parse(&begun.bytes[..begun.held])
}

// What is kept of the chunk when its lines are served.
pub(crate) fn close(p: Place, begun: Begun, chunk: &[u8]) -> Begun
    requires { p.from ≤ length chunk.now }
    ensures { result ≡ begun_of (grown (before begun p.from) (drop p.from chunk.now)) }
{
    if p.from == 0 {
        return keep(begun, chunk);
    }
    keep(BLANK, &chunk[p.from..])
}
