// A chunk of the input: its lines are served where they lie, and the line that is begun at its end is kept.
// What is kept is lent to all that serves a line, so that it is not copied line by line.
ghost use Rattle.std.specs.Prelude.{◌≡◌, ◌*◌, ◌≤◌, length, take};
ghost use Rattle.lines.specs.Chunks.{came, serve_of, finish_of};
ghost use Rattle.lines.specs.Replies.{widest};

use crate::keeping::close;
use crate::places::{first_place, go_on, whole_line};
use crate::runs::{first_run, serve_steps};
use crate::turns::take_turn;
use crate::{ANSWERS, BLANK, CHUNK, Kept};

impl Kept {
    // Serves the lines that end in the chunk, and keeps the line that is begun at its end.
    fn serve_bytes(&mut self, chunk: &[u8], out: &mut [u8]) -> usize
        requires { widest * length chunk.now ≤ length out.old }
        ensures { came self.new out.new result ≡ serve_of self.old.begun self.old.watch out.old chunk.now }
    {
        let watch = &mut self.watch;
        let mut p = first_place(self.begun, chunk);
        while p.end < chunk.len() {
            let run = first_run(p, watch.history);
            if run.step.is_some() {
                let last = serve_steps(
                    chunk,
                    run,
                    watch.history,
                    &mut watch.nodes,
                    &mut watch.versions,
                    &mut watch.board,
                    out,
                );
                p = whole_line(chunk, last.from, last.filled);
            } else {
                let turn = take_turn(p.line, watch);
                p = go_on(turn, p, chunk, out);
            }
        }
        self.begun = close(p, self.begun, chunk);
        p.filled
    }

    // Serves the first n bytes of a chunk, or all where it has no more; answers where the text of the answers ends.
    // A count stands beside the chunk, as `read` answers one, since a slice might have more bytes than the buffer has room for answers.
    pub fn serve(&mut self, chunk: &[u8; CHUNK], n: usize, out: &mut [u8; ANSWERS]) -> usize
        ensures { came self.new out.new result ≡ serve_of self.old.begun self.old.watch out.old (take n chunk.now) }
    {
        self.serve_bytes(&chunk[..n.min(CHUNK)], out)
    }

    // The input has ended, and a line that is begun ends with it.
    pub fn finish(&mut self, out: &mut [u8; ANSWERS]) -> usize
        ensures { came self.new out.new result ≡ finish_of self.old.begun self.old.watch out.old }
    {
        if self.begun.held == 0 {
            self.begun = BLANK;
            return 0;
        }
        self.serve_bytes(b"\n", out)
    }
}
