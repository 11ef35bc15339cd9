// A run of steps: lines in a row that step the history under way.
// What a step needs to know of the history is looked up once for all of them.
ghost use Rattle.std.specs.Prelude.{◌≡◌, true, IsSome, List, ℕ, ◌+◌, ◌*◌, ◌≤◌, ◌<◌, length};
ghost use Rattle.lines.specs.declared.Begun.{Begun};
ghost use Rattle.lines.specs.declared.Watch.{Watch};
ghost use Rattle.lines.specs.Watch.{watch, opened};
ghost use Rattle.lines.specs.Replies.{widest};
ghost use Rattle.lines.specs.Places.{step_of_line, run_of, Passes, Steady, Ran};

use crate::histories::{is_open, words};
use crate::short::short_step;
use crate::text::put_progress;
use crate::{History, NODE_TABLE, Place, Run, Step, VERSION_TABLE};
use grammar::Command;
use trie::{MOST_WORKERS, Progress, Refusal, Worker};

// The step that the line at a place is, where it steps the history under way.
fn first_step(p: Place, h: History) -> Option<Step>
    ensures { result ≡ step_of_line p.line p.end h }
{
    let Some(Command::Step(worker)) = p.line else {
        return None;
    };
    is_open(h).then_some(Step { worker, end: p.end })
}

// The run that the line at a place begins.
pub(crate) fn first_run(p: Place, h: History) -> Run
    ensures { result ≡ run_of p h }
{
    Run {
        from: p.from,
        step: first_step(p, h),
        filled: p.filled,
    }
}

// A step's answer is written, and the line behind it looked at: the run goes on where that is a short step.
fn pass_step(
    progress: Result<Progress, Refusal>,
    step: Step,
    filled: usize,
    chunk: &[u8],
    out: &mut [u8],
) -> Run
    requires { (step.end < length chunk.now) × (filled + widest ≤ length out.old) }
    ensures { Passes progress step filled chunk.now out.old out.new result }
{
    let filled = filled + put_progress(progress, &mut out[filled..]);
    let from = step.end + 1;
    Run {
        from,
        step: short_step(&chunk[from..]).map(|found| Step {
            end: from + found.end,
            ..found
        }),
        filled,
    }
}

// Serves a run of steps: what a step needs to know of the history is looked up once.
// The tables and the board are lent one by one, since the check shows no fact of what an array in a struct ends as when a part of it is lent.
pub(crate) fn serve_steps(
    chunk: &[u8],
    first: Run,
    h: History,
    nodes: &mut [u64; NODE_TABLE],
    versions: &mut [u64; VERSION_TABLE],
    board: &mut [Worker; MOST_WORKERS],
    out: &mut [u8],
) -> Run
    requires { (widest * length chunk.now ≤ length out.old) × (opened h ≡ true) × Steady chunk.now first }
    ensures { Steady chunk.now result × (result.step ≡ None) × (IsSome first.step → first.from < result.from)
        × ((begun : Begun) (s₀ : Watch) (out₀ : List ℕ)
        → Ran begun chunk.now s₀ out₀ first (watch h nodes.old versions.old board.old) out.old
        → Ran begun chunk.now s₀ out₀ result (watch h nodes.new versions.new board.new) out.new) }
{
    let lent = words(h.versions);
    let mut run = first;
    while let Some(step) = run.step {
        let progress = board::step(
            h.cells,
            h.workers,
            step.worker,
            nodes,
            &mut versions[..lent],
            board,
        );
        run = pass_step(progress, step, run.filled, chunk, out);
    }
    run
}
