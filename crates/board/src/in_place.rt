// The step of a record where it lies: a thin wrapper over the step by value.
// What the step moved to is stored only where there is something to store, so a refused step does not write.
ghost use Rattle.std.specs.Prelude.{◌≡◌};
ghost use Rattle.trie.specs.Values.{progress_of};
ghost use Rattle.trie.specs.Stepping.{Stepped, step_record_of};

use records::rested;
use single::step_record;
use trie::{Next, Progress, Refusal, Worker};

// Steps a record where it lies: refusals 1, 3, 6 and 9. After an answer the record is as open leaves it.
pub fn step_in_place(
    n: u64,
    w: &mut Worker,
    nodes: &mut [u64],
    versions: &mut [u64],
) -> Result<Progress, Refusal>
    ensures { ◌≡◌ {A = Stepped} (record { told = progress_of result; worker = w.new; nodes = nodes.new; versions = versions.new })
        (step_record_of n w.old nodes.old versions.old) }
{
    match step_record(n, *w, nodes, versions)? {
        Next::On(worker) => {
            *w = worker;
            Ok(Progress::On)
        }
        Next::Done(answer) => {
            *w = rested();
            Ok(Progress::Done(answer))
        }
    }
}
