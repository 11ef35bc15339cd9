// Start records an operation in an idle record, and does nothing else.
// An update is accepted only where all that is promised still has room, so that it never lacks a version later.
ghost use Rattle.std.specs.Prelude.{◌≡◌, ◌+◌, leb};
ghost use Rattle.trie.specs.declared.Worker.{Worker};
ghost use Rattle.trie.specs.Sound.{used_sound};
ghost use Rattle.trie.specs.Starting.{check, started_by, shared, start_record_of};

use records::{is_busy, operation_fits};
use sound::{add_within, bounds, is_used_sound, is_within};
use tables::judge_tables;
use trie::{Bounds, Damage, Operation, Phase, Refusal, Worker};

// Whether used, what is promised and one share more are within V.
fn has_room(b: Bounds, promised: u64) -> bool
    ensures { result ≡ leb (b.used + promised + b.share) b.room }
{
    add_within(b.used, promised, b.room).is_ok_and(|sum| is_within(sum, b.share, b.room))
}

// The record with its operation, where there is room for it.
fn grant(b: Bounds, o: Operation, promised: u64) -> Result<Worker, Refusal>
    ensures { (w : Worker) → started_by result w ≡ check (used_sound b) 9 w (shared b o promised w) }
{
    if !is_used_sound(b) {
        return Err(Refusal::Damaged);
    }
    match o {
        Operation::Query(q) => Ok(Worker {
            phase: Phase::Ask(q),
        }),
        Operation::Update(u) => {
            if has_room(b, promised) {
                Ok(Worker {
                    phase: Phase::Read(u),
                })
            } else {
                Err(Refusal::Room)
            }
        }
    }
}

// Starts an operation in one record, given what is promised: refusals 1, 3, 5, 7, 9 and 8.
#[tactic(auto, using(crate::proofs::Grants::bounds_are), unfolding(trie::specs::Starting::start_record_of))]
pub fn start_record(
    n: u64,
    o: Operation,
    promised: Result<u64, Damage>,
    w: Worker,
    nodes: &[u64],
    versions: &[u64],
) -> Result<Worker, Refusal>
    ensures { started_by result w ≡ start_record_of n o promised w nodes.now versions.now }
{
    judge_tables(n, nodes, versions)?;
    if is_busy(w) {
        return Err(Refusal::Busy);
    }
    if !operation_fits(n, o) {
        return Err(Refusal::Argument);
    }
    grant(bounds(n, nodes, versions), o, promised?)
}
