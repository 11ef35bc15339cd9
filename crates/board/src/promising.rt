// What the busy updates of the board may still make: counted record by record, and reckoned once at the end.
// Records at W and beyond are never read.
ghost use Rattle.std.specs.Prelude.{◌≡◌, true, ◌+◌, ◌*◌, ◌%◌, ◌<◌, ◌≤◌, ◌^◌, leb, length};
ghost use Rattle.trie.specs.Size.{height_of, most_workers};
ghost use Rattle.trie.specs.Record.{promised_of};
ghost use Rattle.board.specs.Promising.{most_share, made_of, counted, still_due};

use trie::{Damage, Phase, Worker};

// The versions that one update may make at most, 1 + h.
#[tactic(auto, using(crate::proofs::PromisingLaws::share_small))]
pub(crate) fn share(n: u64) -> u64
    ensures { result ≡ height_of n + 1 }
{
    tables::height(n) + 1
}

// The updates among some workers: how many there are, how many versions they have made, and whether each is within its share.
// A flag and no Result: loops that stop at damage make starts and steps a seventh and a quarter slower (docs/DECISIONS.md, 42).
#[derive(Clone, Copy)]
struct Tally {
    updates: u64,
    made: u64,
    within: bool,
}

const NOTHING: Tally = Tally {
    updates: 0,
    made: 0,
    within: true,
};

// What the worker's update has made, of which the seven lowest bits count, and none where it has no update.
// It is cut where it is read: handed on whole it would be read behind a branch, which nothing foretells.
fn made_low(w: Worker) -> u64
    ensures { result ≡ made_of w.phase % 128 }
{
    match w.phase {
        Phase::Refresh(c, _) => c.made % 128,
        _ => 0,
    }
}

// Whether the worker's update has made no more than its share.
fn is_within_share(share: u64, w: Worker) -> bool
    ensures { result ≡ leb (made_of w.phase) share }
{
    !matches!(w.phase, Phase::Refresh(c, _) if share < c.made)
}

// One worker more. No sum hangs on a branch by what the worker is at: nothing foretells that.
// A number within its share is below 128, so that the sum of what is made is exact where all are within.
fn count_in(share: u64, t: Tally, w: Worker) -> Tally
    requires { (t.updates + 1 < 2 ^ 64) × (t.made + 128 < 2 ^ 64) }
    ensures { result ≡ counted share t w.phase }
{
    Tally {
        updates: t.updates + u64::from(records::is_updating(w)),
        made: t.made + made_low(w),
        within: t.within & is_within_share(share, w),
    }
}

// What the updates counted may still make: a share each, less what they have made.
fn still_due(share: u64, t: Tally) -> Result<u64, Damage>
    requires { (t.updates * share < 2 ^ 64) × (t.within ≡ true → t.made ≤ t.updates * share) }
    ensures { result ≡ still_due share t }
{
    if t.within {
        Ok(t.updates * share - t.made)
    } else {
        Err(Damage)
    }
}

#[tactic(auto, using(crate::proofs::CallLaws::of_promised))]
pub(crate) fn promised(share: u64, w: usize, board: &[Worker]) -> Result<u64, Damage>
    requires { (share ≤ most_share) × (w ≤ most_workers) × (w ≤ length board.now) }
    ensures { result ≡ promised_of share w board.now }
{
    let mut sum = NOTHING;
    for worker in &board[..w] {
        sum = count_in(share, sum, *worker);
    }
    still_due(share, sum)
}
