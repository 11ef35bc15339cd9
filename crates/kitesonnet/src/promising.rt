// What the busy updates of the board may still make, read from the board's words.
// Words that are no record are damage, as an update is that has made more than its share.
ghost use Rattle.std.specs.Prelude.{◌≡◌, ◌*◌, ◌≤◌, length};
ghost use Rattle.trie.specs.Size.{most_workers};
ghost use Rattle.trie.specs.Record.{owed_phase};
ghost use Rattle.kitesonnet.specs.Seats.{record_words};
ghost use Rattle.kitesonnet.specs.Promising.{owed_in, promised_in, most_share};

use crate::seats::record_at;
use trie::{Damage, Phase, Worker};

// What the worker's update may still make, and nothing where it has no update.
fn owed(share: u64, w: Worker) -> Result<u64, Damage>
    ensures { result ≡ owed_phase share w.phase }
{
    match w.phase {
        Phase::Read(_) | Phase::Swap(_, _) => Ok(share),
        Phase::Refresh(c, _) => share.checked_sub(c.made).ok_or(Damage),
        _ => Ok(0),
    }
}

// What the record that a worker's words say may still make; words that are no record are damage.
fn owed_in(share: u64, says: Option<Worker>) -> Result<u64, Damage>
    ensures { result ≡ owed_in share says }
{
    owed(share, says.ok_or(Damage)?)
}

// Crate `board` counts by a tally, for speed; words that are no record stop this sum at once.
pub(crate) fn promised_in(share: u64, w: usize, board: &[u64]) -> Result<u64, Damage>
    requires { (share ≤ most_share) × (w ≤ most_workers) × (record_words * w ≤ length board.now) }
    ensures { result ≡ promised_in share w board.now }
{
    let mut sum = 0;
    for i in 0..w {
        sum += owed_in(share, record_at(board, i))?;
    }
    Ok(sum)
}
