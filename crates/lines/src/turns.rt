// One line served that is no step of the history under way: the call that it makes, and the history after it.
// The board and the tables are lent on; of the version table exactly the words of V versions.
ghost use Rattle.std.specs.Prelude.{◌≡◌, false};
ghost use Rattle.grammar.specs.Text.{accepted_text};
ghost use Rattle.trie.specs.Values.{accepted_of};
ghost use Rattle.lines.specs.declared.History.{History};
ghost use Rattle.lines.specs.Watch.{watch};
ghost use Rattle.lines.specs.Turns.{answered, turned, start_line, open_line, line_turn};
ghost use Rattle.lines.specs.Calling.{stepping};

use crate::histories::{is_open, words};
use crate::{History, LISTED_CELLS, NODE_TABLE, VERSION_TABLE, Watch};
use grammar::Command;
use trie::{MOST_WORKERS, Operation, Refusal, Worker};

// A start leaves the history as it is; before the first accepted open it is refused with 10.
#[tactic(auto, unfolding(crate::specs::Turns::start_line, grammar::specs::Text::accepted_text))]
fn start_turn(worker: u64, operation: Operation, watch: &mut Watch) -> Result<(), Refusal>
    ensures { answered (accepted_text (accepted_of result)) watch.new ≡ start_line worker operation watch.old }
{
    let h = watch.history;
    if !is_open(h) {
        return Err(Refusal::Command);
    }
    let lent = words(h.versions);
    board::start(
        h.cells,
        h.workers,
        worker,
        operation,
        &watch.nodes,
        &watch.versions[..lent],
        &mut watch.board,
    )
}

// An open of more than 16 cells is refused with 1; where it is accepted, its N, W and V are the history, whatever was before.
// The tables and the board are lent one by one, since the check shows no fact of what an array in a struct ends as when a part of it is lent.
#[tactic(auto, unfolding(crate::specs::Turns::open_line, grammar::specs::Text::accepted_text))]
fn open_turn(
    asked: History,
    nodes: &mut [u64; NODE_TABLE],
    versions: &mut [u64; VERSION_TABLE],
    board: &mut [Worker; MOST_WORKERS],
) -> Result<History, Refusal>
    ensures { (h : History) → turned result h nodes.new versions.new board.new ≡ open_line asked.cells asked.workers asked.versions (watch h nodes.old versions.old board.old) }
{
    if LISTED_CELLS < asked.cells {
        return Err(Refusal::Cells);
    }
    let lent = words(asked.versions);
    board::open(
        asked.cells,
        asked.workers,
        nodes,
        &mut versions[..lent],
        board,
    )?;
    Ok(asked)
}

// Carries out what a line asks for: a line that is no command is refused with 10.
// A step of a history under way does not come here, as runs of steps are served by themselves; so one that comes is before the first accepted open.
#[tactic(auto, unfolding(crate::specs::Turns::line_turn, crate::specs::Turns::step_line, grammar::specs::Text::accepted_text))]
pub(crate) fn take_turn(line: Option<Command>, watch: &mut Watch) -> Result<(), Refusal>
    requires { stepping line watch.old.history ≡ false }
    ensures { answered (accepted_text (accepted_of result)) watch.new ≡ line_turn line watch.old }
{
    let Some(command) = line else {
        return Err(Refusal::Command);
    };
    match command {
        Command::Step(_) => Err(Refusal::Command),
        Command::Start(worker, operation) => start_turn(worker, operation, watch),
        Command::Open(cells, workers, versions) => {
            let asked = History {
                cells,
                workers,
                versions,
            };
            watch.history = open_turn(
                asked,
                &mut watch.nodes,
                &mut watch.versions,
                &mut watch.board,
            )?;
            Ok(())
        }
    }
}
