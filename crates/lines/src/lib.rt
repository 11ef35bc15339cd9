// Chunks of a listing in, the text of the answers out: all that the listing program does but read and write.
// The definitions of specs/ follow document 01, "The listing program", and the contracts are equations with them.
#![tactic(auto)]

ghost use Rattle.std.specs.Prelude.{◌≡◌};
ghost use Rattle.lines.specs.Chunks.{at_start};

mod chunks;
mod histories;
mod keeping;
mod places;
mod runs;
mod short;
mod text;
mod turns;

use grammar::Command;
pub use grammar::LONGEST_LINE;
use trie::{MOST_WORKERS, Phase, Worker};

// The most cells and the most versions of a history here, fewer than elsewhere; and tables with room for them.
pub(crate) const LISTED_CELLS: u64 = 16;

pub(crate) const LISTED_VERSIONS: u64 = 1000;

pub const NODE_TABLE: usize = 32;

pub const VERSION_TABLE: usize = 5000;

// The most bytes of a chunk, and of a buffer with room for an answer to every byte.
pub const CHUNK: usize = 16384;

pub const ANSWERS: usize = WIDEST * CHUNK;

// The most bytes that an answer takes.
pub(crate) const WIDEST: usize = 64;

// The N, W and V of the history that is under way; zeros before the first accepted open.
// Callers of `serve` may lend any three numbers, and its contract says what they stand for, so that no open history is zeros and no `None`.
#[derive(Clone, Copy)]
pub struct History {
    pub cells: u64,
    pub workers: u64,
    pub versions: u64,
}

// The bytes of a line whose end has not come yet, with zeros behind them; more held than the longest line has are too many for any command.
// Callers of `serve` may lend any `held`, and its contract says what each stands for, so a line too long is a number.
#[derive(Clone, Copy)]
pub struct Begun {
    pub bytes: [u8; LONGEST_LINE],
    pub held: usize,
}

// The line that is next, where it begins and ends, and where the text of the answers ends.
// A length stands here and below beside the buffer of the answers, since it is fixed memory that a caller lends, and no `String` that grows.
#[derive(Clone, Copy)]
pub struct Place {
    pub line: Option<Command>,
    pub from: usize,
    pub end: usize,
    pub filled: usize,
}

// A step among the lines of a chunk: its worker, and where its line ends.
#[derive(Clone, Copy)]
pub struct Step {
    pub worker: u64,
    pub end: usize,
}

// A run of steps: where its next line begins, the step that this line is, and where the text of the answers ends.
// Where there is no step the run has ended.
#[derive(Clone, Copy)]
pub struct Run {
    pub from: usize,
    pub step: Option<Step>,
    pub filled: usize,
}

// What is kept from one line to the next: the history under way, the tables and the board.
#[derive(Clone, Copy)]
pub struct Watch {
    pub history: History,
    pub nodes: [u64; NODE_TABLE],
    pub versions: [u64; VERSION_TABLE],
    pub board: [Worker; MOST_WORKERS],
}

// What is kept from one chunk to the next: the line that is begun, and what is kept from line to line.
#[derive(Clone, Copy)]
pub struct Kept {
    pub begun: Begun,
    pub watch: Watch,
}

// No line is begun.
pub(crate) const BLANK: Begun = Begun {
    bytes: [0u8; LONGEST_LINE],
    held: 0,
};

// What is kept before the first chunk: no line is begun, no history is under way, the tables are blank, and every worker is idle.
// A constant suffices, since zeros are no sizes that open accepts: `closed_at_start` of Opened.antt shows it.
pub const AT_START: Kept = Kept {
    begun: BLANK,
    watch: Watch {
        history: History {
            cells: 0,
            workers: 0,
            versions: 0,
        },
        nodes: [0u64; NODE_TABLE],
        versions: [0u64; VERSION_TABLE],
        board: [Worker { phase: Phase::Idle }; MOST_WORKERS],
    },
};

// What a listing begins with. A function stands beside the constant, since only a function has a contract that holds its value.
pub fn at_start() -> Kept
    ensures { result ≡ at_start }
{
    AT_START
}
