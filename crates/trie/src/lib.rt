// The tree of cells: what its tables hold, what a worker's record holds, and what a call answers.
// Node and version numbers, levels and energies are types of their own, so that none stands in for another.
#![tactic(auto)]

ghost use Rattle.std.specs.Prelude.{◌≡◌};
ghost use Rattle.trie.specs.Refusing.{number_of};
ghost use Rattle.trie.specs.declared.Refusal.TheVariants.{Argument, Damaged};

use decibel::{Energy, Level, TooLoud};

// The most cells of a ping, the height of their tree, the most workers, the most versions, and the words of one.
pub const MOST_CELLS: u64 = 4096;

pub const TALLEST: u64 = 12;

pub const MOST_WORKERS: usize = 16;

pub const MOST_VERSIONS: u64 = 1000000;

pub const VERSION_WORDS: u64 = 5;

// The root is 1, the children of x are 2x and 2x + 1, and cell k is node N + k.
#[derive(Clone, Copy)]
pub struct NodeNumber(pub u64);

// Versions are numbered from 1; a leaf's version has 0 for left and right.
// No Option: these numbers are the tables' words, and 0 is the page's none.
#[derive(Clone, Copy, Default)]
pub struct VersionNumber(pub u64);

#[derive(Clone, Copy, Default)]
pub struct Version {
    pub left: VersionNumber,
    pub right: VersionNumber,
    pub count: u64,
    pub energy: Energy,
    pub level: Level,
}

// A change of one cell.
#[derive(Clone, Copy)]
pub enum Update {
    Insert(u64, Level),
    Delete(u64),
}

#[derive(Clone, Copy)]
pub enum Query {
    Find(u64),
    Select(u64),
    Rank(u64),
    Total,
}

#[derive(Clone, Copy)]
pub enum Operation {
    Update(Update),
    Query(Query),
}

// An update on its way up: the inner node at which it is, the versions that it has made, its result, and whether this is its second refresh there.
// The two bools stand last, where no other phase has a word: records are copied faster so.
#[derive(Clone, Copy)]
pub struct Climb {
    pub update: Update,
    pub node: NodeNumber,
    pub made: u64,
    pub yes: bool,
    pub second: bool,
}

// What the present refresh has read: the node's version, then the left child's, then the right child's.
#[derive(Clone, Copy)]
pub enum Held {
    Nothing,
    Node(VersionNumber),
    Left(VersionNumber, VersionNumber),
    Both(VersionNumber, VersionNumber, VersionNumber),
}

// Where a query stands: so many levels below the root, at this version. It has done one step more than its depth.
#[derive(Clone, Copy)]
pub struct Standing {
    pub depth: u64,
    pub version: VersionNumber,
}

// What a worker does next, with no more than it knows by then.
#[derive(Clone, Copy, Default)]
pub enum Phase {
    #[default]
    Idle,
    Read(Update),
    Swap(Update, VersionNumber),
    Refresh(Climb, Held),
    Ask(Query),
    Find(u64, Standing),
    Rank(u64, Standing, u64, Energy),
    Select(u64, Standing, NodeNumber, u64),
}

#[derive(Clone, Copy, Default)]
pub struct Worker {
    pub phase: Phase,
}

// What an operation answers.
#[derive(Clone, Copy)]
pub enum Answer {
    Yes,
    No,
    None,
    Level(Level),
    Cell(u64),
    Sums(u64, Energy),
}

// Why a call is refused. Each reason has its number on the page, and `Command` and `AnswerRow` are told by the edges alone.
#[derive(Clone, Copy, Debug, PartialEq, Eq)]
pub enum Refusal {
    Cells,
    Workers,
    Tables,
    Worker,
    Busy,
    Idle,
    Argument,
    Room,
    Damaged,
    Command,
    AnswerRow,
}

impl From<Refusal> for u64 {
    ghost from_gives = { λ refusal number. number ≡ number_of refusal };

    fn from(refusal: Refusal) -> u64 {
        match refusal {
            Refusal::Cells => 1,
            Refusal::Workers => 2,
            Refusal::Tables => 3,
            Refusal::Worker => 4,
            Refusal::Busy => 5,
            Refusal::Idle => 6,
            Refusal::Argument => 7,
            Refusal::Room => 8,
            Refusal::Damaged => 9,
            Refusal::Command => 10,
            Refusal::AnswerRow => 20,
        }
    }
}

// What is lent to a step, or what its record holds, is none that a history leaves.
#[derive(Clone, Copy, Debug, PartialEq, Eq)]
pub struct Damage;

impl From<Damage> for Refusal {
    ghost from_gives = { λ damage refusal. refusal ≡ Damaged };

    fn from(_damage: Damage) -> Refusal {
        Self::Damaged
    }
}

impl From<TooLoud> for Refusal {
    ghost from_gives = { λ loud refusal. refusal ≡ Argument };

    fn from(_loud: TooLoud) -> Refusal {
        Self::Argument
    }
}

// What a step answers where it is not refused.
// No Option: a step that goes on is not an answer that is missing, and an operation may answer none.
#[derive(Clone, Copy)]
pub enum Progress {
    On,
    Done(Answer),
}

// A worker after its step: under way, or idle with its answer given. No Result, as neither is a failure,
// and no ControlFlow, as neither breaks anything off; the names are the page's.
#[derive(Clone, Copy)]
pub enum Next {
    On(Worker),
    Done(Answer),
}

// What a step is going to do, before anything is written.
// The worker after it stands first in both, at the same place, so that the two are copied alike.
#[derive(Clone, Copy)]
pub enum Plan {
    Keep(Next),
    Put(Next, VersionNumber, NodeNumber, Version),
}

// The numbers that a step is judged by: N, h, N times 10^9, 1 + h, the versions used, and V.
#[derive(Clone, Copy)]
pub struct Bounds {
    pub cells: u64,
    pub height: u64,
    pub energy: u64,
    pub share: u64,
    pub used: u64,
    pub room: u64,
}

// A child of the version at which a query stands: where the query would stand next, and the version there.
#[derive(Clone, Copy)]
pub struct Child {
    pub standing: Standing,
    pub version: Version,
}

// The two children of the version at which a query stands, and whether they are leaves.
#[derive(Clone, Copy)]
pub struct Fork {
    pub left: Child,
    pub right: Child,
    pub last: bool,
}
