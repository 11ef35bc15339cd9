// The record that twelve words say, or that they say none.
// Each word that has no meaning in the record's phase has to be 0.
ghost use Rattle.std.specs.Prelude.{◌≡◌, ◌≤◌};
ghost use Rattle.kitesonnet.specs.Seats.{record_words};
ghost use Rattle.kitesonnet.specs.Reading.{bare, flag_of, refresh_of, climb_of, update_in, ask_in, query_in, record_of};

use crate::RECORD_WORDS;
use crate::operations::{query_of, update_of};
use decibel::Energy;
use records::rested;
use trie::{Climb, Held, NodeNumber, Phase, Query, Standing, Update, VersionNumber, Worker};

// The phases of a worker as they stand in the board's words, which C lends: the first word of its record. `Phase` is the enum of them, so that none stands between it and the numbers.
pub(crate) const IDLE_PHASE: u64 = 0;

pub(crate) const READ_PHASE: u64 = 1;

pub(crate) const SWAP_PHASE: u64 = 2;

pub(crate) const CLIMB_PHASE: u64 = 3;

pub(crate) const ASK_PHASE: u64 = 4;

pub(crate) const FIND_PHASE: u64 = 5;

pub(crate) const RANK_PHASE: u64 = 6;

pub(crate) const SELECT_PHASE: u64 = 7;

// Whether all words from the one at `from` on are 0.
fn is_bare(words: &[u64; RECORD_WORDS], from: usize) -> bool
    requires { from ≤ record_words }
    ensures { result ≡ bare words.now from }
{
    words[from..].iter().all(|&word| word == 0)
}

// No branch hangs on which of the two a word is: nothing foretells that.
#[tactic(auto, unfolding(crate::specs::Reading::flag_of))]
fn flag(word: u64) -> Option<bool>
    ensures { result ≡ flag_of word }
{
    (word <= 1).then_some(word == 1)
}

// How many of its three versions a refresh has read, and which: those that it has not read are 0.
#[tactic(auto, unfolding(crate::specs::Reading::refresh_of))]
fn refresh_of(read: u64, v: u64, l: u64, r: u64) -> Option<Held>
    ensures { result ≡ refresh_of read v l r }
{
    match [read, v, l, r] {
        [0, 0, 0, 0] => Some(Held::Nothing),
        [1, _, 0, 0] => Some(Held::Node(VersionNumber(v))),
        [2, _, _, 0] => Some(Held::Left(VersionNumber(v), VersionNumber(l))),
        [3, _, _, _] => Some(Held::Both(VersionNumber(v), VersionNumber(l), VersionNumber(r))),
        _ => None,
    }
}

#[tactic(auto, unfolding(crate::specs::Reading::climb_of))]
fn climb_of(update: Update, words: &[u64; RECORD_WORDS]) -> Option<Worker>
    ensures { result ≡ climb_of update words.now }
{
    let climb = Climb {
        update,
        yes: flag(words[4])?,
        node: NodeNumber(words[5]),
        second: flag(words[6])?,
        made: words[7],
    };
    let held = refresh_of(words[8], words[9], words[10], words[11])?;
    Some(Worker {
        phase: Phase::Refresh(climb, held),
    })
}

#[tactic(auto, unfolding(crate::specs::Reading::update_in))]
fn update_in(update: Update, words: &[u64; RECORD_WORDS]) -> Option<Worker>
    ensures { result ≡ update_in update words.now }
{
    match words[0] {
        READ_PHASE if is_bare(words, 4) => Some(Worker {
            phase: Phase::Read(update),
        }),
        SWAP_PHASE if is_bare(words, 5) => Some(Worker {
            phase: Phase::Swap(update, VersionNumber(words[4])),
        }),
        CLIMB_PHASE => climb_of(update, words),
        _ => None,
    }
}

#[tactic(auto, unfolding(crate::specs::Reading::ask_in))]
fn ask_in(query: Query, words: &[u64; RECORD_WORDS]) -> Option<Worker>
    ensures { result ≡ ask_in query words.now }
{
    is_bare(words, 3).then_some(Worker {
        phase: Phase::Ask(query),
    })
}

#[tactic(auto, unfolding(crate::specs::Reading::query_in))]
fn query_in(words: &[u64; RECORD_WORDS]) -> Option<Worker>
    ensures { result ≡ query_in words.now }
{
    let at = Standing {
        depth: words[2],
        version: VersionNumber(words[3]),
    };
    let phase = match words[0] {
        FIND_PHASE if is_bare(words, 4) => Phase::Find(words[1], at),
        RANK_PHASE if is_bare(words, 6) => Phase::Rank(words[1], at, words[4], Energy(words[5])),
        SELECT_PHASE if is_bare(words, 6) => Phase::Select(
            words[1],
            at,
            NodeNumber(words[4]),
            words[5],
        ),
        _ => return None,
    };
    Some(Worker { phase })
}

#[tactic(auto, unfolding(crate::specs::Reading::record_of))]
pub(crate) fn record_of(words: [u64; RECORD_WORDS]) -> Option<Worker>
    ensures { result ≡ record_of words }
{
    match words[0] {
        IDLE_PHASE => is_bare(&words, 1).then_some(rested()),
        READ_PHASE | SWAP_PHASE | CLIMB_PHASE => update_in(
            update_of(words[1], words[2], words[3])?,
            &words,
        ),
        ASK_PHASE => ask_in(query_of(words[1], words[2])?, &words),
        _ => query_in(&words),
    }
}
