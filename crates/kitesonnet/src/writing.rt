// The twelve words of a record, as they stand on the board.
// Each word that has no meaning in the record's phase is 0.
ghost use Rattle.std.specs.Prelude.{◌≡◌, ◌∷◌, []};
ghost use Rattle.trie.specs.Record.{cell_of, loudness_of};
ghost use Rattle.kitesonnet.specs.Writing.{kind_of, asked_of, number_of, read_of, node_read_of, left_read_of, right_read_of, update_words, climb_words, query_words, phase_words, words_of};

use crate::RECORD_WORDS;
use crate::operations::{DELETE_KIND, FIND_KIND, INSERT_KIND, RANK_KIND, SELECT_KIND, TOTAL_KIND};
use crate::reading::{
    ASK_PHASE, CLIMB_PHASE, FIND_PHASE, RANK_PHASE, READ_PHASE, SELECT_PHASE, SWAP_PHASE,
};
use trie::{Climb, Held, Phase, Query, Standing, Update, Worker};

// Its kind, its cell and its level.
fn numbers_of_update(update: Update) -> [u64; 3]
    ensures { result ≡ kind_of update ∷ cell_of update ∷ loudness_of update ∷ [] }
{
    match update {
        Update::Insert(cell, level) => [INSERT_KIND, cell, level.0],
        Update::Delete(cell) => [DELETE_KIND, cell, 0],
    }
}

// Two matches: one that gives the kind and the number makes every step some 7 per cent slower.
fn asked(query: Query) -> u64
    ensures { result ≡ asked_of query }
{
    match query {
        Query::Find(_) => FIND_KIND,
        Query::Select(_) => SELECT_KIND,
        Query::Rank(_) => RANK_KIND,
        Query::Total => TOTAL_KIND,
    }
}

fn number(query: Query) -> u64
    ensures { result ≡ number_of query }
{
    match query {
        Query::Find(k) => k,
        Query::Select(j) => j,
        Query::Rank(k) => k,
        Query::Total => 0,
    }
}

// How many versions a refresh has read, and which.
fn numbers_of_held(held: Held) -> [u64; 4]
    ensures { result ≡ read_of held ∷ node_read_of held ∷ left_read_of held ∷ right_read_of held ∷ [] }
{
    match held {
        Held::Nothing => [0, 0, 0, 0],
        Held::Node(v) => [1, v.0, 0, 0],
        Held::Left(v, l) => [2, v.0, l.0, 0],
        Held::Both(v, l, r) => [3, v.0, l.0, r.0],
    }
}

fn update_words(phase: u64, update: Update, version: u64) -> [u64; RECORD_WORDS]
    ensures { result ≡ update_words phase update version }
{
    let [kind, cell, level] = numbers_of_update(update);
    [phase, kind, cell, level, version, 0, 0, 0, 0, 0, 0, 0]
}

fn climb_words(climb: Climb, held: Held) -> [u64; RECORD_WORDS]
    ensures { result ≡ climb_words climb held }
{
    let [kind, cell, level] = numbers_of_update(climb.update);
    let yes = u64::from(climb.yes);
    let second = u64::from(climb.second);
    let [read, v, l, r] = numbers_of_held(held);
    [
        CLIMB_PHASE,
        kind,
        cell,
        level,
        yes,
        climb.node.0,
        second,
        climb.made,
        read,
        v,
        l,
        r,
    ]
}

fn ask_words(query: Query) -> [u64; RECORD_WORDS]
    ensures { result ≡ phase_words (Phase.Ask query) }
{
    [
        ASK_PHASE,
        asked(query),
        number(query),
        0,
        0,
        0,
        0,
        0,
        0,
        0,
        0,
        0,
    ]
}

fn query_words(phase: u64, k: u64, at: Standing, fourth: u64, fifth: u64) -> [u64; RECORD_WORDS]
    ensures { result ≡ query_words phase k at fourth fifth }
{
    [
        phase,
        k,
        at.depth,
        at.version.0,
        fourth,
        fifth,
        0,
        0,
        0,
        0,
        0,
        0,
    ]
}

// Always inlined, for the reason that stands at `put_record`.
#[tactic(auto, unfolding(crate::specs::Writing::words_of))]
#[inline(always)]
pub(crate) fn words_of(w: Worker) -> [u64; RECORD_WORDS]
    ensures { result ≡ words_of w }
{
    match w.phase {
        Phase::Idle => [0; RECORD_WORDS],
        Phase::Read(update) => update_words(READ_PHASE, update, 0),
        Phase::Swap(update, v) => update_words(SWAP_PHASE, update, v.0),
        Phase::Refresh(climb, held) => climb_words(climb, held),
        Phase::Ask(query) => ask_words(query),
        Phase::Find(k, at) => query_words(FIND_PHASE, k, at, 0, 0),
        Phase::Rank(k, at, count, energy) => query_words(RANK_PHASE, k, at, count, energy.0),
        Phase::Select(j, at, node, passed) => query_words(SELECT_PHASE, j, at, node.0, passed),
    }
}
