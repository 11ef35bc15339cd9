// The operation of a start, out of its three numbers: a kind and two arguments.
// A kind that is none, or an argument that the operation does not have and is not 0, is no operation: refusal 10.
ghost use Rattle.std.specs.Prelude.{◌≡◌};
ghost use Rattle.kitesonnet.specs.Operations.{update_of, query_of, operation_of};

use decibel::Level;
use trie::{Operation, Query, Update};

// The kinds of operations, as C lends them to `kite_start` and as they stand in the board's words. `Operation` is the enum of them, so that none stands between it and the numbers.
pub(crate) const INSERT_KIND: u64 = 1;

pub(crate) const DELETE_KIND: u64 = 2;

pub(crate) const FIND_KIND: u64 = 3;

pub(crate) const SELECT_KIND: u64 = 4;

pub(crate) const RANK_KIND: u64 = 5;

pub(crate) const TOTAL_KIND: u64 = 6;

#[tactic(auto, unfolding(crate::specs::Operations::update_of))]
pub(crate) fn update_of(kind: u64, cell: u64, level: u64) -> Option<Update>
    ensures { result ≡ update_of kind cell level }
{
    match (kind, level) {
        (INSERT_KIND, _) => Some(Update::Insert(cell, Level(level))),
        (DELETE_KIND, 0) => Some(Update::Delete(cell)),
        _ => None,
    }
}

#[tactic(auto, unfolding(crate::specs::Operations::query_of))]
pub(crate) fn query_of(kind: u64, number: u64) -> Option<Query>
    ensures { result ≡ query_of kind number }
{
    match (kind, number) {
        (FIND_KIND, _) => Some(Query::Find(number)),
        (SELECT_KIND, _) => Some(Query::Select(number)),
        (RANK_KIND, _) => Some(Query::Rank(number)),
        (TOTAL_KIND, 0) => Some(Query::Total),
        _ => None,
    }
}

#[tactic(auto, unfolding(crate::specs::Operations::operation_of))]
pub(crate) fn operation_of(kind: u64, number: u64, level: u64) -> Option<Operation>
    ensures { result ≡ operation_of kind number level }
{
    match kind {
        ..=DELETE_KIND => update_of(kind, number, level).map(Operation::Update),
        _ if level == 0 => query_of(kind, number).map(Operation::Query),
        _ => None,
    }
}
