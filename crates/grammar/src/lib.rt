// One line of a listing, from bytes to a command. The grammar is that of specs/Grammar.antt, which the contracts cite.
// Each reader gives what it reads, or `None`; where a line may go on, it also gives the bytes that follow.
#![tactic(auto)]

ghost use Rattle.std.specs.Prelude.{◌≡◌, option_map};
ghost use Rattle.grammar.specs.Grammar.{digit_of, number_of, one_of, first_of, two_of, three_of, argument_of, insert_of, update_of, total_of, query_of, operation_of, step_of, start_of, open_of, command_of, line_of};

use decibel::Level;
use trie::{Operation, Query, Update};

#[derive(Clone, Copy)]
pub enum Command {
    Step(u64),
    Start(u64, Operation),
    Open(u64, u64, u64),
}

// The most bytes of a line that can be a command.
pub const LONGEST_LINE: usize = 40;

// The most digits of a number: the value of so many can always be held.
const MOST_DIGITS: usize = 18;

// The number that a byte stands for as a digit.
pub fn digit(b: u8) -> Option<u64>
    ensures { result ≡ digit_of b }
{
    b.is_ascii_digit().then(|| u64::from(b - b'0'))
}

// A number at the start of the bytes. Stops at the nineteenth digit, as a value of so many may be more than can be held.
// A walk, and no `position` with a `fold` behind it: the value has to stop before that digit, and the bytes are passed once.
fn read_number(s: &[u8]) -> Option<(u64, &[u8])>
    ensures { option_map (λ number. (number.0, number.1.now)) result ≡ number_of s.now }
{
    let mut value = 0;
    let mut rest = s;
    while let Some((byte, tail)) = rest.split_first() {
        let Some(ones) = digit(*byte) else {
            break;
        };
        if s.len() - rest.len() == MOST_DIGITS {
            return None;
        }
        value = value * 10 + ones;
        rest = tail;
    }
    (rest.len() < s.len()).then_some((value, rest))
}

fn read_one(s: &[u8]) -> Option<u64>
    ensures { result ≡ one_of s.now }
{
    let (number, rest) = read_number(s)?;
    rest.is_empty().then_some(number)
}

// A number with the one space that has to follow it.
fn read_first(s: &[u8]) -> Option<(u64, &[u8])>
    ensures { option_map (λ number. (number.0, number.1.now)) result ≡ first_of s.now }
{
    let (number, rest) = read_number(s)?;
    Some((number, rest.strip_prefix(b" ")?))
}

fn read_two(s: &[u8]) -> Option<(u64, u64)>
    ensures { result ≡ two_of s.now }
{
    let (first, rest) = read_first(s)?;
    Some((first, read_one(rest)?))
}

fn read_three(s: &[u8]) -> Option<(u64, u64, u64)>
    ensures { result ≡ three_of s.now }
{
    let (first, rest) = read_first(s)?;
    let (second, third) = read_two(rest)?;
    Some((first, second, third))
}

// The one number that follows the word.
fn read_argument(word: &[u8], s: &[u8]) -> Option<u64>
    ensures { result ≡ argument_of word.now s.now }
{
    read_one(s.strip_prefix(word)?)
}

fn read_insert(s: &[u8]) -> Option<Update>
    ensures { result ≡ insert_of s.now }
{
    let (cell, level) = read_two(s.strip_prefix(b" insert ")?)?;
    Some(Update::Insert(cell, Level(level)))
}

fn read_update(s: &[u8]) -> Option<Update>
    ensures { result ≡ update_of s.now }
{
    read_insert(s).or_else(|| read_argument(b" delete ", s).map(Update::Delete))
}

// Total has no argument, so nothing may follow its word.
fn read_total(s: &[u8]) -> Option<Query>
    ensures { result ≡ total_of s.now }
{
    let rest = s.strip_prefix(b" total")?;
    rest.is_empty().then_some(Query::Total)
}

fn read_query(s: &[u8]) -> Option<Query>
    ensures { result ≡ query_of s.now }
{
    read_argument(b" find ", s)
        .map(Query::Find)
        .or_else(|| read_argument(b" select ", s).map(Query::Select))
        .or_else(|| read_argument(b" rank ", s).map(Query::Rank))
        .or_else(|| read_total(s))
}

fn read_operation(s: &[u8]) -> Option<Operation>
    ensures { result ≡ operation_of s.now }
{
    read_update(s)
        .map(Operation::Update)
        .or_else(|| read_query(s).map(Operation::Query))
}

fn read_step(s: &[u8]) -> Option<Command>
    ensures { result ≡ step_of s.now }
{
    read_argument(b"step ", s).map(Command::Step)
}

fn read_start(s: &[u8]) -> Option<Command>
    ensures { result ≡ start_of s.now }
{
    let (worker, rest) = read_number(s.strip_prefix(b"start ")?)?;
    Some(Command::Start(worker, read_operation(rest)?))
}

fn read_open(s: &[u8]) -> Option<Command>
    ensures { result ≡ open_of s.now }
{
    let (cells, workers, versions) = read_three(s.strip_prefix(b"open ")?)?;
    Some(Command::Open(cells, workers, versions))
}

// Steps are the most frequent lines, so they are looked for first.
fn read_command(s: &[u8]) -> Option<Command>
    ensures { result ≡ command_of s.now }
{
    read_step(s)
        .or_else(|| read_start(s))
        .or_else(|| read_open(s))
}

// A line without its newline.
pub fn parse(s: &[u8]) -> Option<Command>
    ensures { result ≡ line_of s.now }
{
    if LONGEST_LINE < s.len() {
        return None;
    }
    read_command(s)
}
