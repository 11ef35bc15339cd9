// The board as words: worker i's record stands in twelve words, from word 12i on.
// A record is read and written whole; no word of another worker is touched.
ghost use Rattle.std.specs.Prelude.{◌≡◌, ◌+◌, ◌*◌, ◌≤◌, length};
ghost use Rattle.kitesonnet.specs.Seats.{record_words, record_at, seat_put};

use crate::RECORD_WORDS;
use crate::reading::record_of;
use crate::writing::words_of;
use trie::Worker;

// The record of worker i, or that its words are none.
// They are taken by value: read one by one where they lie, they make a step a tenth longer.
pub(crate) fn record_at(board: &[u64], i: usize) -> Option<Worker>
    requires { record_words * i + record_words ≤ length board.now }
    ensures { result ≡ record_at board.now i }
{
    let (seats, _) = board.as_chunks::<RECORD_WORDS>();
    record_of(seats[i])
}

// The record of worker i, written in its words.
// It takes the board whole: where the twelve words alone are lent out of it, no proof tells what the board ends as.
// Word by word: copied as a slice, words that are just made are waited for, and a step takes a third longer.
// Always inlined, as `words_of` is: behind several `?` the compiler takes a call for rare, and with words handed on in memory a step takes half as long again.
#[inline(always)]
pub(crate) fn put_record(board: &mut [u64], i: usize, w: Worker)
    requires { record_words * i + record_words ≤ length board.old }
    ensures { board.new ≡ seat_put board.old i w }
{
    let at = RECORD_WORDS * i;
    let words = words_of(w);
    for k in 0..RECORD_WORDS {
        board[at + k] = words[k];
    }
}
