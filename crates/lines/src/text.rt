// Answers as lines of text, put at the start of a lent buffer; what is put answers how long it is.
// Nothing is written but the text itself, so that texts can follow one another in one buffer.
// No `Display` and `write!`: to a `Cursor` over the buffer they state their bytes as well, but they answer an error that cannot come here, and each contract would have to say so.
// The four functions of an answer ask for room of WIDEST bytes and take no array of so many, since of a part of a buffer that is lent as an array the check shows no fact of what the buffer ends as.
ghost use Rattle.std.specs.Prelude.{◌++◌, ◌+◌, ◌≤◌, length};
ghost use Rattle.trie.specs.Values.{sums, value_of, accepted_of, progress_of};
ghost use Rattle.grammar.specs.Text.{Put, decimal, newline, done_text, accepted_text, course_text};
ghost use Rattle.lines.specs.Replies.{widest, Answers};

use trie::{Answer, Progress, Refusal};

// The most digits that a number has.
const DIGITS: usize = 20;

fn put(text: &[u8], out: &mut [u8]) -> usize
    requires { length text.now ≤ length out.old }
    ensures { Put text.now 0 out.old out.new result }
{
    out[..text.len()].copy_from_slice(text);
    text.len()
}

// Puts a word and a number behind it.
fn spell(word: &[u8], v: u64, out: &mut [u8]) -> usize
    requires { (length word.now ≤ 8) × (28 ≤ length out.old) }
    ensures put { Put (word.now ++ decimal v) 0 out.old out.new result }
    ensures upper_bound { result ≤ 28 }
{
    let mut digits = [0u8; DIGITS];
    let k = io::decimal(v, &mut digits);
    let a = put(word, out);
    a + put(&digits[..k], &mut out[a..])
}

// A word, a number and the line's end.
fn spell_line(word: &[u8], v: u64, out: &mut [u8]) -> usize
    requires { (length word.now ≤ 8) × (29 ≤ length out.old) }
    ensures put { Put ((word.now ++ decimal v) ++ newline) 0 out.old out.new result }
    ensures upper_bound { result ≤ 29 }
{
    let a = spell(word, v, out);
    a + put(b"\n", &mut out[a..])
}

fn put_sums(count: u64, energy: u64, out: &mut [u8]) -> usize
    requires { widest ≤ length out.old }
    ensures { Answers (done_text (sums count energy)) out.old out.new result }
{
    let a = spell(b"done ", count, out);
    a + spell_line(b" ", energy, &mut out[a..])
}

#[tactic(auto, unfolding(grammar::specs::Text::done_text, grammar::specs::Text::value_text))]
fn put_answer(answer: Answer, out: &mut [u8]) -> usize
    requires { widest ≤ length out.old }
    ensures { Answers (done_text (value_of answer)) out.old out.new result }
{
    match answer {
        Answer::Yes => put(b"done yes\n", out),
        Answer::No => put(b"done no\n", out),
        Answer::None => put(b"done none\n", out),
        Answer::Level(level) => spell_line(b"done ", level.0, out),
        Answer::Cell(k) => spell_line(b"done ", k, out),
        Answer::Sums(count, energy) => put_sums(count, energy.0, out),
    }
}

#[tactic(auto, unfolding(grammar::specs::Text::accepted_text))]
pub(crate) fn put_accepted(accepted: Result<(), Refusal>, out: &mut [u8]) -> usize
    requires { widest ≤ length out.old }
    ensures { Answers (accepted_text (accepted_of accepted)) out.old out.new result }
{
    match accepted {
        Ok(()) => put(b"ok\n", out),
        Err(refusal) => spell_line(b"refused ", u64::from(refusal), out),
    }
}

#[tactic(auto, unfolding(grammar::specs::Text::course_text))]
pub(crate) fn put_progress(progress: Result<Progress, Refusal>, out: &mut [u8]) -> usize
    requires { widest ≤ length out.old }
    ensures { Answers (course_text (progress_of progress)) out.old out.new result }
{
    match progress {
        Ok(Progress::On) => put(b"on\n", out),
        Ok(Progress::Done(answer)) => put_answer(answer, out),
        Err(refusal) => spell_line(b"refused ", u64::from(refusal), out),
    }
}
