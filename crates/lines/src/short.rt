// A step with a number of one or two digits, found where it lies without a search for the line's end.
// Most lines of a listing are such; any other line is found by places.rt.
ghost use Rattle.lines.specs.Places.{Found};

use crate::Step;
use grammar::digit;

const WORD: &[u8] = b"step ";

// The bytes that a step of two digits takes with its newline.
const TWO_DIGITS: usize = 8;

pub(crate) fn short_step(line: &[u8]) -> Option<Step>
    ensures { Found line.now 0 result }
{
    if line.len() < TWO_DIGITS || !line.starts_with(WORD) {
        return None;
    }
    let tens = digit(line[5])?;
    let (worker, end) = match digit(line[6]) {
        Some(ones) => (10 * tens + ones, 7),
        None => (tens, 6),
    };
    if line[end] != b'\n' {
        return None;
    }
    Some(Step { worker, end })
}
