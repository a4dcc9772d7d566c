// A text line by line: a first pass judges all lines, so that nothing is written before the text is known to be one of a list; a second one fills.
ghost use Rattle.std.specs.Prelude.{◌≡◌};
ghost use Rattle.suppliers.specs.Answered.{text_read_of};
ghost use Rattle.suppliers.specs.code.Scan.{TextEnd, NewlineFrom, line_end, judge_of, Fillable, Filled};

use crate::read::TextError;
use decimal::number::{digits_end, is_number, scan_number};

// Where the last line that is ended ends: past the last newline byte, or 0.
fn text_end(text: &[u8]) -> usize
    ensures { TextEnd text.now result }
{
    match text.iter().rposition(|&b| b == b'\n') {
        Some(last) => last + 1,
        None => 0,
    }
}

// Where the line of a pair from `at` on ends, if there is one. A newline byte stands there or later, so that digits end before it.
fn line_end(text: &[u8], at: usize) -> Option<usize>
    requires { NewlineFrom text.now at }
    ensures { result ≡ line_end text.now at }
{
    let comma = digits_end(text, at);
    if text[comma] != b',' {
        return None;
    }
    if !is_number(text, at, comma) {
        return None;
    }
    let end = digits_end(text, comma + 1);
    if text[end] != b'\n' {
        return None;
    }
    if !is_number(text, comma + 1, end) {
        return None;
    }
    Some(end + 1)
}

// Judges the lines up to the first faulty one, and counts them. Those that are ended come first; a rest that is not is a faulty line.
pub(crate) fn judge(text: &[u8]) -> Result<usize, TextError>
    ensures { text_read_of result ≡ judge_of text.now }
{
    let end = text_end(text);
    let mut at = 0;
    let mut lines = 0;
    // a `while`: where the next line begins is known once this one is judged
    while at < end {
        at = line_end(text, at).ok_or(TextError::FaultyLine(lines))?;
        lines += 1;
    }
    if end < text.len() {
        return Err(TextError::FaultyLine(lines));
    }
    Ok(lines)
}

// Fills the first places with the pairs of a text whose lines were judged and counted. The places after them are kept.
pub(crate) fn fill(text: &[u8], lines: usize, codes: &mut [u32], schedules: &mut [u32])
    requires { Fillable text.now lines codes.old schedules.old }
    ensures { Filled text.now codes.old schedules.old codes.new schedules.new }
{
    let mut at = 0;
    for i in 0..lines {
        let code = scan_number(text, at);
        let schedule = scan_number(text, code.end + 1);
        codes[i] = code.value as u32;
        schedules[i] = schedule.value as u32;
        at = schedule.end + 1;
    }
}
