// Reading a supplier's list (document 02, Change 1). A refusal changes no place.
ghost use Rattle.suppliers.specs.Answered.{text_error_of, text_read_of};
ghost use Rattle.suppliers.specs.Lists.{ListRead};

use crate::numbered::SizeRefusal;
use crate::scan::{fill, judge};
use prelude::answers::NumberedSize;

#[derive(Clone, Copy, Debug, PartialEq, Eq)]
pub enum TextError {
    // 71, with the first faulty line
    FaultyLine(usize),
    // 72, with the lines
    TooManyLines(usize),
}

impl SizeRefusal for TextError {
    ghost refusal_of = { text_error_of };

    fn refusal(self) -> NumberedSize {
        match self {
            TextError::FaultyLine(line) => NumberedSize {
                number: 71,
                value: line,
            },
            TextError::TooManyLines(lines) => NumberedSize {
                number: 72,
                value: lines,
            },
        }
    }
}

// Reads the pairs of a text, in the order of its lines, into the first places of two arrays, and gives their number. Later places are kept.
pub fn read_list(text: &[u8], codes: &mut [u32], schedules: &mut [u32]) -> Result<usize, TextError>
    ensures { ListRead text.now codes.old schedules.old (text_read_of result) codes.new schedules.new }
{
    let lines = judge(text)?;
    let room = codes.len().min(schedules.len());
    if room < lines {
        return Err(TextError::TooManyLines(lines));
    }
    fill(text, lines, codes, schedules);
    Ok(lines)
}
