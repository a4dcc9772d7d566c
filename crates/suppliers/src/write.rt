// Writing a list as a supplier does (document 02, Change 1). A refusal changes no byte.
ghost use Rattle.std.specs.Prelude.{◌≤◌};
ghost use Rattle.prelude.specs.Limits.{most_pairs};
ghost use Rattle.suppliers.specs.Answered.{write_error_of, text_written_of};
ghost use Rattle.suppliers.specs.Lists.{ListWritten};

use crate::numbered::SizeRefusal;
use lines::{pairs_length, put_pairs_before};
use prelude::answers::NumberedSize;
use prelude::limits::MOST_PAIRS;

#[derive(Clone, Copy, Debug, PartialEq, Eq)]
pub enum WriteError {
    // 1
    LengthsDiffer,
    // 2
    TooManyPairs,
    // 72, with the bytes needed
    TooShort(usize),
}

impl SizeRefusal for WriteError {
    ghost refusal_of = { write_error_of };

    fn refusal(self) -> NumberedSize {
        match self {
            WriteError::LengthsDiffer => NumberedSize {
                number: 1,
                value: 0,
            },
            WriteError::TooManyPairs => NumberedSize {
                number: 2,
                value: 0,
            },
            WriteError::TooShort(needed) => NumberedSize {
                number: 72,
                value: needed,
            },
        }
    }
}

// Writes a line for each pair of a list of at most `limit` pairs, in its order, into the first bytes, and gives their number. Later bytes are kept. The
// codes and schedules are any words: their ranges are the build's to test.
fn write_list_for(
    limit: u32,
    codes: &[u32],
    schedules: &[u32],
    text: &mut [u8],
) -> Result<usize, WriteError>
    requires { limit ≤ 65536 }
    ensures { ListWritten limit codes.now schedules.now text.old (text_written_of result) text.new }
{
    if codes.len() != schedules.len() {
        return Err(WriteError::LengthsDiffer);
    }
    if (limit as usize) < codes.len() {
        return Err(WriteError::TooManyPairs);
    }
    let needed = pairs_length(codes, schedules);
    if text.len() < needed {
        return Err(WriteError::TooShort(needed));
    }
    put_pairs_before(text, needed, b',', codes, schedules);
    Ok(needed)
}

// Writes a list of at most as many pairs as a build takes.
pub fn write_list(codes: &[u32], schedules: &[u32], text: &mut [u8]) -> Result<usize, WriteError>
    ensures { ListWritten most_pairs codes.now schedules.now text.old (text_written_of result) text.new }
{
    write_list_for(MOST_PAIRS, codes, schedules, text)
}
