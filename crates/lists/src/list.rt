// The refusals of a list of pairs, in their order (document 01, "Build", 1 to 5).
ghost use Rattle.std.specs.Prelude.{◌≤◌, [], ◌≡◌};
ghost use Rattle.prelude.specs.Limits.{room};
ghost use Rattle.prelude.specs.Answers.{given};
ghost use Rattle.lists.specs.List.{list_or, listed_of, list_error_of};

use crate::range::first_outside;
use prelude::answers::{Numbered, Refusal};
use prelude::limits::Format;
use prelude::numbers::wide;
use repeats::first_repeated;

// Why a list is not valid: the first of 1 to 5 that holds.
#[derive(Clone, Copy, Debug, PartialEq, Eq)]
pub enum ListError {
    // 1
    LengthsDiffer,
    // 2
    TooManyPairs,
    // 3, by the index
    BadCode(u32),
    // 4, by the index
    BadSchedule(u32),
    // 5, by the index
    Repeated(u32),
}

impl Refusal for ListError {
    ghost refusal_of = { list_error_of };

    fn refusal(self) -> Numbered {
        match self {
            ListError::LengthsDiffer => Numbered {
                number: 1,
                value: 0,
            },
            ListError::TooManyPairs => Numbered {
                number: 2,
                value: 0,
            },
            ListError::BadCode(i) => Numbered {
                number: 3,
                value: i,
            },
            ListError::BadSchedule(i) => Numbered {
                number: 4,
                value: i,
            },
            ListError::Repeated(i) => Numbered {
                number: 5,
                value: i,
            },
        }
    }
}

// Whether a list is valid for a format; otherwise the first of 1 to 5 that holds. Each test is over all pairs before the next.
pub fn validate(format: Format, codes: &[u32], schedules: &[u32]) -> Result<(), ListError>
    requires { format.limit ≤ room }
    ensures { listed_of result ≡ list_or format.prime format.limit codes.now schedules.now (given []) }
{
    let n = codes.len();
    if n != schedules.len() {
        return Err(ListError::LengthsDiffer);
    }
    if wide(format.limit) < n {
        return Err(ListError::TooManyPairs);
    }
    if let Some(i) = first_outside(format.prime - 1, codes) {
        return Err(ListError::BadCode(i as u32));
    }
    if let Some(i) = first_outside(999, schedules) {
        return Err(ListError::BadSchedule(i as u32));
    }
    if let Some(i) = first_repeated(codes) {
        return Err(ListError::Repeated(i as u32));
    }
    Ok(())
}
