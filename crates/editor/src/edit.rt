// Putting one code in and taking one out, into a second buffer (document 01, "Put in, take out"). The old table is read only.
ghost use Rattle.std.specs.Prelude.{◌≤◌, ◌≡◌};
ghost use Rattle.hash.specs.Theorems.{Prime};
ghost use Rattle.prelude.specs.Answers.{into_room};
ghost use Rattle.prelude.specs.Limits.{room, most_pairs};
ghost use Rattle.audit.specs.WellFormed.{WellFormed};
ghost use Rattle.editor.specs.Edit.{Inserted, Removed};
ghost use Rattle.editor.specs.Edited.{edit_error_of, edited_of};
ghost use Rattle.editor.specs.declared.edit.EditError.TheVariants.{Refused};
ghost use Rattle.editor.specs.code.Editing.{InRange, PutIn, TakenOut};

use crate::changes::{Change, count_others, write_changed};
use audit::check::{CheckError, check_for};
use prelude::answers::{Numbered, Refusal};
use prelude::limits::Format;
use prelude::numbers::{outside, wide};

// Why a table is not changed.
#[derive(Clone, Copy, Debug, PartialEq, Eq)]
pub enum EditError {
    // 51
    CodeOutOfRange,
    // 52
    ScheduleOutOfRange,
    // 53
    Full,
    // 54, with the new total
    TooShort(u32),
    // 55
    NotThere,
    // 11 to 21, of the old table
    Refused(CheckError),
}

impl From<CheckError> for EditError {
    ghost from_gives = { λ e r. r ≡ Refused e };

    fn from(e: CheckError) -> EditError {
        EditError::Refused(e)
    }
}

impl Refusal for EditError {
    ghost refusal_of = { edit_error_of };

    fn refusal(self) -> Numbered {
        let (number, value) = match self {
            EditError::CodeOutOfRange => (51, 0),
            EditError::ScheduleOutOfRange => (52, 0),
            EditError::Full => (53, 0),
            EditError::TooShort(total) => (54, total),
            EditError::NotThere => (55, 0),
            EditError::Refused(e) => return e.refusal(),
        };
        Numbered { number, value }
    }
}

// What a build of the changed list answers: 54, or the new total.
fn rebuilt(lent: usize, total: u32) -> Result<u32, EditError>
    ensures { edited_of result ≡ into_room 54 total lent }
{
    if lent < wide(total) {
        return Err(EditError::TooShort(total));
    }
    Ok(total)
}

// From 53 on: a table with as many other codes as the limit is full.
fn put_in(
    format: Format,
    words: &[u32],
    code: u32,
    schedule: u32,
    second: &mut [u32],
) -> Result<u32, EditError>
    requires prime { Prime format.prime }
    requires limit_le_room { format.limit ≤ room }
    requires well_formed { WellFormed format.prime format.limit words.now }
    requires in_range { InRange format.prime code schedule }
    ensures { PutIn format.prime format.limit words.now code schedule second.old (edited_of result) second.new }
{
    let others = count_others(words, code);
    if others == wide(format.limit) {
        return Err(EditError::Full);
    }
    let change = Change {
        code,
        schedule: Some(schedule),
        others,
    };
    let lent = second.len();
    let total = write_changed(format.prime, words, change, second);
    rebuilt(lent, total)
}

// From 55 on: a table whose codes are all others does not have the code.
fn take_out(format: Format, words: &[u32], code: u32, second: &mut [u32]) -> Result<u32, EditError>
    requires prime { Prime format.prime }
    requires limit_le_room { format.limit ≤ room }
    requires well_formed { WellFormed format.prime format.limit words.now }
    ensures { TakenOut format.prime words.now code second.old (edited_of result) second.new }
{
    let others = count_others(words, code);
    if others == wide(words[0]) {
        return Err(EditError::NotThere);
    }
    let change = Change {
        code,
        schedule: None,
        others,
    };
    let lent = second.len();
    let total = write_changed(format.prime, words, change, second);
    rebuilt(lent, total)
}

// Putting in, for a table of a format.
fn insert_for(
    format: Format,
    words: &[u32],
    code: u32,
    schedule: u32,
    second: &mut [u32],
) -> Result<u32, EditError>
    requires prime { Prime format.prime }
    requires limit_le_room { format.limit ≤ room }
    ensures { Inserted format.prime format.limit words.now code schedule second.old (edited_of result) second.new }
{
    if outside(1, format.prime - 1, code) {
        return Err(EditError::CodeOutOfRange);
    }
    if outside(1, 999, schedule) {
        return Err(EditError::ScheduleOutOfRange);
    }
    check_for(format, words)?;
    put_in(format, words, code, schedule, second)
}

// Taking out, for a table of a format.
fn remove_for(
    format: Format,
    words: &[u32],
    code: u32,
    second: &mut [u32],
) -> Result<u32, EditError>
    requires prime { Prime format.prime }
    requires limit_le_room { format.limit ≤ room }
    ensures { Removed format.prime format.limit words.now code second.old (edited_of result) second.new }
{
    if outside(1, format.prime - 1, code) {
        return Err(EditError::CodeOutOfRange);
    }
    check_for(format, words)?;
    take_out(format, words, code, second)
}

// Puts a code in with its schedule, in place of the one that it has. The second buffer takes what the build makes of the changed list, even
// where the old multipliers are not the least. Gives the new total; the words after it are kept. Refused by 51, by 52, as the check refuses
// the old table, by 53, or by 54 with the new total: then the second buffer is kept.
pub fn insert(words: &[u32], code: u32, schedule: u32, second: &mut [u32]) -> Result<u32, EditError>
    ensures { Inserted 65537 most_pairs words.now code schedule second.old (edited_of result) second.new }
{
    insert_for(Format::product(), words, code, schedule, second)
}

// Takes a code out. The second buffer takes what the build makes of the pairs that are left. Gives the new total; the words after it are kept.
// Refused by 51, as the check refuses the old table, by 55, or by 54 with the new total: then the second buffer is kept.
pub fn remove(words: &[u32], code: u32, second: &mut [u32]) -> Result<u32, EditError>
    ensures { Removed 65537 most_pairs words.now code second.old (edited_of result) second.new }
{
    remove_for(Format::product(), words, code, second)
}
