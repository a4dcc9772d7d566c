// The check of a table from anywhere (document 01, "Check"): each test over the whole table before the next. Nothing here writes.
ghost use Rattle.std.specs.Prelude.{◌<◌, ◌≤◌, ◌≡◌};
ghost use Rattle.prelude.specs.Limits.{most_pairs};
ghost use Rattle.table.specs.code.Sized.{Sized};
ghost use Rattle.audit.specs.Check.{check_of};
ghost use Rattle.audit.specs.Checked.{check_error_of, checked_of};
ghost use Rattle.audit.specs.code.From.{from_count, from_places, from_starts};
ghost use Rattle.audit.specs.code.Blocks.{Lined, Ranged};

use crate::blocks::count_codes;
use crate::places::{any_unsound, first_cell, first_unsquare};
use crate::ranges::{first_bad_cell, first_bad_multiplier, first_bad_start};
use prelude::answers::{Numbered, Refusal};
use prelude::limits::Format;
use prelude::numbers::wide;
use table::words::{bad_multiplier, table_hash, too_many_cells, too_many_codes, too_short, total};

// What an accepted table has.
#[derive(Clone, Copy, Debug, PartialEq, Eq)]
pub struct Accepted {
    // n
    pub codes: u32,
    // the words that the table is of
    pub total: u32,
}

// Why a table is refused.
#[derive(Clone, Copy, Debug, PartialEq, Eq)]
pub enum CheckError {
    // 11
    TooFewWords,
    // 12
    TooManyCodes,
    // 13
    TooManyCells,
    // 14
    BadMultiplier,
    // 15, with the total
    TooShort(u32),
    // 16, with the first block
    BadStart(u32),
    // 17, with the first block
    BadBlockMultiplier(u32),
    // 18, with the first cell
    BadCell(u32),
    // 19, with the first cell
    Misplaced(u32),
    // 20, with the first block
    NotSquare(u32),
    // 21, with the codes found
    WrongCount(u32),
}

impl Refusal for CheckError {
    ghost refusal_of = { check_error_of };

    fn refusal(self) -> Numbered {
        let (number, value) = match self {
            CheckError::TooFewWords => (11, 0),
            CheckError::TooManyCodes => (12, 0),
            CheckError::TooManyCells => (13, 0),
            CheckError::BadMultiplier => (14, 0),
            CheckError::TooShort(total) => (15, total),
            CheckError::BadStart(block) => (16, block),
            CheckError::BadBlockMultiplier(block) => (17, block),
            CheckError::BadCell(cell) => (18, cell),
            CheckError::Misplaced(cell) => (19, cell),
            CheckError::NotSquare(block) => (20, block),
            CheckError::WrongCount(codes) => (21, codes),
        };
        Numbered { number, value }
    }
}

// From 21 on.
fn check_count(words: &[u32]) -> Result<Accepted, CheckError>
    requires { Lined words.now }
    ensures { checked_of result ≡ from_count words.now }
{
    let start = 3 + 2 * wide(words[0]);
    let end = start + wide(words[1]);
    let codes = count_codes(&words[start..end]);
    if codes != wide(words[0]) {
        return Err(CheckError::WrongCount(codes as u32));
    }
    Ok(Accepted {
        codes: words[0],
        total: total(words) as u32,
    })
}

// From 19 on. Which of 19 and 20 holds, and of what cell or block, is looked for only where one does.
fn check_places(p: u32, words: &[u32]) -> Result<Accepted, CheckError>
    requires { Ranged p 65536 words.now }
    ensures { checked_of result ≡ from_places p words.now }
{
    if words[0] == 0 {
        return Ok(Accepted { codes: 0, total: 3 });
    }
    let h = table_hash(p, words);
    if any_unsound(h, words) {
        if let Some(cell) = first_cell(h, words) {
            return Err(CheckError::Misplaced(cell as u32));
        }
        if let Some(block) = first_unsquare(words) {
            return Err(CheckError::NotSquare(block as u32));
        }
    }
    check_count(words)
}

// From 16 on.
fn check_blocks(format: Format, words: &[u32]) -> Result<Accepted, CheckError>
    requires { Sized format.prime 65536 words.now }
    ensures { checked_of result ≡ from_starts format.prime words.now }
{
    if let Some(block) = first_bad_start(words) {
        return Err(CheckError::BadStart(block as u32));
    }
    if let Some(block) = first_bad_multiplier(format, words) {
        return Err(CheckError::BadBlockMultiplier(block as u32));
    }
    if let Some(cell) = first_bad_cell(format, words) {
        return Err(CheckError::BadCell(cell as u32));
    }
    check_places(format.prime, words)
}

// The check of a table of a format.
pub fn check_for(format: Format, words: &[u32]) -> Result<Accepted, CheckError>
    requires { format.limit ≤ 65536 }
    ensures { checked_of result ≡ check_of format.prime format.limit words.now }
{
    if words.len() < 3 {
        return Err(CheckError::TooFewWords);
    }
    if too_many_codes(format.limit, words) {
        return Err(CheckError::TooManyCodes);
    }
    if too_many_cells(words) {
        return Err(CheckError::TooManyCells);
    }
    if bad_multiplier(format, words) {
        return Err(CheckError::BadMultiplier);
    }
    if too_short(words) {
        return Err(CheckError::TooShort(total(words) as u32));
    }
    check_blocks(format, words)
}

// The check of a table from anywhere: accepted, with n and the total, where it is well-formed; otherwise the first refusal of 11 to 21.
pub fn check(words: &[u32]) -> Result<Accepted, CheckError>
    ensures { checked_of result ≡ check_of 65537 most_pairs words.now }
{
    check_for(Format::product(), words)
}
