// Looking a code up (document 01, "Look up"). Of the table it reads n, c, k, the start and the end of the code's block, its q, and
// the code and schedule of one cell.
#![tactic(auto)]

ghost use Rattle.std.specs.Prelude.{◌<◌, ◌≡◌};
ghost use Rattle.lookup.specs.Lookup.{in_cell, in_block, lookup_of};
ghost use Rattle.table.specs.code.Sized.{Block, Cell};
ghost use Rattle.lookup.specs.Found.{found_of, lookup_error_of};
ghost use Rattle.prelude.specs.Limits.{most_pairs};

use prelude::answers::{Numbered, Refusal};
use prelude::limits::Format;
use prelude::numbers::outside;
use table::words::{
    bad_sizes, block_end, block_multiplier, block_of, block_start, cell_code, cell_in,
    cell_schedule,
};

pub mod branch_free;

// A code that the table has: its schedule, and the cell that it is in.
#[derive(Clone, Copy, Debug, PartialEq, Eq)]
pub struct Found {
    pub schedule: u32,
    pub cell: u32,
}

// What refuses a lookup. A code that the table does not have is no error.
#[derive(Clone, Copy, Debug, PartialEq, Eq)]
pub enum LookupError {
    // 31
    CodeOutOfRange,
    // 32
    TooFewWords,
    // 33: any condition of 12 to 15
    BadSizes,
    // 34
    BadBlock,
}

impl Refusal for LookupError {
    ghost refusal_of = { lookup_error_of };

    fn refusal(self) -> Numbered {
        let number = match self {
            LookupError::CodeOutOfRange => 31,
            LookupError::TooFewWords => 32,
            LookupError::BadSizes => 33,
            LookupError::BadBlock => 34,
        };
        Numbered { number, value: 0 }
    }
}

// The answer from cell i, the one that the code can be in.
#[tactic(auto, unfolding(crate::specs::Lookup::in_cell))]
fn in_cell(words: &[u32], code: u32, i: usize) -> Result<Option<Found>, LookupError>
    requires { Cell words.now i }
    ensures { found_of result ≡ in_cell words.now code i }
{
    if cell_code(words, i) != code {
        return Ok(None);
    }
    let schedule = cell_schedule(words, i);
    if outside(1, 999, schedule) {
        return Err(LookupError::BadBlock);
    }
    let cell = i as u32;
    Ok(Some(Found { schedule, cell }))
}

// The answer from block j, the code's own. The q of a block without cells is not looked at.
#[tactic(auto, unfolding(crate::specs::Lookup::in_block))]
pub fn in_block(p: u32, words: &[u32], code: u32, j: usize) -> Result<Option<Found>, LookupError>
    requires { (code < p) × Block words.now j }
    ensures { found_of result ≡ in_block p words.now code j }
{
    let start = block_start(words, j);
    let end = block_end(words, j);
    if end < start {
        return Err(LookupError::BadBlock);
    }
    if words[1] < end {
        return Err(LookupError::BadBlock);
    }
    if start == end {
        return Ok(None);
    }
    if outside(1, p - 1, block_multiplier(words, j)) {
        return Err(LookupError::BadBlock);
    }
    in_cell(words, code, cell_in(p, words, j, code))
}

// The answer for any words of a format.
#[tactic(auto, unfolding(crate::specs::Lookup::lookup_of))]
pub fn lookup_for(format: Format, words: &[u32], code: u32) -> Result<Option<Found>, LookupError>
    ensures { found_of result ≡ lookup_of format.prime format.limit words.now code }
{
    if outside(1, format.prime - 1, code) {
        return Err(LookupError::CodeOutOfRange);
    }
    if words.len() < 3 {
        return Err(LookupError::TooFewWords);
    }
    if bad_sizes(format, words) {
        return Err(LookupError::BadSizes);
    }
    if words[0] == 0 {
        return Ok(None);
    }
    in_block(
        format.prime,
        words,
        code,
        block_of(format.prime, words, code),
    )
}

// The schedule and the cell of a code in any words: found, absent, or refused by 31 to 34. It writes nothing and relies on no earlier check.
pub fn lookup(words: &[u32], code: u32) -> Result<Option<Found>, LookupError>
    ensures { found_of result ≡ lookup_of 65537 most_pairs words.now code }
{
    lookup_for(Format::product(), words, code)
}
