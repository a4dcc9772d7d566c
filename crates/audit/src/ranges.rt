// Conditions 16 to 18 of document 01 on tables with the words that their sizes call for: each by the first block or cell of which it holds. Whether
// there is one is told of all at once, branch-free, so that many are tested together; the first is looked for only where there is one.
ghost use Rattle.std.specs.Prelude.{ℕ, ◌<◌, ◌≤◌, ◌≡◌, Bool, length};
ghost use Rattle.prelude.specs.Answers.{first_where};
ghost use Rattle.table.specs.Words.{code_count, cell_count, total};
ghost use Rattle.table.specs.code.Sized.{Block, Cell};
ghost use Rattle.audit.specs.Check.{bad_start, bad_block_multiplier, bad_cell};
ghost use Rattle.audit.specs.code.Ranges.{TestIs};

use prelude::limits::Format;
use prelude::numbers::{outside, wide};
use table::words::{block_multiplier, block_start, cell_code, cell_schedule};

// 16: block 0 does not start at 0, or a start is below the one before or above c. The word before the first start is k, and not looked at.
fn bad_start(words: &[u32], j: usize) -> bool
    requires { Block words.now j }
    ensures { result ≡ bad_start words.now j }
{
    let start = block_start(words, j);
    let below = start < words[2 + j];
    ((j == 0) & (start != 0)) | ((j != 0) & below) | (words[1] < start)
}

// 17: a multiplier outside 1 to p - 1.
fn bad_block_multiplier(format: Format, words: &[u32], j: usize) -> bool
    requires { Block words.now j }
    ensures { result ≡ bad_block_multiplier format.prime words.now j }
{
    outside(1, format.prime - 1, block_multiplier(words, j))
}

// 18: a code above p - 1, a schedule above 999, or exactly one of the two 0.
fn bad_cell(format: Format, words: &[u32], i: usize) -> bool
    requires { Cell words.now i }
    ensures { result ≡ bad_cell format.prime words.now i }
{
    let code = cell_code(words, i);
    let schedule = cell_schedule(words, i);
    (format.prime - 1 < code) | (999 < schedule) | ((code == 0) != (schedule == 0))
}

// The first of 0 to n - 1 of which a test holds, if there is one. Number 0 is tested apart, so that no test in the first loop depends on the index.
fn first_where<F: Fn(usize) -> bool>(n: usize, test: F) -> Option<usize>
    requires { (i : ℕ) → i < n → F.pre test i }
    ensures { (f : ℕ → Bool) → TestIs (F.post test) n f → result ≡ first_where n f }
{
    if n == 0 {
        return None;
    }
    let mut found = test(0);
    for i in 1..n {
        found = found | test(i);
    }
    if !found {
        return None;
    }
    for i in 0..n {
        if test(i) {
            return Some(i);
        }
    }
    None
}

// 16: the first block whose start is wrong.
pub(crate) fn first_bad_start(words: &[u32]) -> Option<usize>
    requires { total words.now ≤ length words.now }
    ensures { result ≡ first_where (code_count words.now) (bad_start words.now) }
{
    first_where(wide(words[0]), |j| bad_start(words, j))
}

// 17: the first block whose multiplier is out of range.
pub(crate) fn first_bad_multiplier(format: Format, words: &[u32]) -> Option<usize>
    requires { total words.now ≤ length words.now }
    ensures { result ≡ first_where (code_count words.now) (bad_block_multiplier format.prime words.now) }
{
    first_where(wide(words[0]), |j| bad_block_multiplier(format, words, j))
}

// 18: the first cell whose code and schedule are no pair, and not both 0.
pub(crate) fn first_bad_cell(format: Format, words: &[u32]) -> Option<usize>
    requires { total words.now ≤ length words.now }
    ensures { result ≡ first_where (cell_count words.now) (bad_cell format.prime words.now) }
{
    first_where(wide(words[1]), |i| bad_cell(format, words, i))
}
