// The words of a table, each test and each place of document 01 by itself, for the crates above. The sums are taken in
// usize, which holds them for any words.
ghost use Rattle.std.specs.Prelude.{◌<◌, ◌≤◌, ◌≡◌, length};
ghost use Rattle.table.specs.Words.{code_count, multiplier, total, block_start, block_end, block_multiplier, cell_code, cell_schedule, block_of, cell_in};
ghost use Rattle.table.specs.Sizes.{too_many_codes, too_many_cells, bad_multiplier, too_short, bad_sizes};
ghost use Rattle.prelude.specs.code.Within.{Within};
ghost use Rattle.table.specs.code.Sized.{Block, Cell, HashOf, has_blocks};

use hash::Hasher;
use prelude::limits::Format;
use prelude::numbers::{outside, wide};

// The words that the sizes call for.
pub fn total(words: &[u32]) -> usize
    requires { 3 ≤ length words.now }
    ensures { result ≡ total words.now }
{
    3 + 2 * wide(words[0]) + 2 * wide(words[1])
}

// 12: n above the limit.
pub fn too_many_codes(limit: u32, words: &[u32]) -> bool
    requires { 3 ≤ length words.now }
    ensures { result ≡ too_many_codes limit words.now }
{
    limit < words[0]
}

// 13: c above 3n - 2, or above 0 where n is 0.
pub fn too_many_cells(words: &[u32]) -> bool
    requires { 3 ≤ length words.now }
    ensures { result ≡ too_many_cells words.now }
{
    let n = words[0];
    let c = words[1];
    if n == 0 {
        return 0 < c;
    }
    3 * wide(n) - 2 < wide(c)
}

// 14: k outside 1 to p - 1.
pub fn bad_multiplier(format: Format, words: &[u32]) -> bool
    requires { 3 ≤ length words.now }
    ensures { result ≡ bad_multiplier format.prime words.now }
{
    outside(1, format.prime - 1, words[2])
}

// 15: fewer words than the total.
pub fn too_short(words: &[u32]) -> bool
    requires { 3 ≤ length words.now }
    ensures { result ≡ too_short words.now }
{
    words.len() < total(words)
}

// Any of 12 to 15.
#[tactic(auto, unfolding(crate::specs::Sizes::bad_sizes))]
pub fn bad_sizes(format: Format, words: &[u32]) -> bool
    requires { 3 ≤ length words.now }
    ensures { result ≡ bad_sizes format.prime format.limit words.now }
{
    if too_many_codes(format.limit, words) {
        return true;
    }
    if too_many_cells(words) {
        return true;
    }
    if bad_multiplier(format, words) {
        return true;
    }
    too_short(words)
}

// Whether a lookup comes to a block: three words, n above 0, and none of 12 to 15.
#[tactic(auto, unfolding(crate::specs::code::Sized::has_blocks))]
pub fn has_blocks(format: Format, words: &[u32]) -> bool
    ensures { result ≡ has_blocks format.prime format.limit words.now }
{
    if words.len() < 3 {
        return false;
    }
    if words[0] == 0 {
        return false;
    }
    !bad_sizes(format, words)
}

// Where block j starts, counted in cells.
pub fn block_start(words: &[u32], j: usize) -> u32
    requires { Block words.now j }
    ensures { result ≡ block_start words.now j }
{
    words[3 + j]
}

// Where block j ends: where the next one starts, the last at c.
pub fn block_end(words: &[u32], j: usize) -> u32
    requires { Block words.now j }
    ensures { result ≡ block_end words.now j }
{
    if j + 1 == wide(words[0]) {
        return words[1];
    }
    words[3 + (j + 1)]
}

// The multiplier q of block j.
pub fn block_multiplier(words: &[u32], j: usize) -> u32
    requires { Block words.now j }
    ensures { result ≡ block_multiplier words.now j }
{
    words[3 + wide(words[0]) + j]
}

// The code in cell i, 0 where it is empty.
pub fn cell_code(words: &[u32], i: usize) -> u32
    requires { Cell words.now i }
    ensures { result ≡ cell_code words.now i }
{
    words[3 + 2 * wide(words[0]) + i]
}

// The schedule in cell i, 0 where it is empty.
pub fn cell_schedule(words: &[u32], i: usize) -> u32
    requires { Cell words.now i }
    ensures { result ≡ cell_schedule words.now i }
{
    words[3 + 2 * wide(words[0]) + wide(words[1]) + i]
}

// The block that a code belongs to.
#[tactic(auto, unfolding(crate::specs::Words::block_of))]
pub fn block_of(p: u32, words: &[u32], code: u32) -> usize
    requires in_bounds { (3 ≤ length words.now) × (0 < code_count words.now) }
    requires words_bound { (multiplier words.now < p) × (code < p) }
    ensures { Within (block_of p words.now code) (code_count words.now) result }
{
    wide(hash::hash(p, words[2], words[0], code))
}

// The same hash for many codes.
pub fn table_hash(p: u32, words: &[u32]) -> Hasher
    requires in_bounds { (3 ≤ length words.now) × (0 < code_count words.now) }
    requires words_bound { multiplier words.now < p }
    ensures { HashOf words.now result × (result.prime ≡ p) }
{
    Hasher::new(p, words[2], words[0])
}

// The cell of block j, which has cells, that is a code's own, counted over the whole table.
#[tactic(auto, unfolding(crate::specs::Words::cell_in))]
pub fn cell_in(p: u32, words: &[u32], j: usize, code: u32) -> usize
    requires block { Block words.now j × (block_start words.now j < block_end words.now j) }
    requires j_bound { (block_multiplier words.now j < p) × (code < p) }
    ensures { Within (cell_in p words.now j code) (block_end words.now j) result }
{
    let start = block_start(words, j);
    let cells = block_end(words, j) - start;
    wide(start) + wide(hash::hash(p, block_multiplier(words, j), cells, code))
}
