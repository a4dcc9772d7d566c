// Conditions 19 and 20 of document 01 on tables that pass 11 to 18. Whether one of them holds of any block is told of all blocks first; which of them,
// and of what cell or block, is looked for only where one does. A block's codes are handed on as the part of the words between its start and its end.
ghost use Rattle.std.specs.Prelude.{◌+◌, ◌-◌, ◌<◌, ◌≤◌, ◌≡◌, true, length};
ghost use Rattle.prelude.specs.Answers.{first_where, some};
ghost use Rattle.table.specs.Words.{code_count, cell_count};
ghost use Rattle.table.specs.code.Sized.{HashOf};
ghost use Rattle.audit.specs.Check.{misplaced, bad_square, block_codes};
ghost use Rattle.audit.specs.code.Blocks.{Lined, Ranged, BlockHashOf};
ghost use Rattle.audit.specs.code.Places.{cells_of, unsound, some_listed, InRun, OneEach, BlocksListed};

use crate::blocks::{BlockHash, count_codes, first_misplaced, test_block, test_one};
use hash::Hasher;
use prelude::numbers::wide;
use table::words::{block_end, block_multiplier, block_start};

// How many blocks are listed at a time.
const RUN: usize = 32;

// The codes of block j.
fn block_codes(words: &[u32], j: usize) -> &[u32]
    requires { Lined words.now × (j < code_count words.now) }
    ensures { result.now ≡ block_codes words.now j }
{
    let cells = 3 + 2 * wide(words[0]);
    let start = cells + wide(block_start(words, j));
    let end = cells + wide(block_end(words, j));
    &words[start..end]
}

// The hash of the codes of block j into its cells.
fn block_hash(words: &[u32], j: usize) -> BlockHash
    requires { Lined words.now × (j < code_count words.now) }
    ensures { BlockHashOf words.now j result }
{
    BlockHash {
        number: j as u32,
        multiplier: block_multiplier(words, j),
        cells: block_end(words, j) - block_start(words, j),
    }
}

// 19 holds of a cell of block j, or 20 of the block. With ONE the block has one cell, and otherwise any; then the places are a scratch buffer.
fn is_unsound<const ONE: bool>(h: Hasher, words: &[u32], j: usize, places: &mut [u16]) -> bool
    requires ranged { Ranged h.prime 65536 words.now × HashOf words.now h }
    requires j_bound { (j < code_count words.now) × (length places.old < 65536) }
    requires one { ONE ≡ true → cells_of words.now j ≡ 1 }
    ensures { result ≡ unsound h.prime words.now j }
{
    let part = block_codes(words, j);
    let block = block_hash(words, j);
    if ONE {
        let b = test_one(h, block, part);
        return b.misplaced | (1 != b.codes * b.codes);
    }
    let b = test_block(h, block, part, places);
    b.misplaced | (part.len() != b.codes * b.codes)
}

// The same of some of the listed blocks, which are numbered from `from` on.
fn some_unsound<const ONE: bool>(h: Hasher, words: &[u32], from: usize, list: &[u16]) -> bool
    requires ranged { Ranged h.prime 65536 words.now × HashOf words.now h }
    requires in_run { InRun words.now from list.now }
    requires one_each { ONE ≡ true → OneEach words.now from list.now }
    ensures { result ≡ some_listed h.prime words.now from list.now }
{
    let mut places = [0u16; 81];
    let mut found = false;
    for &t in list {
        found = found | is_unsound::<ONE>(h, words, from + usize::from(t), &mut places);
    }
    found
}

// Lists the blocks from `from` to before `to` that have one cell, and those that have more: branch-free, so that no branch on the cells of a block is
// mispredicted, here or where they are tested. A block without cells is sound.
fn list_blocks<'a>(
    words: &[u32],
    from: usize,
    to: usize,
    ones: &'a mut [u16],
    more: &'a mut [u16],
) -> (&'a [u16], &'a [u16])
    requires lined { Lined words.now × ((from ≤ to) × (to ≤ code_count words.now)) }
    requires to_bound { (to ≤ from + length ones.old) × ((to ≤ from + length more.old) × (length ones.old < 65536)) }
    ensures { BlocksListed words.now from to result.0.now result.1.now }
{
    let mut a = 0;
    let mut b = 0;
    for t in 0..to - from {
        let cells = block_end(words, from + t) - block_start(words, from + t);
        ones[a] = t as u16;
        a += usize::from(cells == 1);
        more[b] = t as u16;
        b += usize::from(1 < cells);
    }
    (&ones[..a], &more[..b])
}

// 19 or 20 holds of a block from `from` to before `to`.
fn run_unsound(h: Hasher, words: &[u32], from: usize, to: usize) -> bool
    requires ranged { Ranged h.prime 65536 words.now × HashOf words.now h }
    requires from_le_to { (from ≤ to) × ((to ≤ from + 32) × (to ≤ code_count words.now)) }
    ensures { result ≡ some (to - from) (λ t. unsound h.prime words.now (from + t)) }
{
    let mut ones = [0u16; RUN];
    let mut more = [0u16; RUN];
    let (ones, more) = list_blocks(words, from, to, &mut ones, &mut more);
    some_unsound::<true>(h, words, from, ones) | some_unsound::<false>(h, words, from, more)
}

// 19 or 20 holds of any block.
pub(crate) fn any_unsound(h: Hasher, words: &[u32]) -> bool
    requires { Ranged h.prime 65536 words.now × HashOf words.now h }
    ensures { result ≡ some (code_count words.now) (unsound h.prime words.now) }
{
    let n = wide(words[0]);
    let mut found = false;
    for from in (0..n).step_by(RUN) {
        found = found | run_unsound(h, words, from, n.min(from + RUN));
    }
    found
}

// 19: the first misplaced code's cell.
pub(crate) fn first_cell(h: Hasher, words: &[u32]) -> Option<usize>
    requires { Ranged h.prime 65536 words.now × HashOf words.now h }
    ensures { result ≡ first_where (cell_count words.now) (misplaced h.prime words.now) }
{
    for j in 0..wide(words[0]) {
        if let Some(t) = first_misplaced(h, block_hash(words, j), block_codes(words, j)) {
            return Some(wide(block_start(words, j)) + t);
        }
    }
    None
}

// 20: the first block whose cells do not number the square of its codes.
pub(crate) fn first_unsquare(words: &[u32]) -> Option<usize>
    requires { Lined words.now }
    ensures { result ≡ first_where (code_count words.now) (bad_square words.now) }
{
    for j in 0..wide(words[0]) {
        let part = block_codes(words, j);
        let codes = count_codes(part);
        if part.len() != codes * codes {
            return Some(j);
        }
    }
    None
}
