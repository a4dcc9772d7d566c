// A branch-free lookup, for callers that take numbers. A branch on whether the code is there would be mispredicted for every second one of mixed
// codes. So both words of its cell are read, and the answer is selected: as a number in a word, since a `Result` is told by a branch.
ghost use Rattle.std.specs.Prelude.{◌-◌, ◌<◌, ◌≤◌, cond, ◌≡◌};
ghost use Rattle.lookup.specs.Lookup.{in_block, lookup_of};
ghost use Rattle.prelude.specs.Numbers.{FoundShown};
ghost use Rattle.table.specs.code.Sized.{Block, Part};
ghost use Rattle.lookup.specs.code.OneWord.{word_answer, cell_answer, cell_at, probe_answer, unreadable};
ghost use Rattle.prelude.specs.Limits.{most_pairs};

use prelude::answers::NumberedFound;
use prelude::limits::Format;
use prelude::numbers::{outside, wide};
use table::words::{bad_sizes, block_end, block_multiplier, block_of, block_start, has_blocks};

// One of two words.
fn select(test: bool, yes: u64, no: u64) -> u64
    ensures { result ≡ cond test yes no }
{
    if test {
        return yes;
    }
    no
}

// An answer from one word, a schedule in its upper half or a number in its lower, and from the cell that was read, which is the answer's where there is a
// schedule.
#[tactic(auto, unfolding(crate::specs::code::OneWord::word_answer))]
fn numbered(word: u64, read: u32) -> NumberedFound
    ensures { FoundShown (word_answer word read) result }
{
    let number = (word % 4294967296) as u32;
    let mut cell: u32 = 0;
    if number == 0 {
        cell = read;
    }
    NumberedFound {
        number: number,
        value: (word / 4294967296) as u32,
        cell: cell,
    }
}

// The answer from a block of m cells, where the code's own cell has these words.
#[tactic(auto, unfolding(crate::specs::code::OneWord::cell_answer, crate::specs::code::OneWord::word_answer))]
fn cell_answer(m: u32, code: u32, stored: u32, schedule: u32, cell: u32) -> NumberedFound
    ensures { FoundShown (cell_answer m code stored schedule cell) result }
{
    let found = select(
        outside(1, 999, schedule),
        34,
        u64::from(schedule) * 4294967296,
    );
    numbered(
        select(m == 0, 1000, select(stored == code, found, 1000)),
        cell,
    )
}

// The index of the word with the code of a cell, in a table of n codes; 0 for a block without cells.
#[tactic(auto, unfolding(crate::specs::code::OneWord::cell_at))]
fn cell_at(n: u32, m: u32, cell: u32) -> usize
    ensures { result ≡ cell_at n m cell }
{
    if m == 0 {
        return 0;
    }
    3 + 2 * wide(n) + wide(cell)
}

// The answer from the cells between start and end.
#[tactic(auto, using(crate::proofs::Probing::cell_at_below), unfolding(crate::specs::code::OneWord::probe_answer))]
fn probe(p: u32, words: &[u32], code: u32, start: u32, end: u32, q: u32) -> NumberedFound
    requires { (q < p) × ((code < p) × Part words.now start end) }
    ensures { FoundShown (probe_answer p words.now code start (end - start) q) result }
{
    let m = end - start;
    let place = hash::hash(p, q, m.max(1), code);
    let cell = start + place;
    let at = cell_at(words[0], m, cell);
    cell_answer(m, code, words[at], words[at + wide(words[1])], cell)
}

// Whether a lookup ends before it reads a cell: the start is above the end, the end above c, or q is out of range.
#[tactic(auto, unfolding(crate::specs::code::OneWord::unreadable))]
fn unreadable(p: u32, c: u32, start: u32, end: u32, q: u32) -> bool
    requires { 1 ≤ p }
    ensures { result ≡ unreadable p c start end q }
{
    if end < start {
        return true;
    }
    if c < end {
        return true;
    }
    outside(1, p - 1, q)
}

// The answer from block j, the code's own. One without cells is absent whatever its q, which is told only where the tests before the cell fail.
fn block_answer(p: u32, words: &[u32], code: u32, j: usize) -> NumberedFound
    requires { (code < p) × Block words.now j }
    ensures { FoundShown (in_block p words.now code j) result }
{
    let start = block_start(words, j);
    let end = block_end(words, j);
    let q = block_multiplier(words, j);
    let c = words[1];
    if unreadable(p, c, start, end, q) {
        return numbered(select((c < end) | (start != end), 34, 1000), 0);
    }
    probe(p, words, code, start, end, q)
}

// The answer for any words of a format. On a sound table a single run of tests leads to the block; which of
// them failed is told afterwards.
#[tactic(auto, unfolding(crate::specs::Lookup::lookup_of, crate::specs::code::OneWord::word_answer))]
fn lookup_numbered_for(format: Format, words: &[u32], code: u32) -> NumberedFound
    ensures { FoundShown (lookup_of format.prime format.limit words.now code) result }
{
    if outside(1, format.prime - 1, code) {
        return numbered(31, 0);
    }
    if has_blocks(format, words) {
        let j = block_of(format.prime, words, code);
        return block_answer(format.prime, words, code, j);
    }
    if words.len() < 3 {
        return numbered(32, 0);
    }
    numbered(select(bad_sizes(format, words), 33, 1000), 0)
}

// What `lookup` answers, as a number, a value and a cell.
pub fn lookup_numbered(words: &[u32], code: u32) -> NumberedFound
    ensures { FoundShown (lookup_of 65537 most_pairs words.now code) result }
{
    lookup_numbered_for(Format::product(), words, code)
}
