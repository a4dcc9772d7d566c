// One block of a table by itself: its codes are handed on as the part of the words that belongs to it, and are counted and placed there.
// Branch-free but for the lengths: whether a cell holds a code, and whether it is its own, is not jumped on.
ghost use Rattle.std.specs.Prelude.{◌<◌, ◌≤◌, ◌≡◌, length};
ghost use Rattle.prelude.specs.Answers.{first_where, some};
ghost use Rattle.prelude.specs.code.Choice.{chosen};
ghost use Rattle.audit.specs.Check.{codes_in};
ghost use Rattle.audit.specs.code.Blocks.{elsewhere, not_own, holds, misplaced_in, Handed, PlacesListed, Tested};

use hash::Hasher;
use prelude::numbers::wide;

// The hash of a block's codes into its cells, and the block's number.
#[derive(Clone, Copy)]
pub struct BlockHash {
    pub number: u32,
    pub multiplier: u32,
    pub cells: u32,
}

// What the test of some cells of a block finds: whether one holds a code and is not its own, and how many codes there are.
#[derive(Clone, Copy)]
pub struct BlockTest {
    pub misplaced: bool,
    pub codes: usize,
}

// Code a belongs to another block than j.
fn elsewhere(h: Hasher, j: u32, a: u32) -> bool
    requires { a < h.prime }
    ensures { result ≡ elsewhere h j a }
{
    h.place_of(a) != j
}

// Place t of the block is not code a's own.
fn not_own(h: Hasher, b: BlockHash, t: usize, a: u32) -> bool
    requires a_lt_prime { a < h.prime }
    requires multiplier_lt_prime { (b.multiplier < h.prime) × (0 < b.cells) }
    ensures { result ≡ not_own h b t a }
{
    let place = wide(hash::hash(h.prime, b.multiplier, b.cells, a));
    elsewhere(h, b.number, a) | (place != t)
}

// How many cells hold a code: in words, so that several are counted at once.
pub(crate) fn count_codes(part: &[u32]) -> usize
    requires { length part.now < 4294967296 }
    ensures { result ≡ codes_in part.now }
{
    let mut codes: u32 = 0;
    for &a in part {
        codes += u32::from(a != 0);
    }
    wide(codes)
}

// Lists the places that hold a code, by rising place.
fn list_codes<'a>(part: &[u32], list: &'a mut [u16]) -> &'a [u16]
    requires part_in_bounds { length part.now ≤ length list.old }
    requires list_len_bound { length list.old < 65536 }
    ensures { PlacesListed part.now result.now }
{
    let mut count = 0;
    for (t, &a) in part.iter().enumerate() {
        list[count] = t as u16;
        count += usize::from(a != 0);
    }
    &list[..count]
}

// Whether one of the listed places is not its code's own.
fn some_misplaced(h: Hasher, b: BlockHash, part: &[u32], list: &[u16]) -> bool
    requires { Handed h b part.now × (list.now ≡ chosen (holds part.now) (length part.now)) }
    ensures { result ≡ some (length part.now) (misplaced_in h b part.now) }
{
    let mut found = false;
    for &place in list {
        let t = usize::from(place);
        found = found | not_own(h, b, t, part[t]);
    }
    found
}

// The first place of a block that holds a code and is not its own.
pub(crate) fn first_misplaced(h: Hasher, b: BlockHash, part: &[u32]) -> Option<usize>
    requires { Handed h b part.now }
    ensures { result ≡ first_where (length part.now) (misplaced_in h b part.now) }
{
    for (t, &a) in part.iter().enumerate() {
        if (a != 0) & not_own(h, b, t, a) {
            return Some(t);
        }
    }
    None
}

// Counts and places the codes of a block that has one cell: the place of every code is 0.
pub(crate) fn test_one(h: Hasher, b: BlockHash, part: &[u32]) -> BlockTest
    requires { Handed h b part.now × (length part.now ≡ 1) }
    ensures { Tested h b part.now result }
{
    let a = part[0];
    BlockTest {
        misplaced: (a != 0) & elsewhere(h, b.number, a),
        codes: usize::from(a != 0),
    }
}

// Counts and places the codes of a block that has any cells. Only the codes are placed, by a list of their places, since most cells of a block are empty. The
// list is a scratch buffer; a block that is too long for it is rare.
pub(crate) fn test_block(h: Hasher, b: BlockHash, part: &[u32], list: &mut [u16]) -> BlockTest
    requires handed { Handed h b part.now }
    requires list_len_bound { length list.old < 65536 }
    ensures { Tested h b part.now result }
{
    if list.len() < part.len() {
        return BlockTest {
            misplaced: first_misplaced(h, b, part).is_some(),
            codes: count_codes(part),
        };
    }
    let places = list_codes(part, list);
    BlockTest {
        misplaced: some_misplaced(h, b, part, places),
        codes: places.len(),
    }
}
