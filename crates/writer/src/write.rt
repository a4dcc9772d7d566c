// The words of a table, part by part.
ghost use Rattle.std.specs.Prelude.{◌+◌, ◌*◌, ◌<◌, ◌≤◌, ◌≡◌, length};
ghost use Rattle.prelude.specs.Limits.{few, room};
ghost use Rattle.table.specs.TwoLevel.{front_with, table_with};
ghost use Rattle.writer.specs.code.Grouping.{BlockOfEach, Loads, start_at};
ghost use Rattle.placing.specs.code.Block.{Gathered};
ghost use Rattle.writer.specs.code.Writing.{headed, begun, Writable, table_from, block_at, block_in};

use crate::grouping::{gather, list_shared, write_ends};
use placing::{Block, write_block};
use prelude::limits::FEW;
use prelude::numbers::wide;

// The numbers of a table that are known before a word is written: its prime, k, n and c.
#[derive(Clone, Copy)]
pub struct Shape {
    pub prime: u32,
    pub multiplier: u32,
    pub codes: usize,
    pub cells: usize,
}

// Writes n, c and k, and 0 in all words after them.
fn write_header(shape: Shape, words: &mut [u32])
    requires in_bounds { 3 ≤ length words.old }
    requires codes_bound { (shape.codes < 4294967296) × (shape.cells < 4294967296) }
    ensures { words.new ≡ headed shape.codes shape.cells shape.multiplier (length words.old) }
{
    words.fill(0);
    words[0] = shape.codes as u32;
    words[1] = shape.cells as u32;
    words[2] = shape.multiplier;
}

// Writes n, c and k, where the codes of each block end, the multiplier 1 for each, and 0 in all cells.
fn write_front(shape: Shape, loads: &[u8], words: &mut [u32])
    requires loads_len { (length loads.now ≡ shape.codes) × ((shape.codes ≤ room) × (shape.cells < 4294967296)) }
    requires codes_value { start_at loads.now shape.codes ≡ shape.cells }
    requires words_len { length words.old ≡ 3 + 2 * shape.codes + 2 * shape.cells }
    ensures { words.new ≡ begun shape loads.now }
{
    write_header(shape, words);
    let multipliers = 3 + shape.codes;
    let cells = multipliers + shape.codes;
    write_ends(loads, &mut words[3..multipliers]);
    // the multiplier of a block of at most one code
    words[multipliers..cells].fill(1);
}

// Writes all but the blocks of more codes than one, whose pairs are gathered in the first of their cells.
fn write_gathered(
    shape: Shape,
    codes: &[u32],
    schedules: &[u32],
    blocks: &[u16],
    loads: &[u8],
    words: &mut [u32],
)
    requires writable { Writable shape codes.now schedules.now }
    requires block_of_each { BlockOfEach shape.prime shape.multiplier codes.now blocks.now }
    requires loads { Loads shape.prime shape.multiplier codes.now loads.now }
    requires words_len { length words.old ≡ 3 + 2 * shape.codes + 2 * shape.cells }
    ensures { words.new ≡ table_from shape codes.now schedules.now 0 }
{
    write_front(shape, loads, words);
    gather(shape, codes, schedules, blocks, words);
}

// Places the pairs of block j, which has more codes than one, and writes its multiplier.
fn write_shared(
    shape: Shape,
    loads: &[u8],
    j: usize,
    own: &mut [u32],
    places: &mut [u32],
    words: &mut [u32],
)
    requires j_lt_codes { (j < shape.codes) × ((shape.codes ≤ room) × (length loads.now ≡ shape.codes)) }
    requires words_len { length words.old ≡ 3 + 2 * shape.codes + 2 * shape.cells }
    requires gathered { Gathered shape.prime (block_at shape loads.now j words.old) words.old }
    requires own_len { (length own.old ≡ few) × (length places.old ≡ few) }
    ensures { words.new ≡ block_in shape (block_at shape loads.now j words.old) j words.old }
{
    let multipliers = 3 + shape.codes;
    let b = Block {
        start: multipliers + shape.codes + wide(words[3 + j]),
        codes: usize::from(loads[j]),
        cells: shape.cells,
    };
    let q = write_block(shape.prime, b, own, places, words);
    words[multipliers + j] = q;
}

// Writes the table of a list, which the words have room for exactly, from the blocks of its codes and the loads of the blocks. A block of at most one code
// is complete once the pairs are gathered; those of more are listed, over the blocks of the codes, so that no branch on a load is mispredicted.
pub(crate) fn write_table(
    shape: Shape,
    codes: &[u32],
    schedules: &[u32],
    blocks: &mut [u16],
    loads: &[u8],
    words: &mut [u32],
)
    requires writable { Writable shape codes.now schedules.now }
    requires block_of_each { BlockOfEach shape.prime shape.multiplier codes.now blocks.old }
    requires loads { Loads shape.prime shape.multiplier codes.now loads.now }
    requires words_len { length words.old ≡ 3 + 2 * shape.codes + 2 * shape.cells }
    ensures { words.new
        ≡ table_with shape.prime (front_with shape.prime shape.multiplier codes.now) shape.cells codes.now
        schedules.now }
{
    write_gathered(shape, codes, schedules, blocks, loads, words);
    let shared = list_shared(loads, blocks);
    if shared == 0 {
        return;
    }
    let mut own = [0u32; FEW];
    let mut places = [0u32; FEW];
    for &j in &blocks[..shared] {
        write_shared(shape, loads, usize::from(j), &mut own, &mut places, words);
    }
}
