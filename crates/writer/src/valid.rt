// The table of a valid list: its total, and its words where they fit the room that is lent.
ghost use Rattle.std.specs.Prelude.{◌<◌, ◌≤◌, ◌≡◌, length};
ghost use Rattle.prelude.specs.Limits.{room};
ghost use Rattle.search.specs.code.Searchable.{Searchable};
ghost use Rattle.writer.specs.code.Valid.{ValidBuilt, KnownBuilt, EmptyBuilt, OneBuilt};

use crate::write::{Shape, write_table};
use prelude::limits::{FEW, ROOM};
use prelude::numbers::wide;
use search::blocks::blocks_multiplier;

// Writes a table that is known beforehand. Gives its total; where fewer words are lent none is written.
fn write_known<const N: usize>(table: [u32; N], words: &mut [u32]) -> u32
    requires { N < 4294967296 }
    ensures { KnownBuilt table.entry words.old result words.new }
{
    if words.len() < N {
        return N as u32;
    }
    words[..N].copy_from_slice(&table);
    N as u32
}

// Writes the table of the empty list, the same for any prime: 0 0 1. Gives 3; where fewer words are lent none is written.
pub fn write_empty(words: &mut [u32]) -> u32
    ensures { EmptyBuilt words.old result words.new }
{
    write_known([0, 0, 1], words)
}

// Writes the table of one pair, the same for any prime: every multiplier puts one code in one cell. Gives 7; where fewer words are lent none is written.
pub fn write_one(code: u32, schedule: u32, words: &mut [u32]) -> u32
    ensures { OneBuilt code schedule words.old result words.new }
{
    write_known([1, 1, 1, 0, 1, code, schedule], words)
}

// Writes the table of a list with a code, which 1 to 5 do not refuse, with a place for each code's block and for each block's load. Gives the total, which
// is worked out before a word is written; none is where fewer are lent.
fn write_with(
    p: u32,
    codes: &[u32],
    schedules: &[u32],
    blocks: &mut [u16],
    loads: &mut [u8],
    words: &mut [u32],
) -> u32
    requires searchable { Searchable p codes.now × ((0 < length codes.now) × (length schedules.now ≡ length codes.now)) }
    requires blocks_len { (length blocks.old ≡ length codes.now) × (length loads.old ≡ length codes.now) }
    ensures { ValidBuilt p codes.now schedules.now words.old result words.new }
{
    let found = blocks_multiplier(p, codes, blocks, loads);
    let shape = Shape {
        prime: p,
        multiplier: found.k,
        codes: codes.len(),
        cells: wide(found.c),
    };
    let total = 3 + 2 * shape.codes + 2 * shape.cells;
    let given = total as u32;
    if words.len() < total {
        return given;
    }
    write_table(shape, codes, schedules, blocks, loads, &mut words[..total]);
    given
}

// The same with scratch buffers of its own, of N places.
fn write_in<const N: usize>(p: u32, codes: &[u32], schedules: &[u32], words: &mut [u32]) -> u32
    requires searchable { Searchable p codes.now × ((0 < length codes.now) × (length schedules.now ≡ length codes.now)) }
    requires places { (length codes.now ≤ N) × (N ≤ room) }
    ensures { ValidBuilt p codes.now schedules.now words.old result words.new }
{
    let n = codes.len();
    let mut blocks = [0u16; N];
    let mut loads = [0u8; N];
    write_with(
        p,
        codes,
        schedules,
        &mut blocks[..n],
        &mut loads[..n],
        words,
    )
}

// The same of any list, with scratch buffers of the least size that serves it, since all of them are set to 0 at each call: none for the empty list.
pub fn write_valid(p: u32, codes: &[u32], schedules: &[u32], words: &mut [u32]) -> u32
    requires searchable { Searchable p codes.now }
    requires schedules_len { length schedules.now ≡ length codes.now }
    ensures { ValidBuilt p codes.now schedules.now words.old result words.new }
{
    let n = codes.len();
    if n == 0 {
        return write_empty(words);
    }
    if n <= FEW {
        return write_in::<FEW>(p, codes, schedules, words);
    }
    write_in::<ROOM>(p, codes, schedules, words)
}
