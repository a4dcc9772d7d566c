// One block of more codes than one: its pairs, which stand in the first of its cells, are put where its least multiplier places them.
#![tactic(auto)]

ghost use Rattle.std.specs.Prelude.{◌*◌, ◌<◌, ◌≡◌, length, take, replicate, set};
ghost use Rattle.hash.specs.Hash.{Codes};
ghost use Rattle.search.specs.code.Cells.{square, filled_by};
ghost use Rattle.search.specs.code.Searchable.{Searchable};
ghost use Rattle.prelude.specs.Limits.{few};
ghost use Rattle.placing.specs.code.Block.{PlacesOf, CodesPlaced, scattered, Scattering, First, Gathered, BlockPlaced};

use hash::Hasher;
use prelude::numbers::wide;
use search::cells::{more_multiplier, two_multiplier};

// A block in the words: its first cell, how many codes it has, and the cells of the table: a cell's schedule stands as many words after its code.
#[derive(Clone, Copy)]
pub struct Block {
    pub start: usize,
    pub codes: usize,
    pub cells: usize,
}

// Two values in four cells: the first at x, the second at y.
fn place_two(x: usize, y: usize, first: u32, second: u32, cells: &mut [u32])
    requires { (x < 4) × ((y < 4) × (length cells.old ≡ 4)) }
    ensures { cells.new ≡ set (set (replicate 4 0) y second) x first }
{
    cells.fill(0);
    cells[y] = second;
    cells[x] = first;
}

// Puts the codes of a block in their cells, which are all 0, and notes their places: no code is hashed again for its schedule.
fn place_codes(h: Hasher, block: &[u32], places: &mut [u32], cells: &mut [u32])
    requires hashing { Codes h.prime block.now }
    requires places_value { (h.places ≡ square block.now) × (cells.old ≡ replicate (square block.now) 0) }
    requires places_len { length places.old ≡ length block.now }
    ensures places_of { PlacesOf h.prime h.multiplier block.now places.new }
    ensures cells_after { cells.new ≡ filled_by h.prime h.multiplier block.now block.now }
{
    for i in (0..block.len()).rev() {
        let a = block[i];
        let t = h.place_of(a);
        cells[wide(t)] = a;
        places[i] = t;
    }
}

// Values at their places; the cells are all 0.
fn scatter(places: &[u32], values: &[u32], cells: &mut [u32])
    requires scattering { Scattering places.now values.now cells.old }
    requires cells_value { cells.old ≡ replicate (length cells.old) 0 }
    ensures { cells.new ≡ scattered places.now values.now (length cells.old) }
{
    for i in (0..places.len()).rev() {
        cells[wide(places[i])] = values[i];
    }
}

// Takes the first numbers out of their cells, which are then all 0.
fn take_first(cells: &mut [u32], first: &mut [u32])
    requires { First (length first.old) cells.old }
    ensures cells_after { cells.new ≡ replicate (length cells.old) 0 }
    ensures first_after { first.new ≡ take (length first.old) cells.old }
{
    // element by element: most blocks have three codes, for which a copy and a fill would be two calls
    for (i, x) in first.iter_mut().enumerate() {
        *x = cells[i];
        cells[i] = 0;
    }
}

// The codes in the first of their cells, moved to their places by the block's least multiplier. Once they are taken out, the cells are first the scratch
// buffer of the search. `own` has room for the codes, and `places` is left with their places.
fn move_codes(h: Hasher, own: &mut [u32], places: &mut [u32], cells: &mut [u32]) -> u32
    requires first { First (length own.old) cells.old × Searchable h.prime (take (length own.old) cells.old) }
    requires cells_len { (h.places ≡ length cells.old) × ((length cells.old ≡ length own.old * length own.old) × (0 < length own.old)) }
    requires places_len { length places.old ≡ length own.old }
    ensures { CodesPlaced h.prime (take (length own.old) cells.old) result places.new cells.new }
{
    take_first(cells, own);
    let q = more_multiplier(h, own, cells);
    place_codes(h.with_multiplier(q), own, places, cells);
    q
}

// The same of their schedules, by the places.
fn move_values(places: &[u32], values: &mut [u32], cells: &mut [u32])
    requires first { First (length values.old) cells.old }
    requires scattering { Scattering places.now values.old cells.old }
    ensures { cells.new
        ≡ scattered places.now (take (length values.old) cells.old) (length cells.old) }
{
    take_first(cells, values);
    scatter(places, values, cells);
}

// A block of two codes, in four cells.
fn write_two(p: u32, b: Block, words: &mut [u32]) -> u32
    requires { Gathered p b words.old × (b.codes ≡ 2) }
    ensures { BlockPlaced p b words.old result words.new }
{
    let start = b.start;
    let end = start + 4;
    let second = start + b.cells;
    let last = second + 4;
    let a = words[start];
    let c = words[start + 1];
    let v = words[second];
    let u = words[second + 1];
    let q = two_multiplier(p, a, c);
    let x = wide(hash::residue(p, q, a) % 4);
    let y = wide(hash::residue(p, q, c) % 4);
    place_two(x, y, a, c, &mut words[start..end]);
    place_two(x, y, v, u, &mut words[second..last]);
    q
}

// A block of more codes. `own` and `places` have room for each of its codes.
fn write_more(p: u32, b: Block, own: &mut [u32], places: &mut [u32], words: &mut [u32]) -> u32
    requires gathered { Gathered p b words.old }
    requires own_len { (length own.old ≡ b.codes) × (length places.old ≡ b.codes) }
    ensures { BlockPlaced p b words.old result words.new }
{
    let w = b.codes * b.codes;
    let start = b.start;
    let end = start + w;
    let second = start + b.cells;
    let last = second + w;
    let h = Hasher::new(p, 1, w as u32);
    let q = move_codes(h, own, places, &mut words[start..end]);
    move_values(places, own, &mut words[second..last]);
    q
}

// A block of any codes but one; gives its multiplier. Most have two, which need no loop.
pub fn write_block(p: u32, b: Block, own: &mut [u32], places: &mut [u32], words: &mut [u32]) -> u32
    requires gathered { Gathered p b words.old }
    requires own_len { (length own.old ≡ few) × (length places.old ≡ few) }
    ensures { BlockPlaced p b words.old result words.new }
{
    let m = b.codes;
    if m == 2 {
        return write_two(p, b, words);
    }
    write_more(p, b, &mut own[..m], &mut places[..m], words)
}
