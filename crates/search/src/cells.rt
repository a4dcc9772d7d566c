// The least multiplier q of a block: each q is tried by placing the block's codes. Theory: source 000, lemma 3, which is lemma 1 with m * m places for
// m codes: some q below p puts them in different cells, so the search ends. The cells taken are a bit set of one word for at most 8 codes. For more
// the block's own cells, which are still all 0, are the scratch buffer.
ghost use Rattle.std.specs.Prelude.{ℕ, Bool, ◌<◌, ◌≤◌, ◌≡◌, [], ◌∷◌, eqb, length, replicate};
ghost use Rattle.hash.specs.Hash.{hash_of, together, Codes};
ghost use Rattle.search.specs.code.Cells.{square, separates, Unplaced, Placing, Tried, Separated, Untried};
ghost use Rattle.search.specs.code.Searchable.{Searchable};

use hash::Hasher;
use jumps::runs::after;

// Takes codes out of their cells again, which are then all 0.
fn undo(h: Hasher, codes: &[u32], cells: &mut [u32])
    requires codes { Codes h.prime codes.now }
    requires placing { Placing h.prime h.multiplier h.places codes.now 0 cells.old }
    ensures { cells.new ≡ replicate h.places 0 }
{
    for &a in codes {
        let t = h.place_of(a) as usize;
        cells[t] = 0;
    }
}

// Places the codes of a block in its cells, which are all 0, and tells whether no two fall in one cell. Where two do, the cells
// are all 0 again. The codes are taken from the last, so that a code is tested against those after it, as the definitions do.
fn place_block(h: Hasher, block: &[u32], cells: &mut [u32]) -> bool
    requires places { h.places ≡ length cells.old }
    requires unplaced { Unplaced h.prime block.now cells.old }
    ensures { Tried h.prime h.multiplier block.now cells.old cells.new result }
{
    for i in (0..block.len()).rev() {
        let a = block[i];
        let t = h.place_of(a) as usize;
        if cells[t] != 0 {
            undo(h, &block[i + 1..], cells);
            return false;
        }
        cells[t] = a;
    }
    true
}

// The least multiplier from 1 to p - 1 that puts the codes of a block in different cells. They are placed in the cells, which are all 0 and come
// back so. The search never gives up: by the lemma the loop is left by its answer alone.
fn cells_multiplier(h: Hasher, block: &[u32], cells: &mut [u32]) -> u32
    requires unplaced { Unplaced h.prime block.now cells.old }
    requires places { (0 < length block.now) × (h.places ≡ length cells.old) }
    ensures separated { Separated h.prime block.now result }
    ensures cells_unchanged { cells.new ≡ cells.old }
{
    let mut q = 1;
    // a loop of its own beside least_apart: a trial fills the cells
    while q < h.prime {
        let by = h.with_multiplier(q);
        if place_block(by, block, cells) {
            undo(by, block, cells);
            return q;
        }
        q = after(h.prime, h.places, 0, q, block);
    }
    unreachable!()
}

// Whether the codes of a block fall in different cells, branch-free: the cells taken are a bit set.
fn apart(h: Hasher, block: &[u32]) -> bool
    requires codes { Codes h.prime block.now }
    requires places_bound { h.places ≤ 64 }
    ensures { result ≡ eqb (together h.prime h.multiplier h.places block.now) 0 }
{
    let mut taken: u64 = 0;
    let mut shared: u64 = 0;
    for i in (0..block.len()).rev() {
        let bit = 1u64 << h.place_of(block[i]);
        shared = shared | (taken & bit);
        taken = taken | bit;
    }
    shared == 0
}

// The least multiplier of a block, from one on that is not past it, by a test of whether a multiplier puts the codes in different cells.
fn least_apart<F: Fn(u32) -> bool>(p: u32, block: &[u32], from: u32, is_apart: F) -> u32
    requires searchable { Searchable p block.now × (0 < length block.now) }
    requires untried { Untried p block.now from }
    requires callable { (q : ℕ) → q < p → F.pre is_apart q }
    requires tells { (q : ℕ) (r : Bool) → q < p → F.post is_apart q r → r ≡ separates p block.now q }
    ensures { Separated p block.now result }
{
    let cells = (block.len() * block.len()) as u32;
    let mut q = from;
    while !is_apart(q) {
        q = after(p, cells, 0, q, block);
    }
    q
}

// The least multiplier of a block of at most 8 codes: its cells are a bit set of one word.
fn few_multiplier(h: Hasher, block: &[u32]) -> u32
    requires searchable { Searchable h.prime block.now × (h.places ≡ square block.now) }
    requires block_nonzero { (0 < length block.now) × (length block.now ≤ 8) }
    ensures { Separated h.prime block.now result }
{
    least_apart(h.prime, block, 1, |q| apart(h.with_multiplier(q), block))
}

// Whether q puts two codes in one of four cells.
fn collide(p: u32, q: u32, a: u32, b: u32) -> bool
    requires { (q < p) × ((a < p) × (b < p)) }
    ensures { result ≡ eqb (hash_of p q 4 a) (hash_of p q 4 b) }
{
    hash::residue(p, q, a) % 4 == hash::residue(p, q, b) % 4
}

// The least multiplier of two codes. Nearly all have one of the first three, which is found branch-free; the loop's test is seldom mispredicted. The
// multiplier 1 leaves a code as it is.
pub fn two_multiplier(p: u32, a: u32, b: u32) -> u32
    requires { Searchable p (a ∷ b ∷ []) }
    ensures { Separated p (a ∷ b ∷ []) result }
{
    let first = u32::from(a % 4 == b % 4);
    let second = u32::from(collide(p, 2, a, b));
    let q = 1 + first * (1 + second);
    least_apart(p, &[a, b], q, |q| !collide(p, q, a, b))
}

// The least multiplier of any block with a code, for the hash among its cells by any one. The cells, all 0, are the scratch buffer and come back as they were.
pub fn more_multiplier(h: Hasher, block: &[u32], cells: &mut [u32]) -> u32
    requires unplaced { Unplaced h.prime block.now cells.old }
    requires places { (0 < length block.now) × (h.places ≡ length cells.old) }
    ensures separated { Separated h.prime block.now result }
    ensures cells_unchanged { cells.new ≡ cells.old }
{
    if block.len() <= 8 {
        return few_multiplier(h, block);
    }
    cells_multiplier(h, block, cells)
}
