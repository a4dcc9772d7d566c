// The least multiplier k of a list: each k is tried by counting the codes of its blocks. Theory: source 000, lemma 2, which is lemma 1 with n places for
// n codes: some k below p gives fewer than 3n cells, so the search ends. The cells have the parity of n, so that fewer than 3n is at most 3n - 2.
ghost use Rattle.std.specs.Prelude.{◌<◌, ◌≡◌, length};
ghost use Rattle.search.specs.code.Searchable.{Searchable};
ghost use Rattle.search.specs.code.Blocks.{Countable, Counted, Blocked, LeastBlocks};

use hash::Hasher;
use jumps::runs::after;

// The least multiplier of a list, and its cells.
#[derive(Clone, Copy)]
pub struct Multiplier {
    pub k: u32,
    pub c: u32,
}

// The cells under k, or an early exit once they are more than 3n - 2. A block that goes from m codes to m + 1 gets 2m + 1 cells more. The
// codes are taken from the last, as the definitions count them: each one against those after it. The block of each code and the load of each block are
// left for the counting sort. A count is a byte: 79 codes in one block are too many cells.
fn count_cells(h: Hasher, codes: &[u32], blocks: &mut [u16], counts: &mut [u8]) -> Option<u32>
    requires places { h.places ≡ length codes.now }
    requires countable { Countable h.prime codes.now blocks.old counts.old }
    ensures { Counted h.prime h.multiplier codes.now result blocks.new counts.new }
{
    counts.fill(0);
    let most = 3 * h.places - 2;
    let mut c: u32 = 0;
    for i in (0..codes.len()).rev() {
        let t = h.place_of(codes[i]);
        blocks[i] = t as u16;
        let m = u32::from(counts[t as usize]);
        c += 2 * m + 1;
        if most < c {
            return None;
        }
        counts[t as usize] = (m + 1) as u8;
    }
    Some(c)
}

// The least multiplier from 1 to p - 1 that keeps the cells of a list with a code at most 3n - 2, and the cells under it. The search never gives up: by the
// lemma the loop is left by its answer alone.
pub fn blocks_multiplier(p: u32, codes: &[u32], blocks: &mut [u16], counts: &mut [u8]) -> Multiplier
    requires searchable { Searchable p codes.now × (0 < length codes.now) }
    requires blocks_len { (length blocks.old ≡ length codes.now) × (length counts.old ≡ length codes.now) }
    ensures least_blocks { LeastBlocks p codes.now result.k result.c }
    ensures blocked { Blocked p result.k codes.now blocks.new counts.new }
{
    let n = codes.len() as u32;
    let h = Hasher::new(p, 1, n);
    let mut k = 1;
    // left with what the last counting leaves: the blocks and their loads
    while k < p {
        if let Some(c) = count_cells(h.with_multiplier(k), codes, blocks, counts) {
            return Multiplier { k, c };
        }
        k = after(p, n, n - 1, k, codes);
    }
    unreachable!()
}
