// The limit on pairs, and the room of local arrays: each is said here alone (specs/Limits.antt).
ghost use Rattle.std.specs.Prelude.{◌≤◌, ◌≡◌};
ghost use Rattle.prelude.specs.Limits.{most_pairs};

// The most pairs of a list, and codes of a table.
pub const MOST_PAIRS: u32 = 2048;

// The most pairs that local arrays have places for.
pub const ROOM: usize = 2048;

// The places of the local arrays of few pairs, of a short list or of a block, which has at most 78 codes: 79 * 79 is above 3 * ROOM. A local array is set
// to 0 whole, which would take longer than the rest of a short list.
pub const FEW: usize = 128;

// What a table is built with: its prime, and the most codes that it may have. A code is below the prime, and none is 0.
#[derive(Clone, Copy)]
pub struct Format {
    pub prime: u32,
    pub limit: u32,
    ghost has_least: { 1 ≤ prime },
}

impl Format {
    // That of document 01.
    pub fn product() -> Format
        ensures { (result.prime ≡ 65537) × (result.limit ≡ most_pairs) }
    {
        Format {
            prime: 65537,
            limit: MOST_PAIRS,
        }
    }
}
