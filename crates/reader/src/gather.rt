// Gathering the pairs of the cells that hold a code, or all but one.
ghost use Rattle.std.specs.Prelude.{◌≡◌};
ghost use Rattle.reader.specs.code.Gathering.{is_other, others, Gatherable, Gathered};

// A cell with word a holds a code other than this one.
pub fn is_other(a: u32, code: u32) -> bool
    ensures { result ≡ is_other code a }
{
    (a != 0) & (a != code)
}

// Writes the pairs of the cells that hold a code other than this one, by rising cell. There are as many as places. Every cell is stored, and
// stays where it counts: a branch would be mispredicted.
pub fn gather_others(
    cells: &[u32],
    held: &[u32],
    code: u32,
    codes: &mut [u32],
    schedules: &mut [u32],
)
    requires { Gatherable code cells.now held.now codes.old schedules.old }
    ensures { Gathered (others code cells.now held.now) codes.new schedules.new }
{
    let mut k = 0;
    let mut i = 0;
    // two indices: the place moves only where a cell holds such a code
    while k < codes.len() {
        let a = cells[i];
        codes[k] = a;
        schedules[k] = held[i];
        k += usize::from(is_other(a, code));
        i += 1;
    }
}
