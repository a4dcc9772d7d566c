// Numbers out of range (refusals 3 and 4).
ghost use Rattle.std.specs.Prelude.{◌≡◌, position};
ghost use Rattle.prelude.specs.Answers.{outside};

use prelude::numbers::{outside, some_outside};

// The index of the first number of a list that is not from 1 to high. Whether there is one is told branch-free first.
pub(crate) fn first_outside(high: u32, list: &[u32]) -> Option<usize>
    ensures { result ≡ position (outside 1 high) list.now }
{
    if !some_outside(1, high, list) {
        return None;
    }
    list.iter().position(|&x| outside(1, high, x))
}
