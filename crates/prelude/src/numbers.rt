// Numbers and tests that the crates above share.
ghost use Rattle.std.specs.Prelude.{◌≡◌, length, get_or};
ghost use Rattle.prelude.specs.Answers.{outside, some};
ghost use Rattle.prelude.specs.code.Within.{Within};

// A word as an index or a part of a sum.
pub fn wide(x: u32) -> usize
    ensures { Within x 4294967296 result }
{
    x as usize
}

// x is not from low to high.
pub fn outside(low: u32, high: u32, x: u32) -> bool
    ensures { result ≡ outside low high x }
{
    x < low || high < x
}

// Whether some number of a list is not from low to high: all are tested, branch-free.
pub fn some_outside(low: u32, high: u32, list: &[u32]) -> bool
    ensures { result ≡ some (length list.now) (λ i. outside low high (get_or list.now i 0)) }
{
    let mut bad = false;
    for &x in list {
        bad = bad | outside(low, high, x);
    }
    bad
}
