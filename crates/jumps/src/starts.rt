// The small multipliers that put codes into too few of w places are passed over at once. While k × (high - low) is small, the quotient (k × code) / p takes few
// values. Codes with the same quotient share a place where they are equal modulo w, and codes with a common step e, a divisor of w, have only w / e remainders
// modulo w. Many codes in few places make many pairs.
ghost use Rattle.std.specs.Prelude.{◌<◌, ◌≤◌, ◌≡◌, length};
ghost use Rattle.hash.specs.Hash.{Codes};
ghost use Rattle.prelude.specs.Limits.{room};
ghost use Rattle.jumps.specs.code.Jumps.{Passed};
ghost use Rattle.jumps.specs.code.Starts.{Between, Divisor, CommonStep, crowded, Quotients, Before};

// The least and the largest code of a list.
#[derive(Clone, Copy)]
pub struct Spread {
    pub low: u32,
    pub high: u32,
}

fn extremes(codes: &[u32]) -> Spread
    requires { 0 < length codes.now }
    ensures { Between result.low result.high codes.now }
{
    let mut low = codes[0];
    let mut high = codes[0];
    for &a in codes {
        low = low.min(a);
        high = high.max(a);
    }
    Spread { low, high }
}

// Euclid's algorithm.
fn gcd(a: u32, b: u32) -> u32
    requires { 0 < a }
    ensures { Divisor a b result }
{
    let mut x = a;
    let mut y = b;
    while 0 < y {
        let rest = x % y;
        x = y;
        y = rest;
    }
    x
}

// The greatest common divisor of the places and of all differences from the least. Left early at 1.
fn common_step(w: u32, ends: Spread, codes: &[u32]) -> u32
    requires { Between ends.low ends.high codes.now × (0 < w) }
    ensures { CommonStep w ends.low codes.now result }
{
    let mut e = w;
    for &a in codes {
        if e == 1 {
            return 1;
        }
        e = gcd(e, a - ends.low);
    }
    e
}

// Whether n codes in m places make more than `most` pairs, however they lie: loads of t and t + 1 make the fewest.
fn crowds(n: u32, most: u32, m: u32) -> bool
    requires { (most ≤ room) × ((n ≤ room) × (0 < m)) }
    ensures { result ≡ crowded n most m }
{
    let t = n / m;
    2 * most + m * t * (t + 1) < 2 * t * n
}

// The most quotients for which n codes with that many remainders are still crowded, or 1.
fn quotients(n: u32, most: u32, remainders: u32) -> u32
    requires { (most ≤ room) × ((n ≤ room) × ((0 < remainders) × (remainders ≤ n))) }
    ensures { Quotients n most remainders result }
{
    let mut b: u32 = 1;
    // a range would need an end, which only the proof knows: more places than codes crowd none
    while crowds(n, most, remainders * (b + 1)) {
        b += 1;
    }
    b
}

// The first multiplier whose products for codes so far apart may differ by as many times p, or p.
fn after(p: u32, times: u32, width: u32) -> u32
    requires { (0 < p) × ((0 < times) × (0 < width)) }
    ensures { Before p times width result }
{
    let first = (u64::from(times) * u64::from(p) - 1) / u64::from(width) + 1;
    if u64::from(p) <= first {
        return p;
    }
    first as u32
}

// The first multiplier that may pass, or the prime: every one before it puts more than `most` pairs of codes together in w places.
pub(crate) fn start(p: u32, w: u32, most: u32, codes: &[u32]) -> u32
    requires codes { Codes p codes.now × ((0 < length codes.now) × ((length codes.now ≤ room) × (1 < p))) }
    requires w_nonzero { (0 < w) × (most ≤ room) }
    ensures { Passed p w most codes.now 1 result × (result ≤ p) }
{
    let n = codes.len() as u32;
    let ends = extremes(codes);
    let remainders = w / common_step(w, ends, codes);
    if n < remainders {
        return 1;
    }
    let b = quotients(n, most, remainders);
    if b == 1 {
        return 1;
    }
    after(p, b - 1, ends.high - ends.low)
}
