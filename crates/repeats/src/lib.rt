// Codes equal to an earlier one (refusal 5).
#![tactic(auto)]

ghost use Rattle.std.specs.Prelude.{◌<◌, ◌≤◌, ◌≡◌, length, IfOk};
ghost use Rattle.prelude.specs.Answers.{first_where};
ghost use Rattle.prelude.specs.Limits.{room};
ghost use Rattle.prelude.specs.Pairs.{among};
ghost use Rattle.repeats.specs.Repeated.{repeated};

use crate::order::first_by_order;
use prelude::numbers::wide;

mod order;

// The most codes that are all compared with each other: of more the bit set is quicker, though it is cleared first.
const SHORT: usize = 32;

// The collisions of residues after which the indices are sorted. With the prime 65,537 the first one is a repeat; with a larger one 4,096 codes at random have
// some 125.
const COLLISIONS: u32 = 192;

// So many residues collide that the comparisons would take too long.
struct TooManyCollisions;

// Whether a is among the codes. All of them are compared, branch-free.
fn is_among(codes: &[u32], a: u32) -> bool
    ensures { result ≡ among a codes.now }
{
    let mut found = false;
    for &code in codes {
        found = found | (a == code);
    }
    found
}

// Whether the code with index i is equal to an earlier one.
fn is_repeated(codes: &[u32], i: usize) -> bool
    requires { i < length codes.now }
    ensures { result ≡ repeated codes.now i }
{
    is_among(&codes[..i], codes[i])
}

// The first code that is equal to an earlier one: every code is compared with those before it.
fn first_in_few(codes: &[u32]) -> Option<usize>
    ensures { result ≡ first_where (length codes.now) (repeated codes.now) }
{
    for i in 0..codes.len() {
        if is_repeated(codes, i) {
            return Some(i);
        }
    }
    None
}

// The same by a bit set of residues mod 65,536: a code is compared with those before it where its residue is already there. One whose residue is not there is
// none of those before it.
fn first_by_residues(codes: &[u32]) -> Result<Option<usize>, TooManyCollisions>
    ensures { IfOk result (λ first. first ≡ first_where (length codes.now) (repeated codes.now)) }
{
    let mut taken = [0u64; 1024];
    let mut left = COLLISIONS;
    for (i, &code) in codes.iter().enumerate() {
        let residue = wide(code) % 65536;
        let bit = 1u64 << (residue % 64);
        let before = taken[residue / 64];
        taken[residue / 64] = before | bit;
        let collides = before & bit != 0;
        if collides {
            let again = is_repeated(codes, i);
            if again {
                return Ok(Some(i));
            }
            if left == 0 {
                return Err(TooManyCollisions);
            }
            left -= 1;
        }
    }
    Ok(None)
}

// The first code that is equal to an earlier one.
pub fn first_repeated(codes: &[u32]) -> Option<usize>
    requires { length codes.now ≤ room }
    ensures { result ≡ first_where (length codes.now) (repeated codes.now) }
{
    if codes.len() <= SHORT {
        return first_in_few(codes);
    }
    match first_by_residues(codes) {
        Ok(first) => first,
        Err(TooManyCollisions) => first_by_order(codes),
    }
}
