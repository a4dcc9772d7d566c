// The one hash function. Codes, multipliers and the prime are words of 32 bits; their products take 64.
#![tactic(auto)]

ghost use Rattle.std.specs.Prelude.{◌*◌, ◌-◌, ◌<◌, ◌≤◌, ◌≡◌};
ghost use Rattle.hash.specs.code.Contract.{Hashed, Remainder, Ready, reciprocal_of};

// The hash by one multiplier among the same places, for many codes: with the precomputed reciprocal of the number of places. It may be asked for any code
// below the prime.
#[derive(Clone, Copy)]
pub struct Hasher {
    pub prime: u32,
    pub multiplier: u32,
    pub places: u32,
    pub reciprocal: Option<u64>,
    pub ghost below: { multiplier < prime },
    pub ghost ready: { Ready prime places reciprocal },
}

impl Hasher {
    // The reciprocal is worked out here, by a division.
    pub fn new(prime: u32, multiplier: u32, places: u32) -> Self
        requires multiplier_lt_prime { multiplier < prime }
        requires places_nonzero { 0 < places }
        ensures prime_is { result.prime ≡ prime }
        ensures multiplier_is { result.multiplier ≡ multiplier }
        ensures places_is { result.places ≡ places }
    {
        Hasher {
            prime,
            multiplier,
            places,
            reciprocal: reciprocal(prime, places),
        }
    }

    // The same places by another multiplier: no division.
    pub fn with_multiplier(self, k: u32) -> Self
        requires { k < self.prime }
        ensures prime_is { result.prime ≡ self.prime }
        ensures multiplier_is { result.multiplier ≡ k }
        ensures places_is { result.places ≡ self.places }
    {
        Hasher {
            prime: self.prime,
            multiplier: k,
            places: self.places,
            reciprocal: self.reciprocal,
        }
    }

    // The place of code a, as `hash` gives it.
    #[tactic(auto, unfolding(crate::specs::Hash::hash_of))]
    pub fn place_of(self, a: u32) -> u32
        requires { a < self.prime }
        ensures { Hashed self.prime self.multiplier self.places a result }
    {
        self.remainder(residue(self.prime, self.multiplier, a))
    }

    // x mod the places, by their reciprocal: a multiplication in place of a division.
    fn remainder(self, x: u32) -> u32
        requires { x < self.prime }
        ensures { Remainder x self.places result }
    {
        let Some(reciprocal) = self.reciprocal else {
            return x % self.places;
        };
        let quotient = (u64::from(x) * reciprocal / 4294967296) as u32;
        x - quotient * self.places
    }
}

// x mod 65,537, without a division: 65,536 is one less than it, so the upper half of x counts negative.
fn by_halves(x: u64) -> u32
    requires { x ≤ 4294967296 }
    ensures { Remainder x 65537 result }
{
    let low = x % 65536;
    let high = x / 65536;
    if low < high {
        return (low + 65537 - high) as u32;
    }
    (low - high) as u32
}

// x mod 2,147,483,647, without a division: 2^31 is one more than it, so what stands above the lowest 31 bits counts once more below.
fn by_folding(x: u64) -> u32
    requires { x ≤ 4611686009837453316 }
    ensures { Remainder x 2147483647 result }
{
    let folded = x % 2147483648 + x / 2147483648;
    if folded < 2147483647 {
        return folded as u32;
    }
    (folded - 2147483647) as u32
}

// x mod 1,000,003. The remainder by 2^40 leaves x as it is, and tells the compiler that x is below: the reciprocal that it multiplies by then fits a word.
fn by_constant(x: u64) -> u32
    requires { x ≤ 1000004000004 }
    ensures { Remainder x 1000003 result }
{
    (x % 1099511627776 % 1000003) as u32
}

// x mod p, for a prime that has no form of its own.
fn by_division(p: u32, x: u64) -> u32
    requires { 0 < p }
    ensures { Remainder x p result }
{
    (x % u64::from(p)) as u32
}

// x mod p, for a prime above 65,537 and the product x of two numbers below it.
fn larger_residue(p: u32, x: u64) -> u32
    requires p_nonzero { 0 < p }
    requires x_le_square { x ≤ (p - 1) * (p - 1) }
    ensures { Remainder x p result }
{
    if p == 2147483647 {
        return by_folding(x);
    }
    if p == 1000003 {
        return by_constant(x);
    }
    by_division(p, x)
}

// (k × a) mod p. Multipliers and codes are below p wherever they are hashed, so none is tested here. The larger primes are told from 65,537 by their size: of tests for equality
// in a row the compiler makes one switch, which it leaves inside a loop over codes.
pub fn residue(p: u32, k: u32, a: u32) -> u32
    requires k_lt_p { k < p }
    requires a_lt_p { a < p }
    ensures { Remainder (k * a) p result }
{
    let x = u64::from(k) * u64::from(a);
    if 65537 < p {
        return larger_residue(p, x);
    }
    if p == 65537 {
        return by_halves(x);
    }
    by_division(p, x)
}

// The precomputed reciprocal of w, for many remainders of numbers below p: 2^32 / w rounded up, where w and p are small enough for that.
#[tactic(auto, unfolding(crate::specs::code::Contract::reciprocal_of))]
pub fn reciprocal(p: u32, w: u32) -> Option<u64>
    requires { 0 < w }
    ensures { result ≡ reciprocal_of p w }
{
    if 65537 < p {
        return None;
    }
    if 65535 < w {
        return None;
    }
    Some(4294967295 / u64::from(w) + 1)
}

// The place of code a among w places: ((k × a) mod p) mod w. For one code a division is cheaper than a reciprocal.
#[tactic(auto, unfolding(crate::specs::Hash::hash_of))]
pub fn hash(p: u32, k: u32, w: u32, a: u32) -> u32
    requires k_lt_p { k < p }
    requires a_lt_p { a < p }
    requires w_nonzero { 0 < w }
    ensures { Hashed p k w a result }
{
    residue(p, k, a) % w
}
