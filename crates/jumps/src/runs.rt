// Multipliers that fail for a common reason are passed over together. Two codes in one place whose residues move by the same amount modulo the places stay
// together until one of them wraps; so where more pairs stay together than may, every multiplier up to there fails. A code that wraps once is together with some
// of the others before its wrap and with some after it, and counts by the fewer of them. How far a jump goes is left open: whatever it passes over fails.
ghost use Rattle.std.specs.Prelude.{◌+◌, ◌*◌, ◌<◌, ◌≤◌, cond, ◌≡◌, leb, ltb, length};
ghost use Rattle.hash.specs.Hash.{Codes};
ghost use Rattle.prelude.specs.Limits.{few, room};
ghost use Rattle.jumps.specs.code.Jumps.{equals, equal_pairs, wraps_at_most, turn, wrapped, key_of, keys_of, company_of, companies, Runs, Ends, Fail, Passed};

use crate::starts::start;
use prelude::limits::FEW;

// The multipliers before this one are tried one by one: nearly every list has one of them.
const PLAIN: u32 = 64;

// The most steps that are looked at.
const STEPS: u32 = 4096;

// The multipliers first, first + step, .., first + reach × step, for codes of which at most so many pairs may share one of so many places.
#[derive(Clone, Copy)]
pub struct Run {
    pub prime: u32,
    pub places: u32,
    pub most: u32,
    pub step: u32,
    pub first: u32,
    pub reach: u32,
}

// How many numbers of a list are x. All are compared, branch-free.
fn equals(list: &[u32], x: u32) -> u32
    requires { length list.now ≤ few }
    ensures { result ≡ equals x list.now }
{
    list.iter().map(|&y| u32::from(y == x)).sum()
}

// Whether the residue r wraps at most so many times up to `reach` steps s. With none it goes straight on.
fn wraps_at_most(wraps: u32, p: u32, reach: u32, r: u32, s: u32) -> bool
    requires { s < p }
    ensures { result ≡ wraps_at_most wraps p reach r s }
{
    let over = u64::from(wraps) * u64::from(p);
    let down = p - s;
    if s <= down {
        return u64::from(r) + u64::from(reach) * u64::from(s) < over + u64::from(p);
    }
    u64::from(reach) * u64::from(down) <= over + u64::from(r)
}

// How far a step s moves the place.
fn turn(p: u32, w: u32, s: u32) -> u32
    requires { (s < p) × (0 < w) }
    ensures { (result ≡ turn p w s) × (result < w) }
{
    let down = p - s;
    if s <= down {
        return s % w;
    }
    (w - down % w) % w
}

// The place from which the same moves go on once the residue has wrapped.
fn wrapped(p: u32, w: u32, r: u32, s: u32) -> u32
    requires { (s < p) × ((0 < w) × (w ≤ 32768)) }
    ensures { (result ≡ wrapped p w r s) × (result < w) }
{
    let down = p - s;
    if s <= down {
        return (r % w + (w - p % w)) % w;
    }
    (r % w + p % w) % w
}

// The key of the code with index i: codes with one key stay together.
fn key(run: Run, i: u32, a: u32) -> u32
    requires first_lt_prime { (run.first < run.prime) × ((run.step < run.prime) × (a < run.prime)) }
    requires places_nonzero { (0 < run.places) × ((run.places ≤ 32768) × (i < 2147483648)) }
    ensures { result ≡ key_of run i a }
{
    let r = hash::residue(run.prime, run.first, a);
    let s = hash::residue(run.prime, run.step, a);
    if !wraps_at_most(0, run.prime, run.reach, r, s) {
        return 2147483648 + i;
    }
    let place = r % run.places * 65536;
    if run.reach == 0 {
        return place;
    }
    place + turn(run.prime, run.places, s)
}

// How many codes that go straight on a code that wraps once is together with, at the least: before the wrap, or after it.
fn company(run: Run, keys: &[u32], own: u32, a: u32) -> u32
    requires first_lt_prime { (run.first < run.prime) × ((run.step < run.prime) × (a < run.prime)) }
    requires places_nonzero { (0 < run.places) × ((run.places ≤ 32768) × (length keys.now ≤ few)) }
    ensures { result ≡ company_of run keys.now own a }
{
    if own < 2147483648 {
        return 0;
    }
    let r = hash::residue(run.prime, run.first, a);
    let s = hash::residue(run.prime, run.step, a);
    if !wraps_at_most(1, run.prime, run.reach, r, s) {
        return 0;
    }
    let by = turn(run.prime, run.places, s);
    let before = equals(keys, r % run.places * 65536 + by);
    if before == 0 {
        return 0;
    }
    let later = equals(keys, wrapped(run.prime, run.places, r, s) * 65536 + by);
    before.min(later)
}

// How many of the first multipliers of a run fail: all of them, or as many as come before one that may pass; and how far to try the first jump of the next run.
#[derive(Clone, Copy)]
pub struct Walked {
    pub failed: u32,
    pub guess: u32,
}

// A run below the prime, and the codes that it is tried for. Passed by value: behind a reference the tests of the prime stay inside the loops over codes.
#[derive(Clone, Copy)]
struct Trial<'a> {
    run: Run,
    codes: &'a [u32],
    ghost runs: { Runs run codes.now },
    ghost ends: { Ends run run.step },
}

impl<'a> Trial<'a> {
    // The keys of all codes.
    fn fill_keys(self, keys: &mut [u32])
        requires { length keys.old ≡ length self.codes.now }
        ensures { keys.new ≡ keys_of self.entry.run self.entry.codes.now }
    {
        for (i, &a) in self.codes.iter().enumerate() {
            keys[i] = key(self.run, i as u32, a);
        }
    }

    // Whether more pairs of codes than may are together at each multiplier: those with equal keys, and those of a code that wraps once. Left early.
    fn too_many(self, keys: &[u32]) -> bool
        requires { length keys.now ≡ length self.codes.now }
        ensures { result ≡ ltb self.entry.run.most (equal_pairs keys.now + companies self.entry.run keys.now keys.now self.entry.codes.now) }
    {
        let mut pairs: u32 = 0;
        for i in (0..keys.len()).rev() {
            let own = keys[i];
            pairs += equals(&keys[i + 1..], own) + company(self.run, keys, own, self.codes[i]);
            if self.run.most < pairs {
                return true;
            }
        }
        false
    }

    // How many of the first multipliers are known to fail: none where the first may pass. As far as the run reaches, or half as far, or a quarter ..
    fn failing(self, keys: &mut [u32]) -> u32
        requires { length keys.old ≡ length self.codes.now }
        ensures { Fail self.entry.run self.entry.run.step self.entry.codes.now result × (length keys.new ≡ length self.entry.codes.now) }
    {
        let mut reach = self.run.reach;
        loop {
            let shorter = Trial {
                run: Run { reach, ..self.run },
                codes: self.codes,
            };
            shorter.fill_keys(keys);
            if shorter.too_many(keys) {
                return reach + 1;
            }
            if reach == 0 {
                return 0;
            }
            reach = reach / 2;
        }
    }

    // Jump after jump. Each one that works doubles the next.
    fn walk(self, last: u32, keys: &mut [u32]) -> Walked
        requires { length keys.old ≡ length self.codes.now }
        ensures { Fail self.entry.run self.entry.run.step self.entry.codes.now result.failed × (length keys.new ≡ length self.entry.codes.now) }
    {
        let mut done: u32 = 0;
        let mut guess = last;
        while done <= self.run.reach {
            let rest = Trial {
                run: Run {
                    first: self.run.first + done * self.run.step,
                    reach: guess.min(self.run.reach - done),
                    ..self.run
                },
                codes: self.codes,
            };
            let more = rest.failing(keys);
            if more == 0 {
                return Walked {
                    failed: done,
                    guess,
                };
            }
            done += more;
            guess = more.saturating_add(more);
        }
        Walked {
            failed: done,
            guess,
        }
    }
}

// Of the multipliers that are i, i + step, .. after the first of a stretch the first that may pass, as the number of those before it, or else what was found.
fn nearer(run: Run, failed: u32, i: u32, found: u32) -> u32
    requires { i + run.reach * run.step < found }
    ensures { result ≡ cond (leb failed run.reach) (i + failed * run.step) found }
{
    if run.reach < failed {
        return found;
    }
    i + failed * run.step
}

// The multipliers first to first + reach, one by one: how many of them fail before one that may pass. They are gone through by their remainders modulo the
// step, each remainder up to what was found before.
fn stretch(run: Run, codes: &[u32], keys: &mut [u32]) -> u32
    requires runs { Runs run codes.now × Ends run 1 }
    requires keys_len { length keys.old ≡ length codes.now }
    ensures { Fail run 1 codes.now result × (length keys.new ≡ length codes.now) }
{
    let mut found = run.reach + 1;
    let mut guess: u32 = 0;
    for i in 0..run.step {
        if found <= i {
            return found;
        }
        let remainder = Run {
            first: run.first + i,
            reach: (found - 1 - i) / run.step,
            ..run
        };
        let walked = Trial {
            run: remainder,
            codes,
        }
        .walk(guess, keys);
        found = nearer(remainder, walked.failed, i, found);
        guess = walked.guess;
    }
    found
}

// A step, the number of residues that it moves far, and how much it moves residues: the largest of the other moves, and a part of the prime for each far one.
#[derive(Clone, Copy)]
pub struct Pace {
    pub step: u32,
    pub far: u32,
    pub score: u64,
}

// The second, where it moves residues less.
fn calmer(a: Pace, b: Pace) -> Pace
    ensures { result ≡ cond (ltb b.score a.score) b a }
{
    if b.score < a.score {
        return b;
    }
    a
}

// How much a step moves residues, up or down. A move is far where it is more than a thirty-second of the prime: jumps would be short. A code that moves far is
// lost to the jumps, which then are as long as the others allow: of n codes it counts as a move of p / 8n, so that a quarter of them, too many, count as one
// far move.
fn measure(p: u32, step: u32, codes: &[u32]) -> Pace
    requires { Codes p codes.now × ((step < p) × (length codes.now ≤ few)) }
    ensures { result.step ≡ step }
{
    let mut far: u32 = 0;
    let mut moves: u32 = 0;
    for &a in codes {
        let s = hash::residue(p, step, a);
        let by = s.min(p - s);
        let is_far = u32::from(p / 32 < by);
        far += is_far;
        moves = moves.max(by * (1 - is_far));
    }
    let lost = p / (8 * (codes.len() as u32) + 1);
    Pace {
        step,
        far,
        score: u64::from(far) * u64::from(lost) + u64::from(moves),
    }
}

// Of the first steps, as many as that or STEPS of them, one that moves residues least, or the first that is calm enough. Any step would be right.
fn best_step(p: u32, most: u32, enough: u32, codes: &[u32]) -> Pace
    requires { Codes p codes.now × ((1 < p) × (length codes.now ≤ few)) }
    ensures { (0 < result.step) × ((result.step < p) × (result.step ≤ 4096)) }
{
    let last = STEPS.min(p - 1).min(most);
    let mut best = measure(p, 1, codes);
    for step in 2..=last {
        if best.score <= u64::from(enough) {
            return best;
        }
        best = calmer(best, measure(p, step, codes));
    }
    best
}

// Whether a step moves so many codes far that jumps would not pay: of n codes all but one where no pair may be together, and otherwise more than a quarter.
fn is_restless(pace: Pace, n: u32, most: u32) -> bool {
    let far = u64::from(pace.far);
    if most == 0 {
        return u64::from(n) < far + 2;
    }
    u64::from(n / 4) < far
}

// The first multiplier from `first` on that may pass, or the prime; or one before it from which on no step serves. Each stretch is as long as all before it,
// and has the step that serves best of those that can be looked at in a part of the time.
fn pass_over(run: Run, codes: &[u32], keys: &mut [u32]) -> u32
    requires runs { Runs run codes.now × Ends run 1 }
    requires keys_len { length keys.old ≡ length codes.now }
    ensures passed { Passed run.prime run.places run.most codes.now run.first result }
    ensures keys_len_2 { length keys.new ≡ length codes.now }
{
    let mut k = run.first;
    while k < run.prime {
        // a stretch of k multipliers has some k × moves / p jumps: fewer than a thousand are not worth a better step
        let enough = run.prime / (k / 1024).max(64);
        let best = best_step(run.prime, k / 16, enough, codes);
        if is_restless(best, codes.len() as u32, run.most) {
            return k;
        }
        let reach = k.min(run.prime - 1 - k);
        let next = Run {
            step: best.step,
            first: k,
            reach,
            ..run
        };
        let failed = stretch(next, codes, keys);
        k += failed;
        if failed <= reach {
            return k;
        }
    }
    k
}

// The same with keys of its own.
fn jump(p: u32, w: u32, most: u32, k: u32, codes: &[u32]) -> u32
    requires codes { Codes p codes.now × ((length codes.now ≤ few) × (most ≤ room)) }
    requires w_nonzero { (0 < w) × ((w ≤ 32768) × ((1 < p) × (k < p))) }
    ensures { Passed p w most codes.now k result }
{
    let n = codes.len();
    let mut keys = [0u32; FEW];
    let run = Run {
        prime: p,
        places: w,
        most,
        step: 1,
        first: k,
        reach: 0,
    };
    pass_over(run, codes, &mut keys[..n])
}

// A multiplier from k on before which none puts at most so many pairs of codes together in w places: k itself where the codes or the places are too many for
// keys, or the prime comes first.
fn skip(p: u32, w: u32, most: u32, k: u32, codes: &[u32]) -> u32
    requires { Codes p codes.now × ((most ≤ room) × ((0 < w) × (1 < p))) }
    ensures { Passed p w most codes.now k result }
{
    if FEW < codes.len() {
        return k;
    }
    if 32768 < w {
        return k;
    }
    if p <= k {
        return k;
    }
    jump(p, w, most, k, codes)
}

// The multiplier to be tried after k: the next one or, at the powers of 2 from PLAIN on, the first that may pass. So what it takes to look for a step is little
// beside what was tried before. At PLAIN those that put the codes in too few places are passed over before.
pub fn after(p: u32, w: u32, most: u32, k: u32, codes: &[u32]) -> u32
    requires codes { Codes p codes.now × ((most ≤ room) × ((0 < w) × (1 < p))) }
    requires k_lt_p { (k < p) × ((0 < length codes.now) × (length codes.now ≤ room)) }
    ensures { Passed p w most codes.now (k + 1) result }
{
    let next = k + 1;
    if next < PLAIN {
        return next;
    }
    if next & k != 0 {
        return next;
    }
    if next == PLAIN {
        let from = start(p, w, most, codes).max(PLAIN);
        return skip(p, w, most, from, codes);
    }
    skip(p, w, most, next, codes)
}
