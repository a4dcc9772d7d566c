// A build for each of the three primes, as the benchmark calls it from C (bench/primes.h).
#![tactic(auto)]

ghost use Rattle.primes_c.specs.BuildFor.{BuildForShown};
ghost use Rattle.prelude.specs.Limits.{most_pairs};

use builder::build::build_for;
use prelude::answers::{Numbered, in_numbers};
use prelude::limits::{Format, MOST_PAIRS};
use table::primes::is_table_prime;

#[unsafe(no_mangle)]
pub extern "C" fn glass_build_for(
    prime: u32,
    codes: &[u32],
    schedules: &[u32],
    words: &mut [u32],
) -> Numbered
    ensures { BuildForShown prime most_pairs codes.now schedules.now words.old result words.new }
{
    if !is_table_prime(prime) {
        // 76 is refused here alone, and goes to C as it is
        return Numbered {
            number: 76,
            value: 0,
        };
    }
    let format = Format {
        prime,
        limit: MOST_PAIRS,
    };
    in_numbers(build_for(format, codes, schedules, words))
}
