// Builds each list of its input for the prime that stands before it, twice, in the list's order and in the reverse, and prints a line for each table: the
// prime, then all words where the list is short, otherwise n, c, k, the total and a digest of all words. tools/second_program.py makes the input and the
// lines that are expected. Input: the prime, n, n codes and n schedules, four bytes each, least first.
#![tactic(auto)]

ghost use Rattle.std.specs.Prelude.{◌≡◌};
ghost use Rattle.hash.specs.Theorems.{Prime};
ghost use Rattle.compare_primes.specs.declared.CaseError.TheVariants.{List};

use comparing::{ReadError, build_both, each_case, print_table, read_list};
use digests::lent::count_from;
use lists::list::validate;
use prelude::limits::{Format, MOST_PAIRS};
use prelude::numbers::wide;
use table::primes::is_table_prime;
use writer::valid::write_valid;

// Why there is no further list.
#[derive(Clone, Copy)]
enum CaseError {
    List(ReadError),
    // none of the three primes
    OtherPrime,
}

impl From<ReadError> for CaseError {
    ghost from_gives = { λ e r. r ≡ List e };

    fn from(e: ReadError) -> CaseError {
        CaseError::List(e)
    }
}

fn build_and_print(p: u32, codes: &[u32], schedules: &[u32])
    requires { Prime p }
{
    let format = Format {
        prime: p,
        limit: MOST_PAIRS,
    };
    let Ok(()) = validate(format, codes, schedules) else {
        return;
    };
    let mut words = [0u32; 16384];
    // so that a word which is not written shows
    count_from(9000000, &mut words);
    let total = wide(write_valid(p, codes, schedules, &mut words));
    if 16384 < total {
        return;
    }
    print_table(&[p], &words[..total]);
}

// The next list of n pairs.
fn build_next(p: u32, n: usize) -> Result<(), ReadError>
    requires { Prime p }
{
    build_both(n, |codes, schedules| build_and_print(p, codes, schedules))
}

// The next prime and its list; an error at the end of the input.
fn next_list() -> Result<(), CaseError> {
    let mut first = [0u32; 2];
    read_list(&mut first)?;
    let p = first[0];
    if !is_table_prime(p) {
        return Err(CaseError::OtherPrime);
    }
    build_next(p, wide(first[1]))?;
    Ok(())
}

fn main() {
    // an error ends the input
    let _ = each_case(next_list);
}
