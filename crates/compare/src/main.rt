// Builds each list of its input twice, in the list's order and in the reverse, and prints a line for each table: all its words where the list is short,
// otherwise n, c, k, the total and a digest of all words. tools/second_program.py makes the input and the lines that are expected. Input: n, n codes and
// n schedules, four bytes each, least first.
#![tactic(auto)]

use comparing::{ReadError, build_both, built_table, each_case, print_table, read_list};
use prelude::numbers::wide;

fn build_and_print(codes: &[u32], schedules: &[u32]) {
    let mut words = [0u32; 16384];
    let answer = glass_c::glass_build(codes, schedules, &mut words);
    if let Some(table) = built_table(answer, &words) {
        print_table(&[], table);
    }
}

// The next list; an error at the end of the input.
fn next_list() -> Result<(), ReadError> {
    let mut n = [0u32; 1];
    read_list(&mut n)?;
    build_both(wide(n[0]), build_and_print)
}

fn main() {
    // an error ends the input
    let _ = each_case(next_list);
}
