// Generates the test loads of its input, and prints for each the answer and digests of all lent memory after the call; then a line for the table that is built of
// the load, and where it is asked the table's listing. tools/second_program.py makes the input and the lines that are expected, and says what is in them.
#![tactic(auto)]

use comparing::{built_table, print_field};
use digests::digest;
use digests::lent::count_from;
use prelude::numbers::wide;

// A load that is asked for: whether its table is listed, its length, and how many places are lent.
#[derive(Clone, Copy)]
struct Asked {
    listed: bool,
    length: usize,
    codes: usize,
    schedules: usize,
}

impl From<[u32; 4]> for Asked {
    fn from(numbers: [u32; 4]) -> Asked {
        Asked {
            listed: numbers[0] == 1,
            length: wide(numbers[1]),
            codes: wide(numbers[2]),
            schedules: wide(numbers[3]),
        }
    }
}

// n, c and k of a table, its total and a digest of all words.
fn print_table(words: &[u32]) {
    let Some(sizes) = words.first_chunk::<3>() else {
        return;
    };
    io::write_all(1, b"built");
    for size in sizes {
        print_field(*size);
    }
    print_field(words.len() as u64);
    print_field(digest(words));
    io::write_all(1, b"\n");
}

// The listing of a table.
fn list_and_print(words: &[u32]) {
    let mut bytes = [0u8; 65536];
    let mut text = [0u8; 65536];
    let n = files::bytes_of(words, &mut bytes);
    let end = listing::list(&bytes[..n], &mut text);
    io::write_all(1, &text[..end]);
}

fn build_and_print(listed: bool, codes: &[u32], schedules: &[u32]) {
    let mut words = [0u32; 16384];
    let answer = glass_c::glass_build(codes, schedules, &mut words);
    let Some(table) = built_table(answer, &words) else {
        return;
    };
    print_table(table);
    if listed {
        list_and_print(table);
    }
}

fn generate_and_print(asked: Asked, codes: &mut [u32], schedules: &mut [u32]) {
    count_from(7000000, codes);
    count_from(8000000, schedules);
    let n = asked.length;
    let answer = glass_c::glass_generate(n, codes, schedules);
    io::write_all(1, b"generated");
    print_field(answer.number);
    print_field(answer.value);
    print_field(digest(codes));
    print_field(digest(schedules));
    io::write_all(1, b"\n");
    if answer.number != 0 {
        return;
    }
    // the load is in the first places
    if let (Some(codes), Some(schedules)) = (codes.get(..n), schedules.get(..n)) {
        build_and_print(asked.listed, codes, schedules);
    }
}

// One load, where there is room for its places.
fn one_load(asked: Asked) {
    if 4096 < asked.codes || 4096 < asked.schedules {
        return;
    }
    let mut codes = [0u32; 4096];
    let mut schedules = [0u32; 4096];
    generate_and_print(
        asked,
        &mut codes[..asked.codes],
        &mut schedules[..asked.schedules],
    );
}

fn main() {
    let mut input = [0u8; 65536];
    let n = io::read_full(0, &mut input);
    // an input that fills the room may be longer
    if n == input.len() {
        return;
    }
    let mut numbers = [0u32; 16384];
    let count = files::words_of(&input[..n], &mut numbers);
    // four numbers for each load
    let (loads, _) = numbers[..count].as_chunks::<4>();
    for load in loads {
        one_load(Asked::from(*load));
    }
}
