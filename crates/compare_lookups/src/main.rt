// Looks codes up in the tables of its input, whole ones and damaged ones, then a panel in each, and prints a line for each answer. tools/second_program.py
// makes the input and the lines that are expected, and says what is in them.
#![tactic(auto)]

ghost use Rattle.std.specs.Prelude.{◌≤◌, length, IfOk};

use comparing::{ReadError, each_case, print_field};
use prelude::answers::NumberedFound;
use prelude::numbers::wide;

// Fills the list from the next bytes of the input, as many as are lent.
fn read_into(bytes: &mut [u8], list: &mut [u32]) -> Result<(), ReadError> {
    if io::read_full(0, bytes) < bytes.len() {
        return Err(ReadError::Ended);
    }
    files::words_of(bytes, list);
    Ok(())
}

// Fills the first places with the next list of the input, whose length comes before it, and gives the length.
fn read_counted(list: &mut [u32]) -> Result<usize, ReadError>
    ensures { IfOk result (λ n. n ≤ length list.new) }
{
    let mut first = [0u8; 4];
    let mut length = [0u32; 1];
    read_into(&mut first, &mut length)?;
    let n = wide(length[0]);
    let mut bytes = [0u8; 65536];
    if list.len() < n || 16384 < n {
        return Err(ReadError::TooLong);
    }
    read_into(&mut bytes[..4 * n], &mut list[..n])?;
    Ok(n)
}

// Fills the first places with the holds of these runs, each a number of schedules and the minutes of every one. Gives how many are filled.
fn expand(runs: &[u32], holds: &mut [u32]) -> Result<usize, ReadError>
    ensures { IfOk result (λ n. n ≤ length holds.new) }
{
    let mut at = 0;
    let (runs, _) = runs.as_chunks::<2>();
    for run in runs {
        let n = wide(run[0]);
        if holds.len() - at < n {
            return Err(ReadError::TooLong);
        }
        holds[at..at + n].fill(run[1]);
        at += n;
    }
    Ok(at)
}

// Fills the first places with the next holds of the input, which are given as runs. Gives how many are filled.
fn read_holds(holds: &mut [u32]) -> Result<usize, ReadError>
    ensures { IfOk result (λ n. n ≤ length holds.new) }
{
    let mut runs = [0u32; 2048];
    let n = read_counted(&mut runs)?;
    expand(&runs[..n], holds)
}

// The last three fields of a line.
fn print_answer(answer: NumberedFound) {
    print_field(answer.number);
    print_field(answer.value);
    print_field(answer.cell);
    io::write_all(1, b"\n");
}

fn look_up_and_print(words: &[u32], codes: &[u32]) {
    for code in codes {
        io::write_all(1, b"found");
        print_field(*code);
        print_answer(glass_c::glass_lookup(words, *code));
    }
}

fn fire_and_print(words: &[u32], holds: &[u32], panel: &[u32]) {
    io::write_all(1, b"fired");
    print_answer(glass_c::glass_panel(words, holds, panel));
}

// The next words, the holds, the codes that are looked up in the words and the panel.
fn next_case() -> Result<(), ReadError> {
    let mut words = [0u32; 16384];
    let mut holds = [0u32; 1024];
    let mut codes = [0u32; 4096];
    let mut panel = [0u32; 4096];
    let w = read_counted(&mut words)?;
    let h = read_holds(&mut holds)?;
    let c = read_counted(&mut codes)?;
    let m = read_counted(&mut panel)?;
    let table = &words[..w];
    look_up_and_print(table, &codes[..c]);
    fire_and_print(table, &holds[..h], &panel[..m]);
    Ok(())
}

fn main() {
    // an error ends the input
    let _ = each_case(next_case);
}
