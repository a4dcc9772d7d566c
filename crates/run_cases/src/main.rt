// The cases of document 01 that are run: ranges at their ends and one beyond, the largest list and one more, panels and holds at their ends. Each line is
// the case, then the number and the value that C sees, and of a lookup or a panel the cell.
#![tactic(auto)]

ghost use Rattle.std.specs.Prelude.{◌<◌, ◌≤◌, length};

use comparing::print_field;
use digests::lent::count_from;
use prelude::answers::{Numbered, NumberedFound};

fn print_case(name: &[u8], n: u32) {
    io::write_all(1, name);
    io::print_decimal(1, u64::from(n));
    io::write_all(1, b":");
}

fn print_line(name: &[u8], n: u32, a: Numbered) {
    print_case(name, n);
    print_field(a.number);
    print_field(a.value);
    io::write_all(1, b"\n");
}

// The same of a lookup and a panel, which C sees as a struct of its own.
fn print_found(name: &[u8], n: u32, a: NumberedFound) {
    print_case(name, n);
    print_field(a.number);
    print_field(a.value);
    print_field(a.cell);
    io::write_all(1, b"\n");
}

// The list of 7 and this code.
fn code(a: u32) {
    let codes = [7, a];
    let schedules = [500, 500];
    let mut words = [0u32; 15];
    print_line(
        b"code ",
        a,
        glass_c::glass_build(&codes, &schedules, &mut words),
    );
}

// The list of 7 with 500 and 8 with this schedule.
fn schedule(s: u32) {
    let codes = [7, 8];
    let schedules = [500, s];
    let mut words = [0u32; 15];
    print_line(
        b"schedule ",
        s,
        glass_c::glass_build(&codes, &schedules, &mut words),
    );
}

// The table of 1 with 1 and 65,536 with 999.
fn ends(words: &mut [u32]) {
    let codes = [1, 65536];
    let schedules = [1, 999];
    glass_c::glass_build(&codes, &schedules, words);
}

fn lookup(a: u32) {
    let mut words = [0u32; 15];
    ends(&mut words);
    print_found(b"lookup ", a, glass_c::glass_lookup(&words, a));
}

// The panel of 1 and this code, by holds that rise with the number.
fn panel_with(a: u32) {
    let mut words = [0u32; 15];
    ends(&mut words);
    let mut holds = [0u32; 999];
    count_from(1, &mut holds);
    let codes = [1, a];
    print_found(b"panel 1 ", a, glass_c::glass_panel(&words, &holds, &codes));
}

// The panel of 65,536 and 1 by these holds.
fn fire(holds: &[u32]) -> NumberedFound {
    let mut words = [0u32; 15];
    ends(&mut words);
    let codes = [65536, 1];
    glass_c::glass_panel(&words, holds, &codes)
}

// So many holds of 60 minutes.
fn number_of_holds(n: usize)
    requires { n ≤ 1000 }
{
    let holds = [60u32; 1000];
    print_found(b"holds ", n as u32, fire(&holds[..n]));
}

// The hold of the schedule in this place, where all others are 60 minutes.
fn one_hold(name: &[u8], place: usize, minutes: u32)
    requires { place < 999 }
{
    let mut holds = [60u32; 999];
    holds[place] = minutes;
    print_found(name, minutes, fire(&holds));
}

// The table of 7 with 500.
fn seven(words: &mut [u32]) {
    let codes = [7];
    let schedules = [500];
    glass_c::glass_build(&codes, &schedules, words);
}

// A code with a schedule, put into that table; n is the one of the two that the line names.
fn insert(name: &[u8], n: u32, a: u32, s: u32) {
    let mut words = [0u32; 7];
    seven(&mut words);
    let mut second = [0u32; 15];
    print_line(name, n, glass_c::glass_insert(&words, a, s, &mut second));
}

fn insert_code(a: u32) {
    insert(b"insert code ", a, a, 500);
}

fn insert_schedule(s: u32) {
    insert(b"insert schedule ", s, 8, s);
}

fn remove(a: u32) {
    let mut words = [0u32; 7];
    seven(&mut words);
    let mut second = [0u32; 15];
    print_line(b"remove ", a, glass_c::glass_remove(&words, a, &mut second));
}

// The list of the first n of these pairs.
fn pairs(n: usize, codes: &[u32], schedules: &[u32])
    requires { (n ≤ 2049) × ((n ≤ length codes.now) × (n ≤ length schedules.now)) }
{
    let mut words = [0u32; 16384];
    let a = glass_c::glass_build(&codes[..n], &schedules[..n], &mut words);
    print_line(b"pairs ", n as u32, a);
}

// A code with 1, put into the table of the first n of these pairs.
fn insert_into(n: usize, a: u32, codes: &[u32], schedules: &[u32])
    requires { (n ≤ 2048) × ((n ≤ length codes.now) × (n ≤ length schedules.now)) }
{
    let mut words = [0u32; 16384];
    glass_c::glass_build(&codes[..n], &schedules[..n], &mut words);
    let mut second = [0u32; 16384];
    let answer = glass_c::glass_insert(&words, a, 1, &mut second);
    io::write_all(1, b"into ");
    io::print_decimal(1, n as u64);
    print_line(b" insert ", a, answer);
}

// The table of the first n codes, each with itself as its schedule.
fn numbered(n: usize, codes: &[u32], words: &mut [u32])
    requires { n ≤ length codes.now }
{
    glass_c::glass_build(&codes[..n], &codes[..n], words);
}

// The panel of the first n codes.
fn panel(n: usize, words: &[u32], holds: &[u32], codes: &[u32])
    requires { (n ≤ 65) × (n ≤ length codes.now) }
{
    let a = glass_c::glass_panel(words, holds, &codes[..n]);
    print_found(b"panel ", n as u32, a);
}

// The largest table: reached, kept by a code that it has, and no larger.
fn largest() {
    let mut codes = [0u32; 2048];
    count_from(1, &mut codes);
    let schedules = [1u32; 2048];
    insert_into(2047, 2048, &codes, &schedules);
    insert_into(2048, 2048, &codes, &schedules);
    insert_into(2048, 2049, &codes, &schedules);
}

fn lists() {
    let mut codes = [0u32; 2049];
    count_from(1, &mut codes);
    let schedules = [1u32; 2049];
    pairs(0, &codes, &schedules);
    pairs(2048, &codes, &schedules);
    pairs(2049, &codes, &schedules);
}

// Panels of the first codes, by holds that rise with the number.
fn panels() {
    let mut codes = [0u32; 65];
    count_from(1, &mut codes);
    let mut holds = [0u32; 999];
    count_from(1, &mut holds);
    let mut words = [0u32; 512];
    numbered(64, &codes, &mut words);
    panel(0, &words, &holds, &codes);
    panel(1, &words, &holds, &codes);
    panel(64, &words, &holds, &codes);
    panel(65, &words, &holds, &codes);
}

fn main() {
    for a in [0, 1, 65536, 65537] {
        code(a);
    }
    for s in [0, 1, 999, 1000] {
        schedule(s);
    }
    for a in [0, 1, 2, 65536, 65537] {
        lookup(a);
    }
    for a in [0, 1, 2, 65536, 65537] {
        panel_with(a);
    }
    for n in 998..=1000 {
        number_of_holds(n);
    }
    for minutes in [0, 1, 60, 10080, 10081] {
        one_hold(b"first hold ", 0, minutes);
    }
    for minutes in [0, 60, 61, 10080, 10081, 4294967295] {
        one_hold(b"last hold ", 998, minutes);
    }
    for a in [0, 1, 65536, 65537] {
        insert_code(a);
    }
    for s in [0, 1, 999, 1000] {
        insert_schedule(s);
    }
    for a in [0, 1, 7, 65536, 65537] {
        remove(a);
    }
    largest();
    lists();
    panels();
}
