// Reads the texts and writes the lists of its input, and prints for each the answer and digests of all lent memory after the call; the pairs or the text too,
// where they are short. tools/second_program.py makes the input and the lines that are expected, and says what is in them.
#![tactic(auto)]

ghost use Rattle.std.specs.Prelude.{◌+◌, ◌<◌, length, IfSome};

use comparing::print_field;
use digests::digest;
use digests::lent::count_from;
use prelude::answers::NumberedSize;
use prelude::numbers::wide;

// The most pairs, and the most bytes of a text, that are printed.
const SHORT: usize = 32;

const SHORT_TEXT: usize = 256;

// Lends 0 to 250, again and again.
fn count_bytes(bytes: &mut [u8]) {
    for (i, byte) in bytes.iter_mut().enumerate() {
        *byte = (i % 251) as u8;
    }
}

fn print_answer(name: &[u8], answer: NumberedSize) {
    io::write_all(1, name);
    print_field(answer.number);
    print_field(answer.value as u64);
}

// The first n pairs, where they are few.
fn print_pairs(n: usize, codes: &[u32], schedules: &[u32]) {
    if SHORT < n || codes.len() < n || schedules.len() < n {
        return;
    }
    for (code, schedule) in codes[..n].iter().zip(schedules) {
        print_field(*code);
        io::write_all(1, b",");
        io::print_decimal(1, u64::from(*schedule));
    }
}

// The first n bytes, where they are few.
fn print_text(n: usize, text: &[u8]) {
    if SHORT_TEXT < n {
        return;
    }
    if let Some(start) = text.get(..n) {
        io::write_all(1, start);
    }
}

fn read_and_print(text: &[u8], codes: &mut [u32], schedules: &mut [u32]) {
    count_from(7000000, codes);
    count_from(8000000, schedules);
    let answer = glass_c::glass_read_list(text, codes, schedules);
    print_answer(b"read", answer);
    print_field(digest(codes));
    print_field(digest(schedules));
    if answer.number == 0 {
        print_pairs(answer.value, codes, schedules);
    }
    io::write_all(1, b"\n");
}

fn write_and_print(codes: &[u32], schedules: &[u32], text: &mut [u8]) {
    count_bytes(text);
    let answer = glass_c::glass_write_list(codes, schedules, text);
    print_answer(b"written", answer);
    print_field(digest(text));
    io::write_all(1, b"\n");
    if answer.number == 0 {
        print_text(answer.value, text);
    }
}

// What is done in a case.
#[derive(Clone, Copy)]
enum Kind {
    // a text is read
    Read,
    // a list is written
    Write,
}

// What a case begins with: its kind, and how many codes, schedules and bytes there are.
#[derive(Clone, Copy)]
struct Head {
    kind: Kind,
    codes: u32,
    schedules: u32,
    bytes: u32,
}

impl From<[u32; 4]> for Head {
    fn from(numbers: [u32; 4]) -> Head {
        let kind = if numbers[0] == 0 {
            Kind::Read
        } else {
            Kind::Write
        };
        Head {
            kind,
            codes: numbers[1],
            schedules: numbers[2],
            bytes: numbers[3],
        }
    }
}

// Reads this text into as many codes and schedules as the head says, where there is room for them.
fn read_case(head: Head, text: &[u8]) {
    let c = wide(head.codes);
    let s = wide(head.schedules);
    if 4096 < c || 4096 < s {
        return;
    }
    let mut codes = [0u32; 4096];
    let mut schedules = [0u32; 4096];
    read_and_print(text, &mut codes[..c], &mut schedules[..s]);
}

// Writes the codes and the schedules of this list into as many bytes as the head says, where there is room for them.
fn write_case(head: Head, list: &[u8]) {
    let c = wide(head.codes);
    let s = wide(head.schedules);
    let n = wide(head.bytes);
    if 4096 < c || 4096 < s || 65536 < n {
        return;
    }
    let mut words = [0u32; 8192];
    let mut text = [0u8; 65536];
    // the codes come first, then the schedules
    files::words_of(list, &mut words);
    let all: &[u32] = &words;
    write_and_print(&all[..c], &all[c..c + s], &mut text[..n]);
}

// How many bytes follow the head: those of the text, or of the codes and the schedules.
fn bytes_after(head: Head) -> usize
    ensures { result < 68719476736 }
{
    match head.kind {
        Kind::Read => wide(head.bytes),
        Kind::Write => 4 * (wide(head.codes) + wide(head.schedules)),
    }
}

// The first case of the input. Gives what follows it; nothing where the input ends within the case.
fn first_case(input: &[u8]) -> Option<&[u8]>
    ensures { IfSome result (λ rest. length rest.now < length input.now) }
{
    let (first, rest) = input.split_first_chunk::<16>()?;
    let mut numbers = [0u32; 4];
    files::words_of(first, &mut numbers);
    let head = Head::from(numbers);
    let (body, rest) = rest.split_at_checked(bytes_after(head))?;
    match head.kind {
        Kind::Read => read_case(head, body),
        Kind::Write => write_case(head, body),
    }
    Some(rest)
}

fn main() {
    let mut input = [0u8; 262144];
    let n = io::read_full(0, &mut input);
    // an input that fills the room may be longer
    if n == input.len() {
        return;
    }
    let mut rest = &input[..n];
    // how long a case is stands in its head
    while let Some(next) = first_case(rest) {
        rest = next;
    }
}
