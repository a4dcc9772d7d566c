// The lines that texts are made of, put after a text or written before `end`, by a function that answers where they begin. Every other byte is kept.
#![tactic(auto)]

ghost use Rattle.std.specs.Prelude.{ℕ, ◌+◌, ◌≤◌, ◌++◌, ◌≡◌, length};
ghost use Rattle.decimal.specs.code.Added.{Added};
ghost use Rattle.decimal.specs.code.Put.{Put};
ghost use Rattle.decimal.specs.Decimal.{decimal};
ghost use Rattle.prelude.specs.Pairs.{paired};
ghost use Rattle.lines.specs.Lines.{pair_line, pair_lines, refused_line};

use decimal::{Text, decimal_length, put_before, put_decimal_before};

// A number after its name, which comes with the spaces that part it from its neighbours.
pub fn put_named(text: &mut Text, name: &[u8], x: u32)
    requires { text.old.end + length name.now + length (decimal x) ≤ length text.old.bytes.now }
    ensures { Put (name.now ++ decimal x) text.old text.new }
{
    text.put_all(name);
    text.put_decimal(x);
}

// The line of a refusal.
pub fn put_refused(bytes: &mut [u8], at: usize, number: u32, value: u32) -> usize
    requires { at + length (refused_line number value) ≤ length bytes.old }
    ensures { Added (refused_line number value) at bytes.old result bytes.new }
{
    let mut text = Text { bytes, end: at };
    put_named(&mut text, b"refused ", number);
    put_named(&mut text, b" ", value);
    text.put(b'\n');
    text.end
}

// The line of a code and its schedule.
fn put_pair_before(text: &mut [u8], end: usize, separator: u8, code: u32, schedule: u32) -> usize
    requires { (length (pair_line separator code schedule) ≤ end) × (end ≤ length text.old) }
    ensures { Added (pair_line separator code schedule) result text.old end text.new }
{
    let schedule_end = put_before(text, end, b'\n');
    let mid = put_decimal_before(text, schedule_end, schedule);
    let code_end = put_before(text, mid, separator);
    put_decimal_before(text, code_end, code)
}

// The lines of all pairs, in their order, written from the last to the first: so no number's length is needed.
pub fn put_pairs_before(
    text: &mut [u8],
    end: usize,
    separator: u8,
    codes: &[u32],
    schedules: &[u32],
) -> usize
    requires schedules_len { length schedules.now ≡ length codes.now }
    requires schedules_len_bound { (length (pair_lines separator (paired codes.now schedules.now)) ≤ end) × (end ≤ length text.old) }
    ensures { Added (pair_lines separator (paired codes.now schedules.now)) result text.old end text.new }
{
    let mut begin = end;
    for i in (0..codes.len()).rev() {
        begin = put_pair_before(text, begin, separator, codes[i], schedules[i]);
    }
    begin
}

// The bytes that the lines of all pairs take, whatever byte parts a code from its schedule. The sum of so many fits 32 bits, of which a vector has
// twice the lanes of 64.
pub fn pairs_length(codes: &[u32], schedules: &[u32]) -> usize
    requires codes_len_bound { length codes.now ≤ 65536 }
    requires schedules_len { length schedules.now ≡ length codes.now }
    ensures { (separator : ℕ) → result ≡ length (pair_lines separator (paired codes.now schedules.now)) }
{
    let mut sum = 0;
    for (&code, &schedule) in codes.iter().zip(schedules) {
        sum += 2 + decimal_length(code) + decimal_length(schedule);
    }
    sum as usize
}
