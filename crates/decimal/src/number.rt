// Numbers that a text has, judged and read.
ghost use Rattle.std.specs.Prelude.{◌-◌, ◌<◌, ◌≤◌, ◌≡◌, length, drop};
ghost use Rattle.decimal.specs.code.Digits.{digits_end, Scannable, NumberScanned};
ghost use Rattle.decimal.specs.Number.{digits_in, is_number};

// Where the digits from `at` on end. A byte follows them, so that no turn tests for the end of the text.
pub fn digits_end(text: &[u8], at: usize) -> usize
    requires { digits_end text.now at < length text.now }
    ensures { result ≡ digits_end text.now at }
{
    let mut end = at;
    while text[end].is_ascii_digit() {
        end += 1;
    }
    end
}

// Whether the digits between `at` and `end`, which a byte follows, are a number. Only one of ten digits that begins with 4 or more is worked out.
pub fn is_number(text: &[u8], at: usize, end: usize) -> bool
    requires { (end ≡ digits_end text.now at) × (end < length text.now) }
    ensures { result ≡ is_number (digits_in (drop at text.now)) }
{
    let digits = end - at;
    if text[at] == b'0' {
        return digits == 1;
    }
    if digits < 10 {
        return 0 < digits;
    }
    if 10 < digits {
        return false;
    }
    if text[at] < b'4' {
        return true;
    }
    scan_number(text, at).value <= u64::from(u32::MAX)
}

// A number that was read, and where it ends.
#[derive(Clone, Copy, Debug, PartialEq, Eq)]
pub struct Scanned {
    pub end: usize,
    pub value: u64,
}

// The number from `at` on, of one to ten digits, and where it ends. A byte follows it, so that no turn tests for the end of the text.
pub fn scan_number(text: &[u8], at: usize) -> Scanned
    requires { Scannable text.now at }
    ensures { NumberScanned text.now at result }
{
    let mut value = digit_value(text[at]);
    let mut i = at + 1;
    while text[i].is_ascii_digit() {
        value = 10 * value + digit_value(text[i]);
        i += 1;
    }
    Scanned { end: i, value }
}

fn digit_value(b: u8) -> u64
    requires { 48 ≤ b }
    ensures { result ≡ b - 48 }
{
    u64::from(b - b'0')
}
