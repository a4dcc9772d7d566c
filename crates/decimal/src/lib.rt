// Text, written into lent bytes: after the end of what is written, or, as the lines of pairs are, before `end` by a function that answers where its text
// begins: their place then stays in a register. Every other byte is kept.
#![tactic(auto)]

ghost use Rattle.std.specs.Prelude.{◌+◌, ◌/◌, ◌%◌, ◌<◌, ◌≤◌, cond, ◌≡◌, [], ◌∷◌, leb, length};
ghost use Rattle.decimal.specs.code.Added.{Added};
ghost use Rattle.decimal.specs.code.Put.{Put};
ghost use Rattle.decimal.specs.Decimal.{decimal};

pub mod number;

// Lent bytes, and where the text that is written into them ends.
#[derive(Drop)]
pub struct Text<'a> {
    pub bytes: &'a mut [u8],
    pub end: usize,
}

impl<'a> Text<'a> {
    // One byte.
    pub fn put(&mut self, byte: u8)
        requires { self.old.end < length self.old.bytes.now }
        ensures { Put (byte ∷ []) self.old self.new }
    {
        self.bytes[self.end] = byte;
        self.end += 1;
    }

    // A byte string.
    pub fn put_all(&mut self, string: &[u8])
        requires { self.old.end + length string.now ≤ length self.old.bytes.now }
        ensures { Put string.now self.old self.new }
    {
        let end = self.end + string.len();
        self.bytes[self.end..end].copy_from_slice(string);
        self.end = end;
    }

    // A number in decimal.
    pub fn put_decimal(&mut self, x: u32)
        requires { self.old.end + length (decimal x) ≤ length self.old.bytes.now }
        ensures { Put (decimal x) self.old self.new }
    {
        let end = self.end + decimal_length(x) as usize;
        put_decimal_before(self.bytes, end, x);
        self.end = end;
    }
}

// A number in decimal, from its last digits to its first, two at a time. They go to their place at once: the library's would be copied there.
pub fn put_decimal_before(text: &mut [u8], end: usize, x: u32) -> usize
    requires { (length (decimal x) ≤ end) × (end ≤ length text.old) }
    ensures { Added (decimal x) result text.old end text.new }
{
    let mut begin = end;
    let mut rest = x;
    while 100 <= rest {
        begin = put_two_before(text, begin, rest % 100);
        rest /= 100;
    }
    if rest < 10 {
        return put_before(text, begin, digit(rest));
    }
    put_two_before(text, begin, rest)
}

// The two digits of a number below 100.
fn put_two_before(text: &mut [u8], end: usize, x: u32) -> usize
    requires { (2 ≤ end) × ((end ≤ length text.old) × (x < 100)) }
    ensures { Added ((48 + x / 10) ∷ (48 + x % 10) ∷ []) result text.old end text.new }
{
    let last = put_before(text, end, digit(x % 10));
    put_before(text, last, digit(x / 10))
}

// One byte.
pub fn put_before(text: &mut [u8], end: usize, byte: u8) -> usize
    requires { (1 ≤ end) × (end ≤ length text.old) }
    ensures { Added (byte ∷ []) result text.old end text.new }
{
    let begin = end - 1;
    text[begin] = byte;
    begin
}

// How many digits a number has, branch-free: one more than the powers of ten that it reaches.
pub fn decimal_length(x: u32) -> u32
    ensures { result ≡ length (decimal x) }
{
    1 + reaches(x, 10)
        + reaches(x, 100)
        + reaches(x, 1000)
        + reaches(x, 10000)
        + reaches(x, 100000)
        + reaches(x, 1000000)
        + reaches(x, 10000000)
        + reaches(x, 100000000)
        + reaches(x, 1000000000)
}

// 1 where x is at least y, and 0 elsewhere.
fn reaches(x: u32, y: u32) -> u32
    ensures { (result ≡ cond (leb y x) 1 0) × (result ≤ 1) }
{
    u32::from(y <= x)
}

// The digit of a number below 10.
fn digit(x: u32) -> u8
    requires { x < 10 }
    ensures { result ≡ 48 + x }
{
    b'0' + x as u8
}
