// What the programs that compare share: words and lists from the input, and the fields and lines that are printed.
#![tactic(auto)]

ghost use Rattle.std.specs.Prelude.{◌≤◌, ◌<◌, ◌↔◌, ◌≡◌, leb, length, take, IfSome, IsSome, OnOk, IsErrOf};
ghost use Rattle.comparing.specs.Orders.{BothOrders, BuiltBoth};

use digests::digest;
use digests::lent::reverse;
use prelude::answers::Numbered;
use prelude::numbers::wide;

// The most pairs of a list.
const MOST: usize = 2048;

// The most codes of a table whose words are printed.
const SHORT: u32 = 32;

// Why there is no further list.
#[derive(Clone, Copy, Debug, PartialEq, Eq)]
pub enum ReadError {
    // the input ends first
    Ended,
    // more places than a list has pairs
    TooLong,
}

// Fills the first places with the next words of the input, by way of these bytes, and answers how many.
fn read_by(bytes: &mut [u8], list: &mut [u32]) -> usize
    ensures { result ≤ length list.new }
{
    let read = io::read_full(0, bytes);
    files::words_of(&bytes[..read], list)
}

// Fills the first places with the next words of the input and answers how many: as many as are lent, fewer where the input ends first, none for more places
// than a list has pairs. Which words they are is left open, as in `io::read_full`.
pub fn read_words(list: &mut [u32]) -> usize
    ensures { result ≤ length list.new }
{
    if MOST < list.len() {
        return 0;
    }
    let mut bytes = [0u8; 8192];
    let n = 4 * list.len();
    read_by(&mut bytes[..n], list)
}

// Fills all places with the next words of the input. Which words they are is left open.
pub fn read_list(list: &mut [u32]) -> Result<(), ReadError>
    ensures too_long { IsErrOf result ReadError.TooLong ↔ (2048 < length list.old) }
{
    if list.len() > MOST {
        return Err(ReadError::TooLong);
    }
    if read_words(list) < list.len() {
        return Err(ReadError::Ended);
    }
    Ok(())
}

// Fills the codes and the schedules from the input, and the second two with the same from the last to the first. Which pairs they are is left open.
pub fn read_both_orders(
    codes: &mut [u32],
    schedules: &mut [u32],
    codes2: &mut [u32],
    schedules2: &mut [u32],
) -> Result<(), ReadError>
    requires { (length codes2.old ≡ length codes.old) × (length schedules2.old ≡ length schedules.old) }
    ensures { OnOk result (BothOrders codes.new schedules.new codes2.new schedules2.new) }
{
    read_list(codes)?;
    read_list(schedules)?;
    reverse(codes, codes2);
    reverse(schedules, schedules2);
    Ok(())
}

// Reads the next list of the input, which has n pairs, and builds it twice: in its order and in the reverse.
pub fn build_both<F: Fn(&[u32], &[u32])>(n: usize, build: F) -> Result<(), ReadError>
    requires { F.IsAlwaysCallable build }
    ensures built { OnOk result (BuiltBoth F.Fn build n) }
    ensures too_long { 2048 < n → IsErrOf result ReadError.TooLong }
{
    if n > MOST {
        return Err(ReadError::TooLong);
    }
    let mut codes = [0u32; MOST];
    let mut schedules = [0u32; MOST];
    let mut codes2 = [0u32; MOST];
    let mut schedules2 = [0u32; MOST];
    read_both_orders(
        &mut codes[..n],
        &mut schedules[..n],
        &mut codes2[..n],
        &mut schedules2[..n],
    )?;
    build(&codes[..n], &schedules[..n]);
    build(&codes2[..n], &schedules2[..n]);
    Ok(())
}

// Runs the cases of the input, up to the first that is none, whose error it answers: an input of more cases than this is left there.
pub fn each_case<E: Copy, F: Fn() -> Result<(), E>>(next: F) -> Result<(), E>
    requires { F.IsAlwaysCallable next }
    ensures { F.post next result }
{
    for _ in 1..1000000 {
        next()?;
    }
    next()
}

// The words of a table that was built into these; none where the build was refused.
pub fn built_table(answer: Numbered, words: &[u32]) -> Option<&[u32]>
    ensures table { IfSome result (λ t. t.now ≡ take answer.value words.now) }
    ensures variant { IsSome result ↔ ((answer.number ≡ 0) × (answer.value ≤ length words.now)) }
{
    if answer.number != 0 {
        return None;
    }
    words.get(..wide(answer.value))
}

// A field of a line, after a space.
pub fn print_field<T: Into<u64>>(x: T) {
    io::write_all(1, b" ");
    io::print_decimal(1, x.into());
}

// Prints the line of a table: the numbers before it, then all its words where the list is short, otherwise n, c, k, the total and a digest of all words.
// Answers whether they begin a table: of fewer than three words nothing is printed.
pub fn print_table(before: &[u32], words: &[u32]) -> bool
    ensures { result ≡ leb 3 (length words.now) }
{
    if words.len() < 3 {
        return false;
    }
    let short = words[0] <= SHORT;
    let shown = if short { words } else { &words[..3] };
    for (i, number) in before.iter().chain(shown).enumerate() {
        if 0 < i {
            io::write_all(1, b" ");
        }
        io::print_decimal(1, u64::from(*number));
    }
    if !short {
        print_field(words.len() as u64);
        print_field(digest(words));
    }
    io::write_all(1, b"\n");
    true
}
