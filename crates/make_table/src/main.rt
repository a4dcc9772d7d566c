// The table file of P5's pairs.
#![tactic(auto)]

const STANDARD_INPUT: i32 = 0;

const STANDARD_OUTPUT: i32 = 1;

fn main() {
    let mut text = [0u8; 65537];
    let mut bytes = [0u8; 65536];
    let read = io::read_full(STANDARD_INPUT, &mut text);
    let made = maker::make(&text[..read], &mut bytes);
    io::write_all(STANDARD_OUTPUT, &bytes[..made]);
}
