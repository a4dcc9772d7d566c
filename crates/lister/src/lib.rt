// The program that lists, up to its output: each stored run is a program whose `main` calls this and writes the text.
#![tactic(auto)]

ghost use Rattle.std.specs.Prelude.{take};
ghost use Rattle.io.specs.Counts.{IsPrefixLen};
ghost use Rattle.prelude.specs.Limits.{most_pairs};
ghost use Rattle.listing.specs.Listing.{FileListed};
ghost use Rattle.lister.specs.Input.{InputListed};

const STANDARD_INPUT: i32 = 0;

// How many bytes were read, and how many bytes the text takes.
#[derive(Clone, Copy)]
pub struct Lengths {
    pub read: usize,
    pub listed: usize,
}

// Reads standard input into the lent bytes until they are full, it ends or a read fails: each piece into its own place, so that no byte is copied. Answers how
// many were read.
fn read_input(bytes: &mut [u8]) -> usize
    ensures { IsPrefixLen result bytes.new }
{
    io::read_full(STANDARD_INPUT, bytes)
}

// Writes the listing of the first n bytes.
fn list_first(bytes: &[u8], n: usize, text: &mut [u8; 65536]) -> usize
    requires { IsPrefixLen n bytes.now }
    ensures { FileListed 65537 most_pairs (take n bytes.now) text.old result text.new }
{
    listing::list(&bytes[..n], text)
}

// Reads standard input into the first lent bytes and writes its listing into the first bytes of the text; those after it are kept. One byte
// more is read than a file may have, whatever the pieces it comes in. Which bytes are read, and what the lent ones after them are, is left
// open: `io::read_full` promises their number alone.
pub fn list_input(bytes: &mut [u8; 65537], text: &mut [u8; 65536]) -> Lengths
    ensures { InputListed text.old result bytes.new text.new }
{
    let read = read_input(bytes);
    let listed = list_first(bytes, read, text);
    Lengths { read, listed }
}
