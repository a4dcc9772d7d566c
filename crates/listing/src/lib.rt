// The text of a table file (document 01, "The program that lists").
#![tactic(auto)]

ghost use Rattle.listing.specs.Listing.{FileListed};
ghost use Rattle.prelude.specs.Limits.{most_pairs};

use prelude::limits::Format;

mod texts;

// Writes the text for the bytes of a file into the first lent bytes, and answers its length: the lines of its table, or the one line of its
// refusal. The bytes after it are kept. No text is longer than what is lent.
pub fn list(bytes: &[u8], text: &mut [u8; 65536]) -> usize
    ensures { FileListed 65537 most_pairs bytes.now text.old result text.new }
{
    texts::list_file(Format::product(), bytes, text)
}
