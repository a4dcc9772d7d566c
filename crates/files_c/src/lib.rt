// The words of bytes and the listing, as the benchmark calls them from C (bench/files.h).
#![tactic(auto)]

ghost use Rattle.files.specs.Bytes.{WordsFilled};
ghost use Rattle.listing.specs.Listing.{FileListed};
ghost use Rattle.prelude.specs.Limits.{most_pairs};

#[unsafe(no_mangle)]
pub extern "C" fn glass_words_of(bytes: &[u8], words: &mut [u32]) -> usize
    ensures { WordsFilled bytes.now words.old result words.new }
{
    files::words_of(bytes, words)
}

#[unsafe(no_mangle)]
pub extern "C" fn glass_list(bytes: &[u8], text: &mut [u8; 65536]) -> usize
    ensures { FileListed 65537 most_pairs bytes.now text.old result text.new }
{
    listing::list(bytes, text)
}
