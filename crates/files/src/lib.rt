// The words of a file, and its bytes: four for each word, least byte first.
#![tactic(auto)]

ghost use Rattle.std.specs.Prelude.{◌+◌, ◌≤◌, [], ◌∷◌, ◌++◌, ◌≡◌, length, take, drop};
ghost use Rattle.files.specs.Bytes.{bytes_of, WordsFilled, BytesFilled};
ghost use Rattle.files.specs.code.Words.{word_at};

// The word of the four bytes from i on.
fn word_at(bytes: &[u8], i: usize) -> u32
    requires { i + 4 ≤ length bytes.now }
    ensures { result ≡ word_at bytes.now i }
{
    u32::from_le_bytes([bytes[i], bytes[i + 1], bytes[i + 2], bytes[i + 3]])
}

// Fills the first lent words with those of the bytes, as many as fit, and answers how many they are. Bytes after the last whole word are left
// out, and the words after those filled are kept. A step makes one word of its four bytes: i is the word's index, and there are as many steps as words.
pub fn words_of(bytes: &[u8], words: &mut [u32]) -> usize
    ensures { WordsFilled bytes.now words.old result words.new }
{
    let n = words.len().min(bytes.len() / 4);
    for i in 0..n {
        words[i] = word_at(bytes, 4 * i);
    }
    n
}

// Writes the four bytes of a word from i on.
fn put_word(bytes: &mut [u8], i: usize, word: u32)
    requires { i + 4 ≤ length bytes.old }
    ensures { bytes.new ≡ take i bytes.old ++ (bytes_of (word ∷ []) ++ drop (i + 4) bytes.old) }
{
    bytes[i..i + 4].copy_from_slice(&word.to_le_bytes());
}

// Fills the first lent bytes with those of the words, of as many whole words as fit, and answers how many bytes they are. The bytes after
// those filled are kept.
pub fn bytes_of(words: &[u32], bytes: &mut [u8]) -> usize
    ensures { BytesFilled words.now bytes.old result bytes.new }
{
    let n = (bytes.len() / 4).min(words.len());
    for done in 0..n {
        put_word(bytes, 4 * done, words[done]);
    }
    4 * n
}
