// The text of a file: a refusal's line, or the lines of its table.
ghost use Rattle.std.specs.Prelude.{◌+◌, ◌≤◌, ◌≡◌, length};
ghost use Rattle.prelude.specs.Limits.{room};
ghost use Rattle.audit.specs.Check.{check_of};
ghost use Rattle.decimal.specs.code.Added.{Added};
ghost use Rattle.reader.specs.ReadBack.{read_error_of};
ghost use Rattle.listing.specs.Listing.{head_line, text_of, listing_of, FileListed};
ghost use Rattle.listing.specs.declared.texts.FileError.TheVariants.{Refused};
ghost use Rattle.listing.specs.code.Lines.{table_lines, file_error_of, TextOr};

use decimal::Text;
use files::words_of;
use lines::{pairs_length, put_named, put_pairs_before, put_refused};
use prelude::answers::{Numbered, Refusal};
use prelude::limits::{Format, ROOM};
use prelude::numbers::wide;
use reader::pairs::{ReadError, pairs_for};

// Why the table of a file is not listed.
#[derive(Clone, Copy, Debug, PartialEq, Eq)]
pub(crate) enum FileError {
    // 61
    TooLong,
    // 62
    NotWords,
    // 11 to 21; 41 is none of a file's, since no table has more codes than there are places
    Refused(ReadError),
}

impl From<ReadError> for FileError {
    ghost from_gives = { λ e r. r ≡ Refused e };

    fn from(e: ReadError) -> FileError {
        FileError::Refused(e)
    }
}

impl Refusal for FileError {
    ghost refusal_of = { file_error_of };

    fn refusal(self) -> Numbered {
        match self {
            FileError::TooLong => Numbered {
                number: 61,
                value: 0,
            },
            FileError::NotWords => Numbered {
                number: 62,
                value: 0,
            },
            FileError::Refused(e) => e.refusal(),
        }
    }
}

// The first line of a table: its sizes and its multiplier.
fn put_head(bytes: &mut [u8], at: usize, n: u32, c: u32, k: u32) -> usize
    requires { at + length (head_line n c k) ≤ length bytes.old }
    ensures { Added (head_line n c k) at bytes.old result bytes.new }
{
    let mut text = Text { bytes, end: at };
    put_named(&mut text, b"codes ", n);
    put_named(&mut text, b" cells ", c);
    put_named(&mut text, b" multiplier ", k);
    text.put(b'\n');
    text.end
}

// The first line of a table, and those of its pairs.
fn put_table(text: &mut [u8; 65536], words: &[u32], codes: &[u32], schedules: &[u32]) -> usize
    requires { (3 ≤ length words.now) × ((length codes.now ≤ room) × (length schedules.now ≡ length codes.now)) }
    ensures { Added (table_lines words.now codes.now schedules.now) 0 text.old result text.new }
{
    let head_end = put_head(text, 0, words[0], words[1], words[2]);
    let end = head_end + pairs_length(codes, schedules);
    put_pairs_before(text, end, b' ', codes, schedules);
    end
}

// Writes the lines of the table in these words; an error keeps the text. A table has at most as many codes as there are places, so reading back refuses only
// what the check does.
fn list_words(format: Format, words: &[u32], text: &mut [u8; 65536]) -> Result<usize, ReadError>
    requires { format.limit ≤ room }
    ensures { TextOr read_error_of (text_of (check_of format.prime format.limit words.now) words.now) text.old result text.new }
{
    let mut codes = [0u32; ROOM];
    let mut schedules = [0u32; ROOM];
    let count = pairs_for(format, words, &mut codes, &mut schedules)?;
    let n = wide(count);
    Ok(put_table(text, words, &codes[..n], &schedules[..n]))
}

// Writes the lines of the table in the bytes of a file; an error keeps the text.
fn list_table(format: Format, bytes: &[u8], text: &mut [u8; 65536]) -> Result<usize, FileError>
    requires { format.limit ≤ room }
    ensures { TextOr file_error_of (listing_of format.prime format.limit bytes.now) text.old result text.new }
{
    if 65536 < bytes.len() {
        return Err(FileError::TooLong);
    }
    if bytes.len() % 4 != 0 {
        return Err(FileError::NotWords);
    }
    let mut words = [0u32; 16384];
    let n = words_of(bytes, &mut words);
    let end = list_words(format, &words[..n], text)?;
    Ok(end)
}

// The text for the bytes of a file.
pub(crate) fn list_file(format: Format, bytes: &[u8], text: &mut [u8; 65536]) -> usize
    requires { format.limit ≤ room }
    ensures { FileListed format.prime format.limit bytes.now text.old result text.new }
{
    match list_table(format, bytes, text) {
        Ok(end) => end,
        Err(e) => {
            let refusal = e.refusal();
            put_refused(text, 0, refusal.number, refusal.value)
        }
    }
}
