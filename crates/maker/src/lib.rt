// The program that makes a table file of a supplier's text, but for its input and output.
#![tactic(auto)]

ghost use Rattle.std.specs.Prelude.{◌≡◌};
ghost use Rattle.prelude.specs.Limits.{most_pairs};
ghost use Rattle.prelude.specs.Numbers.{Shown};
ghost use Rattle.builder.specs.Build.{build_of};
ghost use Rattle.builder.specs.Built.{build_error_of};
ghost use Rattle.maker.specs.Making.{bytes_for, made_of, TableMade};
ghost use Rattle.maker.specs.code.Errors.{make_error_of, SmallSize, BytesOr, MadeOr};
ghost use Rattle.maker.specs.declared.MakeError.TheVariants.{Unread, Refused};

use builder::build::{BuildError, build};
use files::bytes_of;
use lines::put_refused;
use prelude::answers::{Numbered, Refusal};
use prelude::limits::ROOM;
use prelude::numbers::wide;
use suppliers::numbered::SizeRefusal;
use suppliers::read::{TextError, read_list};

// Why no table is made of a text.
#[derive(Clone, Copy, Debug, PartialEq, Eq)]
enum MakeError {
    // 61
    TooLong,
    // 71 and 72
    Unread(TextError),
    // 1 to 6
    Refused(BuildError),
}

impl From<TextError> for MakeError {
    ghost from_gives = { λ e r. r ≡ Unread e };

    fn from(e: TextError) -> MakeError {
        MakeError::Unread(e)
    }
}

impl From<BuildError> for MakeError {
    ghost from_gives = { λ e r. r ≡ Refused e };

    fn from(e: BuildError) -> MakeError {
        MakeError::Refused(e)
    }
}

// The number of an error and what comes with it: of a text, a size that is a word. That is asked here, as a `Refusal` could not.
fn refusal(e: MakeError) -> Numbered
    requires { SmallSize e }
    ensures { Shown (make_error_of e) result }
{
    match e {
        MakeError::TooLong => Numbered {
            number: 61,
            value: 0,
        },
        MakeError::Unread(e) => {
            let refusal = e.refusal();
            Numbered {
                number: refusal.number,
                value: refusal.value as u32,
            }
        }
        MakeError::Refused(e) => e.refusal(),
    }
}

// Writes the bytes of the table of a list into the first lent bytes; an error keeps them.
fn make_built(
    codes: &[u32],
    schedules: &[u32],
    bytes: &mut [u8; 65536],
) -> Result<usize, BuildError>
    ensures { BytesOr build_error_of
        (bytes_for 65537 codes.now schedules.now (build_of 65537 most_pairs codes.now schedules.now 16384)) bytes.old result bytes.new }
{
    let mut words = [0u32; 16384];
    let total = build(codes, schedules, &mut words)?;
    let n = wide(total);
    Ok(bytes_of(&words[..n], bytes))
}

// Writes the bytes of the table of a text's list into the first lent bytes; an error keeps them.
fn make_table(text: &[u8], bytes: &mut [u8; 65536]) -> Result<usize, MakeError>
    ensures { MadeOr (made_of 65537 most_pairs text.now) bytes.old result bytes.new }
{
    if 65536 < text.len() {
        return Err(MakeError::TooLong);
    }
    let mut codes = [0u32; ROOM];
    let mut schedules = [0u32; ROOM];
    let n = read_list(text, &mut codes, &mut schedules)?;
    let end = make_built(&codes[..n], &schedules[..n], bytes)?;
    Ok(end)
}

// Writes the table file of a text into the first lent bytes, or the one line of its refusal, and answers how many bytes these are. The bytes after
// them are kept. No table file is longer than what is lent.
pub fn make(text: &[u8], bytes: &mut [u8; 65536]) -> usize
    ensures { TableMade 65537 most_pairs text.now bytes.old result bytes.new }
{
    match make_table(text, bytes) {
        Ok(end) => end,
        Err(e) => {
            let refusal = refusal(e);
            put_refused(bytes, 0, refusal.number, refusal.value)
        }
    }
}
