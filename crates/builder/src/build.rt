// Building a table from a list (document 01, "Build"). A refusal changes no word.
ghost use Rattle.std.specs.Prelude.{◌≡◌, ◌≤◌};
ghost use Rattle.hash.specs.Theorems.{Prime};
ghost use Rattle.prelude.specs.Limits.{room, most_pairs};
ghost use Rattle.builder.specs.Build.{Built};
ghost use Rattle.builder.specs.Built.{built_of, build_error_of};
ghost use Rattle.builder.specs.declared.build.BuildError.TheVariants.{Refused};

use lists::list::{ListError, validate};
use prelude::answers::{Numbered, Refusal};
use prelude::limits::Format;
use prelude::numbers::wide;
use writer::valid::write_valid;

// Why a table is not built.
#[derive(Clone, Copy, Debug, PartialEq, Eq)]
pub enum BuildError {
    // 6, with the total
    TooShort(u32),
    // 1 to 5
    Refused(ListError),
}

impl From<ListError> for BuildError {
    ghost from_gives = { λ e r. r ≡ Refused e };

    fn from(e: ListError) -> BuildError {
        BuildError::Refused(e)
    }
}

impl Refusal for BuildError {
    ghost refusal_of = { build_error_of };

    fn refusal(self) -> Numbered {
        match self {
            BuildError::TooShort(total) => Numbered {
                number: 6,
                value: total,
            },
            BuildError::Refused(e) => e.refusal(),
        }
    }
}

// Builds the table of a list in a format. Gives the total; the words after the table are kept.
pub fn build_for(
    format: Format,
    codes: &[u32],
    schedules: &[u32],
    words: &mut [u32],
) -> Result<u32, BuildError>
    requires prime { Prime format.prime }
    requires limit_le_room { format.limit ≤ room }
    ensures { Built format.prime format.limit codes.now schedules.now words.old (built_of result) words.new }
{
    validate(format, codes, schedules)?;
    let lent = words.len();
    let total = write_valid(format.prime, codes, schedules, words);
    if lent < wide(total) {
        return Err(BuildError::TooShort(total));
    }
    Ok(total)
}

// Builds the table of a list with the prime 65,537, of at most 2,048 pairs.
pub fn build(codes: &[u32], schedules: &[u32], words: &mut [u32]) -> Result<u32, BuildError>
    ensures { Built 65537 most_pairs codes.now schedules.now words.old (built_of result) words.new }
{
    build_for(Format::product(), codes, schedules, words)
}
