// A studio's own test load (document 02, Change 2): the same list on every bench. A refusal changes no place.
#![tactic(auto)]

ghost use Rattle.std.specs.Prelude.{◌+◌, ◌%◌, ◌≤◌, ◌≡◌};
ghost use Rattle.prelude.specs.Limits.{most_pairs};
ghost use Rattle.generator.specs.TestLoad.{LoadGenerated};
ghost use Rattle.generator.specs.Generated.{generated_of, generate_error_of};
ghost use Rattle.generator.specs.code.Places.{LoadFits, LoadFilled};

use hash::residue;
use prelude::answers::{Numbered, Refusal};
use prelude::limits::MOST_PAIRS;
use prelude::numbers::wide;

// Why a load is not generated.
#[derive(Clone, Copy, Debug, PartialEq, Eq)]
pub enum GenerateError {
    // 73
    TooLong,
}

impl Refusal for GenerateError {
    ghost refusal_of = { generate_error_of };

    fn refusal(self) -> Numbered {
        match self {
            GenerateError::TooLong => Numbered {
                number: 73,
                value: 0,
            },
        }
    }
}

// The schedule of the next place: after 999 comes 1.
fn next_schedule(schedule: u32) -> u32
    requires { schedule ≤ 999 }
    ensures { result ≡ schedule % 999 + 1 }
{
    if schedule == 999 {
        return 1;
    }
    schedule + 1
}

// Fills the first `length` places. A code is 75 times the one before, reduced, and a schedule is counted on: no power and no remainder by 999 is worked out.
fn fill(length: usize, codes: &mut [u32], schedules: &mut [u32])
    requires { LoadFits length codes.old schedules.old }
    ensures { LoadFilled length codes.old schedules.old codes.new schedules.new }
{
    let mut code: u32 = 1;
    let mut schedule: u32 = 1;
    for i in 0..length {
        code = residue(65537, 75, code);
        codes[i] = code;
        schedules[i] = schedule;
        schedule = next_schedule(schedule);
    }
}

// A load of any length up to the limit.
fn generate_for(
    limit: u32,
    length: usize,
    codes: &mut [u32],
    schedules: &mut [u32],
) -> Result<u32, GenerateError>
    ensures { LoadGenerated limit length codes.old schedules.old (generated_of result) codes.new schedules.new }
{
    if wide(limit) < length {
        return Err(GenerateError::TooLong);
    }
    if codes.len() < length {
        return Err(GenerateError::TooLong);
    }
    if schedules.len() < length {
        return Err(GenerateError::TooLong);
    }
    fill(length, codes, schedules);
    Ok(length as u32)
}

// Generates the load of this length, at most as many pairs as a build takes, into the first places of two arrays, and gives its length. Later places are
// kept.
pub fn generate(
    length: usize,
    codes: &mut [u32],
    schedules: &mut [u32],
) -> Result<u32, GenerateError>
    ensures { LoadGenerated most_pairs length codes.old schedules.old (generated_of result) codes.new schedules.new }
{
    generate_for(MOST_PAIRS, length, codes, schedules)
}
