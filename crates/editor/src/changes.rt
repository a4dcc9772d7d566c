// The list that an edit makes of an old table's pairs, and its table. No pairs are sorted: any order of the same pairs has the same table.
ghost use Rattle.std.specs.Prelude.{◌+◌, ◌<◌, ◌≤◌, ◌≡◌, length};
ghost use Rattle.search.specs.code.Searchable.{Searchable};
ghost use Rattle.prelude.specs.Limits.{room};
ghost use Rattle.prelude.specs.Pairs.{codes_of};
ghost use Rattle.table.specs.Words.{total};
ghost use Rattle.reader.specs.Pairs.{pairs_in};
ghost use Rattle.editor.specs.Edit.{without};
ghost use Rattle.reader.specs.code.Gathering.{other_count};
ghost use Rattle.editor.specs.code.Changes.{new_pairs, changed, NewListed, Changing, Roomy, Listed, ChangedBuilt};

use prelude::limits::{FEW, ROOM};
use prelude::numbers::wide;
use reader::gather::{gather_others, is_other};
use writer::valid::{write_empty, write_one, write_valid};

// How the list is changed: the code is left out, and put in where there is a schedule for it.
#[derive(Clone, Copy)]
pub(crate) struct Change {
    pub(crate) code: u32,
    pub(crate) schedule: Option<u32>,
    // how many pairs have other codes
    pub(crate) others: usize,
}

// How many cells hold a code other than this one.
fn count_cells(cells: &[u32], code: u32) -> u32
    requires { length cells.now < 4294967296 }
    ensures { result ≡ other_count code cells.now }
{
    let mut count: u32 = 0;
    for &a in cells {
        count += u32::from(is_other(a, code));
    }
    count
}

// How many pairs of a table have other codes.
pub(crate) fn count_others(words: &[u32], code: u32) -> usize
    requires { total words.now ≤ length words.now }
    ensures { result ≡ length (without code (pairs_in words.now)) }
{
    let start = 3 + 2 * wide(words[0]);
    let end = start + wide(words[1]);
    wide(count_cells(&words[start..end], code))
}

// Lists the new pair first, where there is one. Gives how many are listed.
fn list_new(change: Change, codes: &mut [u32], schedules: &mut [u32]) -> usize
    requires { (1 ≤ length codes.old) × (length schedules.old ≡ length codes.old) }
    ensures { NewListed change result codes.new schedules.new }
{
    let Some(schedule) = change.schedule else {
        return 0;
    };
    codes[0] = change.code;
    schedules[0] = schedule;
    1
}

// Lists the changed pairs.
fn list_changed<'a>(
    words: &[u32],
    change: Change,
    codes: &'a mut [u32],
    schedules: &'a mut [u32],
) -> (&'a [u32], &'a [u32])
    requires changing { Changing words.now change }
    requires roomy { Roomy change codes.old schedules.old }
    ensures { Listed words.now change result.0.now result.1.now }
{
    let from = list_new(change, codes, schedules);
    let to = from + change.others;
    let c = wide(words[1]);
    let start = 3 + 2 * wide(words[0]);
    let middle = start + c;
    let end = middle + c;
    gather_others(
        &words[start..middle],
        &words[middle..end],
        change.code,
        &mut codes[from..to],
        &mut schedules[from..to],
    );
    (&codes[..to], &schedules[..to])
}

// Writes the table of the changed list, of at most N pairs, and gives the total. No word is written where fewer are lent. Not inlined: an edit of few pairs
// would set up the stack of the largest one.
#[inline(never)]
fn write_in<const N: usize>(p: u32, words: &[u32], change: Change, second: &mut [u32]) -> u32
    requires searchable { Searchable p (codes_of (changed change (pairs_in words.now))) }
    requires changing { Changing words.now change }
    requires fits { (length (new_pairs change) + change.others ≤ N) × ((1 ≤ N) × (N ≤ room)) }
    ensures { ChangedBuilt p words.now change second.old result second.new }
{
    let mut codes = [0u32; N];
    let mut schedules = [0u32; N];
    let (codes, schedules) = list_changed(words, change, &mut codes, &mut schedules);
    write_valid(p, codes, schedules, second)
}

// The same of a list of one pair: the new one, which is not gathered, or the one that is left.
fn write_alone(p: u32, words: &[u32], change: Change, second: &mut [u32]) -> u32
    requires searchable { Searchable p (codes_of (changed change (pairs_in words.now))) }
    requires changing { Changing words.now change }
    requires alone { length (new_pairs change) + change.others ≡ 1 }
    ensures { ChangedBuilt p words.now change second.old result second.new }
{
    if let Some(schedule) = change.schedule {
        return write_one(change.code, schedule, second);
    }
    let mut codes = [0u32; 1];
    let mut schedules = [0u32; 1];
    let (codes, schedules) = list_changed(words, change, &mut codes, &mut schedules);
    write_one(codes[0], schedules[0], second)
}

// The same of any changed list. No pair and one pair need no room, and none is cleared. Inlined, so that each of its two callers keeps only its own case of
// one pair.
#[inline(always)]
pub(crate) fn write_changed(p: u32, words: &[u32], change: Change, second: &mut [u32]) -> u32
    requires searchable { Searchable p (codes_of (changed change (pairs_in words.now))) }
    requires changing { Changing words.now change }
    ensures { ChangedBuilt p words.now change second.old result second.new }
{
    let pairs = usize::from(change.schedule.is_some()) + change.others;
    if pairs == 0 {
        return write_empty(second);
    }
    if pairs == 1 {
        return write_alone(p, words, change, second);
    }
    if pairs <= FEW {
        return write_in::<FEW>(p, words, change, second);
    }
    write_in::<ROOM>(p, words, change, second)
}
