// The schedule of a panel, a batch of codes fired together (document 01, "Panel"), and the cell of the code that decides it.
#![tactic(auto)]

ghost use Rattle.std.specs.Prelude.{◌≤◌, cond, ◌≡◌, length};
ghost use Rattle.lookup.specs.Lookup.{lookup_of};
ghost use Rattle.table.specs.code.Sized.{WithBlocks, HashOf};
ghost use Rattle.panel.specs.Panel.{bad_holds, walk_of, panel_of};
ghost use Rattle.lookup.specs.Found.{found_of};
ghost use Rattle.panel.specs.Fired.{fired_of};
ghost use Rattle.panel.specs.code.Decided.{answer_at, replaces};
ghost use Rattle.prelude.specs.Limits.{most_pairs};

pub mod numbered;

use hash::Hasher;
use lookup::{Found, LookupError, in_block, lookup_for};
use prelude::limits::Format;
use prelude::numbers::{outside, some_outside, wide};
use table::words::{has_blocks, table_hash};

// What refuses a panel, or ends it at the code with an index.
#[derive(Clone, Copy, Debug, PartialEq, Eq)]
pub enum PanelError {
    // 35
    NoCodes,
    // 36
    TooManyCodes,
    // 74
    BadHolds,
    // the first code that ends it, by its index: absent
    Unknown(u32),
    // 31 to 34: refused
    Refused(u32, LookupError),
    // 75: found with a schedule that is not in use
    NotInUse(u32),
}

// 74: the holds are not those of 999 schedules, or one is above 10,080 minutes.
#[tactic(auto, unfolding(crate::specs::Panel::bad_holds))]
fn bad_holds(holds: &[u32]) -> bool
    ensures { result ≡ bad_holds holds.now }
{
    if holds.len() != 999 {
        return true;
    }
    some_outside(0, 10080, holds)
}

// A lookup's answer as the panel's, for the code at index i: only one that finds a schedule does not end it.
fn found_at(answer: Result<Option<Found>, LookupError>, i: u32) -> Result<Found, PanelError>
    ensures { fired_of result ≡ answer_at (found_of answer) i }
{
    match answer {
        Ok(Some(found)) => Ok(found),
        Ok(None) => Err(PanelError::Unknown(i)),
        Err(e) => Err(PanelError::Refused(i, e)),
    }
}

// The answer for one code of a panel: the sizes are tested before, and the hash into the blocks is the same for all codes.
#[tactic(auto, unfolding(lookup::specs::Lookup::lookup_of))]
fn lookup_in(h: Hasher, limit: u32, words: &[u32], code: u32) -> Result<Option<Found>, LookupError>
    requires { WithBlocks h.prime limit words.now × HashOf words.now h }
    ensures { found_of result ≡ lookup_of h.prime limit words.now code }
{
    if outside(1, h.prime - 1, code) {
        return Err(LookupError::CodeOutOfRange);
    }
    let j = wide(h.place_of(code));
    in_block(h.prime, words, code, j)
}

// A schedule that is found, with its hold and the cell of its code: three numbers, since a `Found` in it was packed and unpacked for each code.
#[derive(Clone, Copy)]
struct Decided {
    hold: u32,
    schedule: u32,
    cell: u32,
}

// One more schedule takes the place of the one that decides so far: its hold is longer, or as long and its number smaller.
fn replaces(d: Decided, next: Decided) -> bool
    ensures { result ≡ replaces d next }
{
    (d.hold < next.hold) | ((d.hold == next.hold) & (next.schedule < d.schedule))
}

// What decides a panel, with one more schedule: the earlier where both have one number.
fn decide(d: Decided, next: Decided) -> Decided
    ensures { result ≡ cond (replaces d next) next d }
{
    if replaces(d, next) {
        return next;
    }
    d
}

// The codes looked up in their order: the first one that is absent, refused or not in use ends it, otherwise the longest hold decides.
fn walk(
    h: Hasher,
    limit: u32,
    words: &[u32],
    holds: &[u32],
    codes: &[u32],
) -> Result<Found, PanelError>
    requires hashed { WithBlocks h.prime limit words.now × HashOf words.now h }
    requires holds_len { length holds.now ≡ 999 }
    requires codes_len { (1 ≤ length codes.now) × (length codes.now ≤ 64) }
    ensures { fired_of result ≡ walk_of h.prime limit words.now holds.now codes.now }
{
    // a hold of 0 is shorter than any in use: the first schedule takes its place
    let mut decided = Decided {
        hold: 0,
        schedule: 0,
        cell: 0,
    };
    for (i, &code) in codes.iter().enumerate() {
        let answer = found_at(lookup_in(h, limit, words, code), i as u32);
        // document 01 asks for this form here, and not for `?`
        let Ok(found) = answer else {
            return answer;
        };
        let hold = holds[wide(found.schedule) - 1];
        if hold == 0 {
            return Err(PanelError::NotInUse(i as u32));
        }
        decided = decide(
            decided,
            Decided {
                hold,
                schedule: found.schedule,
                cell: found.cell,
            },
        );
    }
    Ok(Found {
        schedule: decided.schedule,
        cell: decided.cell,
    })
}

// The answer for any words of a format, and any holds and codes.
#[tactic(auto, unfolding(crate::specs::Panel::panel_of))]
fn panel_for(
    format: Format,
    words: &[u32],
    holds: &[u32],
    codes: &[u32],
) -> Result<Found, PanelError>
    ensures { fired_of result ≡ panel_of format.prime format.limit words.now holds.now codes.now }
{
    if codes.is_empty() {
        return Err(PanelError::NoCodes);
    }
    if 64 < codes.len() {
        return Err(PanelError::TooManyCodes);
    }
    if bad_holds(holds) {
        return Err(PanelError::BadHolds);
    }
    if !has_blocks(format, words) {
        return found_at(lookup_for(format, words, codes[0]), 0);
    }
    walk(
        table_hash(format.prime, words),
        format.limit,
        words,
        holds,
        codes,
    )
}

// The schedule of a panel in any words, by any holds: the one with the longest hold and its cell, unknown, or refused. It writes nothing and relies on
// no earlier check.
pub fn panel(words: &[u32], holds: &[u32], codes: &[u32]) -> Result<Found, PanelError>
    ensures { fired_of result ≡ panel_of 65537 most_pairs words.now holds.now codes.now }
{
    panel_for(Format::product(), words, holds, codes)
}
