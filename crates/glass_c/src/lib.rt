// The C interface (include/glass.h): each function shows the answer of the proved one as a number and a value, of a lookup and a panel with a cell.
#![tactic(auto)]

ghost use Rattle.lookup.specs.Lookup.{lookup_of};
ghost use Rattle.panel.specs.Panel.{panel_of};
ghost use Rattle.audit.specs.Check.{check_of};
ghost use Rattle.prelude.specs.Numbers.{Shown, FoundShown};
ghost use Rattle.glass_c.specs.Exports.{BuildShown, PairsShown, InsertShown, RemoveShown, ReadListShown, WriteListShown, GenerateShown};
ghost use Rattle.prelude.specs.Limits.{most_pairs};

use prelude::answers::{Numbered, NumberedFound, NumberedSize, in_numbers};

pub fn glass_build(codes: &[u32], schedules: &[u32], words: &mut [u32]) -> Numbered
    ensures { BuildShown 65537 most_pairs codes.now schedules.now words.old result words.new }
{
    in_numbers(builder::build::build(codes, schedules, words))
}

pub fn glass_check(words: &[u32]) -> Numbered
    ensures { Shown (check_of 65537 most_pairs words.now) result }
{
    in_numbers(audit::check::check(words).map(|accepted| accepted.total))
}

pub fn glass_lookup(words: &[u32], code: u32) -> NumberedFound
    ensures { FoundShown (lookup_of 65537 most_pairs words.now code) result }
{
    lookup::branch_free::lookup_numbered(words, code)
}

pub fn glass_panel(words: &[u32], holds: &[u32], codes: &[u32]) -> NumberedFound
    ensures { FoundShown (panel_of 65537 most_pairs words.now holds.now codes.now) result }
{
    panel::numbered::in_numbers(panel::panel(words, holds, codes))
}

pub fn glass_pairs(words: &[u32], codes: &mut [u32], schedules: &mut [u32]) -> Numbered
    ensures { PairsShown 65537 most_pairs words.now codes.old schedules.old result codes.new schedules.new }
{
    in_numbers(reader::pairs::pairs(words, codes, schedules))
}

pub fn glass_insert(words: &[u32], code: u32, schedule: u32, second: &mut [u32]) -> Numbered
    ensures { InsertShown 65537 most_pairs words.now code schedule second.old result second.new }
{
    in_numbers(editor::edit::insert(words, code, schedule, second))
}

pub fn glass_remove(words: &[u32], code: u32, second: &mut [u32]) -> Numbered
    ensures { RemoveShown 65537 most_pairs words.now code second.old result second.new }
{
    in_numbers(editor::edit::remove(words, code, second))
}

pub fn glass_read_list(text: &[u8], codes: &mut [u32], schedules: &mut [u32]) -> NumberedSize
    ensures { ReadListShown text.now codes.old schedules.old result codes.new schedules.new }
{
    suppliers::numbered::size_in_numbers(suppliers::read::read_list(text, codes, schedules))
}

pub fn glass_write_list(codes: &[u32], schedules: &[u32], text: &mut [u8]) -> NumberedSize
    ensures { WriteListShown most_pairs codes.now schedules.now text.old result text.new }
{
    suppliers::numbered::size_in_numbers(suppliers::write::write_list(codes, schedules, text))
}

pub fn glass_generate(length: usize, codes: &mut [u32], schedules: &mut [u32]) -> Numbered
    ensures { GenerateShown most_pairs length codes.old schedules.old result codes.new schedules.new }
{
    in_numbers(generator::generate(length, codes, schedules))
}
