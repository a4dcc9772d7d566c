// The exports of the C interface (include/glass.h): each calls glass_c's function of its name.
#![tactic(auto)]

ghost use Rattle.lookup.specs.Lookup.{lookup_of};
ghost use Rattle.panel.specs.Panel.{panel_of};
ghost use Rattle.audit.specs.Check.{check_of};
ghost use Rattle.prelude.specs.Numbers.{Shown, FoundShown};
ghost use Rattle.glass_c.specs.Exports.{BuildShown, PairsShown, InsertShown, RemoveShown, ReadListShown, WriteListShown, GenerateShown};
ghost use Rattle.prelude.specs.Limits.{most_pairs};

use prelude::answers::{Numbered, NumberedFound, NumberedSize};

#[unsafe(no_mangle)]
pub extern "C" fn glass_build(codes: &[u32], schedules: &[u32], words: &mut [u32]) -> Numbered
    ensures { BuildShown 65537 most_pairs codes.now schedules.now words.old result words.new }
{
    glass_c::glass_build(codes, schedules, words)
}

#[unsafe(no_mangle)]
pub extern "C" fn glass_check(words: &[u32]) -> Numbered
    ensures { Shown (check_of 65537 most_pairs words.now) result }
{
    glass_c::glass_check(words)
}

#[unsafe(no_mangle)]
pub extern "C" fn glass_lookup(words: &[u32], code: u32) -> NumberedFound
    ensures { FoundShown (lookup_of 65537 most_pairs words.now code) result }
{
    glass_c::glass_lookup(words, code)
}

#[unsafe(no_mangle)]
pub extern "C" fn glass_panel(words: &[u32], holds: &[u32], codes: &[u32]) -> NumberedFound
    ensures { FoundShown (panel_of 65537 most_pairs words.now holds.now codes.now) result }
{
    glass_c::glass_panel(words, holds, codes)
}

#[unsafe(no_mangle)]
pub extern "C" fn glass_pairs(words: &[u32], codes: &mut [u32], schedules: &mut [u32]) -> Numbered
    ensures { PairsShown 65537 most_pairs words.now codes.old schedules.old result codes.new schedules.new }
{
    glass_c::glass_pairs(words, codes, schedules)
}

#[unsafe(no_mangle)]
pub extern "C" fn glass_insert(
    words: &[u32],
    code: u32,
    schedule: u32,
    second: &mut [u32],
) -> Numbered
    ensures { InsertShown 65537 most_pairs words.now code schedule second.old result second.new }
{
    glass_c::glass_insert(words, code, schedule, second)
}

#[unsafe(no_mangle)]
pub extern "C" fn glass_remove(words: &[u32], code: u32, second: &mut [u32]) -> Numbered
    ensures { RemoveShown 65537 most_pairs words.now code second.old result second.new }
{
    glass_c::glass_remove(words, code, second)
}

#[unsafe(no_mangle)]
pub extern "C" fn glass_read_list(
    text: &[u8],
    codes: &mut [u32],
    schedules: &mut [u32],
) -> NumberedSize
    ensures { ReadListShown text.now codes.old schedules.old result codes.new schedules.new }
{
    glass_c::glass_read_list(text, codes, schedules)
}

#[unsafe(no_mangle)]
pub extern "C" fn glass_write_list(
    codes: &[u32],
    schedules: &[u32],
    text: &mut [u8],
) -> NumberedSize
    ensures { WriteListShown most_pairs codes.now schedules.now text.old result text.new }
{
    glass_c::glass_write_list(codes, schedules, text)
}

#[unsafe(no_mangle)]
pub extern "C" fn glass_generate(
    length: usize,
    codes: &mut [u32],
    schedules: &mut [u32],
) -> Numbered
    ensures { GenerateShown most_pairs length codes.old schedules.old result codes.new schedules.new }
{
    glass_c::glass_generate(length, codes, schedules)
}
