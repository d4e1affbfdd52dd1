//! The text of what a later table has otherwise.

ghost use Rattle.std.specs.Prelude.{◌≡◌, ◌++◌, ◌<◌, ◌^◌, IfOk, OnOk, flat_map, length, string_bytes};
ghost use Rattle.bwe_specs.specs.Reports.{numbers};
ghost use Rattle.demand_book.specs.TableChanges.{frame_of};
ghost use Rattle.doc_names.specs.NameTexts.{texts_of};
ghost use Rattle.table_text.specs.TableText.{closing_line, group_lines, value_line};
ghost use Rattle.change_text.specs.ChangeText.{change_text_of, changed, changed_closings, closing_lines};

use bwe_specs::{Closing, OutOfMemory};
use demand_book::is_equal_line;
use doc_names::{NameList, Names};
use limit_table::{GroupLine, LimitTable, total_in};
use std::alloc::{AllocError, Global};
use table_text::{end_with_number, push_closings, push_group, push_value};

// So many bytes of memory a group's text begins with. Most have a path group or two.
const GROUP_BYTES: usize = 256;

/// The text of what has changed from the earlier table to the later one, which is of the same plan.
///
/// A number that has no name is printed as an empty text; the names of a document have one for each
/// number of its tables.
#[tactic(auto, unfolding(crate::specs::ChangeText::change_text_of))]
pub fn change_text(
    alloc: Global,
    earlier: &LimitTable,
    later: &LimitTable,
    names: &Names,
) -> Result<Vec<u8>, OutOfMemory>
    requires one_plan { frame_of earlier.now ≡ frame_of later.now }
    ensures { IfOk result
        (λ text. text.items ≡ change_text_of (texts_of names.now) earlier.now later.now) }
{
    let mut text = String::new(alloc);
    end_with_number(&mut text, "change ", later.prefix)?;
    push_changed_closings(alloc, &mut text, names, &earlier.closings, &later.closings)?;
    push_changed_values(
        &mut text,
        "link ",
        &names.links,
        " load ",
        &earlier.loads,
        &later.loads,
    )?;
    push_changed_groups(alloc, &mut text, names, &earlier.groups, &later.groups)?;
    push_changed_values(
        &mut text,
        "task ",
        &names.tasks,
        " limit ",
        &earlier.limits,
        &later.limits,
    )?;
    end_with_number(&mut text, "total ", total_in(&later.groups))?;
    Ok(text.into_bytes())
}

#[tactic(auto, unfolding(crate::specs::ChangeText::changed_closings))]
fn push_changed_closings(
    alloc: Global,
    text: &mut String,
    names: &Names,
    earlier: &[Closing],
    later: &[Closing],
) -> Result<(), AllocError>
    ensures { OnOk result
        (string_bytes text.new
        ≡ string_bytes text.old
        ++ changed_closings (texts_of names.now) earlier.now later.now) }
{
    let earlier_lines = closings_text(alloc, names, earlier)?;
    let later_lines = closings_text(alloc, names, later)?;
    if earlier_lines.as_str() == later_lines.as_str() {
        return Ok(());
    }
    end_with_number(text, "closings ", later.len() as u64)?;
    text.push_str(later_lines.as_str())
}

fn closings_text(alloc: Global, names: &Names, closings: &[Closing]) -> Result<String, AllocError>
    ensures { IfOk result
        (λ text. string_bytes text ≡ closing_lines (texts_of names.now) closings.now) }
{
    let mut text = String::new(alloc);
    push_closings(&mut text, names, closings)?;
    Ok(text)
}

#[tactic(auto, using(crate::proofs::ChangeFacts::other_value))]
fn push_changed_value(
    text: &mut String,
    word: &str,
    names: &NameList,
    between: &str,
    earlier: &[u64],
    later: &[u64],
    number: usize,
) -> Result<(), AllocError>
    requires number { number < length later.now }
    requires same_length { length earlier.now ≡ length later.now }
    requires few { length later.now < 2 ^ 32 }
    ensures { OnOk result (string_bytes text.new ≡ string_bytes text.old
        ++ changed (value_line word.now between.now names.now earlier.now)
        (value_line word.now between.now names.now later.now) number) }
{
    if earlier[number] == later[number] {
        return Ok(());
    }
    push_value(text, word, names, between, later, number)
}

#[tactic(auto, using(table_text::proofs::Lines::one_line_more))]
fn push_changed_values(
    text: &mut String,
    word: &str,
    names: &NameList,
    between: &str,
    earlier: &[u64],
    later: &[u64],
) -> Result<(), AllocError>
    requires same_length { length earlier.now ≡ length later.now }
    requires few { length later.now < 2 ^ 32 }
    ensures { OnOk result (string_bytes text.new ≡ string_bytes text.old
        ++ flat_map (changed
        (value_line word.now between.now names.now earlier.now)
        (value_line word.now between.now names.now later.now))
        (numbers (length later.now))) }
{
    for number in 0..later.len() {
        push_changed_value(text, word, names, between, earlier, later, number)?;
    }
    Ok(())
}

fn group_text(
    alloc: Global,
    names: &Names,
    lines: &[GroupLine],
    group: usize,
) -> Result<String, AllocError>
    requires group { group < length lines.now }
    requires few { length lines.now < 2 ^ 32 }
    ensures { IfOk result
        (λ text. string_bytes text ≡ group_lines (texts_of names.now) lines.now group) }
{
    let mut text = String::with_capacity(alloc, GROUP_BYTES)?;
    push_group(&mut text, names, lines, group)?;
    Ok(text)
}

// Where share or amount differ, so do the texts. Where neither does, the texts are compared: what
// differs may be two links of one name.
fn push_changed_group(
    alloc: Global,
    text: &mut String,
    names: &Names,
    earlier: &[GroupLine],
    later: &[GroupLine],
    group: usize,
) -> Result<(), AllocError>
    requires group { group < length later.now }
    requires same_length { length earlier.now ≡ length later.now }
    requires few { length later.now < 2 ^ 32 }
    ensures { OnOk result (string_bytes text.new ≡ string_bytes text.old
        ++ changed (group_lines (texts_of names.now) earlier.now)
        (group_lines (texts_of names.now) later.now) group) }
{
    let before = &earlier[group];
    let after = &later[group];
    if is_equal_line(before, after) {
        return Ok(());
    }
    if before.share != after.share || before.amount != after.amount {
        return push_group(text, names, later, group);
    }
    push_other_text(alloc, text, names, earlier, later, group)
}

// The later text of a group, exactly where it differs from the earlier one.
fn push_other_text(
    alloc: Global,
    text: &mut String,
    names: &Names,
    earlier: &[GroupLine],
    later: &[GroupLine],
    group: usize,
) -> Result<(), AllocError>
    requires group { group < length later.now }
    requires same_length { length earlier.now ≡ length later.now }
    requires few { length later.now < 2 ^ 32 }
    ensures { OnOk result (string_bytes text.new ≡ string_bytes text.old
        ++ changed (group_lines (texts_of names.now) earlier.now)
        (group_lines (texts_of names.now) later.now) group) }
{
    let before = group_text(alloc, names, earlier, group)?;
    let after = group_text(alloc, names, later, group)?;
    if before.as_str() == after.as_str() {
        return Ok(());
    }
    text.push_str(after.as_str())
}

#[tactic(auto, using(table_text::proofs::Lines::one_line_more))]
fn push_changed_groups(
    alloc: Global,
    text: &mut String,
    names: &Names,
    earlier: &[GroupLine],
    later: &[GroupLine],
) -> Result<(), AllocError>
    requires same_length { length earlier.now ≡ length later.now }
    requires few { length later.now < 2 ^ 32 }
    ensures { OnOk result (string_bytes text.new ≡ string_bytes text.old
        ++ flat_map (changed (group_lines (texts_of names.now) earlier.now)
        (group_lines (texts_of names.now) later.now)) (numbers (length later.now))) }
{
    for group in 0..later.len() {
        push_changed_group(alloc, text, names, earlier, later, group)?;
    }
    Ok(())
}
