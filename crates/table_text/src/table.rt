//! The text of a table, line by line.

ghost use Rattle.std.specs.Prelude.{◌≡◌, ◌++◌, ◌<◌, ◌≤◌, ◌^◌, ℕ, All, IfOk, OnOk, codes, decimal, flat_map, length, string_bytes, sum_by};
ghost use Rattle.bwe_specs.specs.Reports.{numbers};
ghost use Rattle.bwe_specs.specs.declared.limits.TheConstants.{MAX_TOTAL};
ghost use Rattle.doc_names.specs.NameTexts.{texts_of};
ghost use Rattle.table_text.specs.TableText.{closed_text, closing_line, group_lines, place_line, text_of, value_line, with_limits};

use crate::line::{end_with_number, name_of, push_name, push_number};
use bwe_specs::{Closing, OutOfMemory};
use doc_names::{NameList, Names};
use limit_table::{GroupLine, LimitTable, PlaceLine, total_in};
use std::alloc::{AllocError, Global};

/// The text of the table, with the names of its links, groups and tasks.
///
/// A number that has no name is printed as an empty text; the names of a document have one for each
/// number of its tables.
#[tactic(auto, unfolding(crate::specs::TableText::text_of))]
pub fn table_text(alloc: Global, table: &LimitTable, names: &Names) -> Result<Vec<u8>, OutOfMemory>
    ensures { IfOk result (λ text. text.items ≡ text_of (texts_of names.now) table.now) }
{
    let mut text = String::new(alloc);
    end_with_number(&mut text, "table ", table.prefix)?;
    push_closings(&mut text, names, &table.closings)?;
    push_limits(&mut text, names, &table.loads, &table.groups, &table.limits)?;
    Ok(text.into_bytes())
}

/// Puts the lines of all links, groups and tasks and of the total at the end of the text, as the
/// texts of all tables end.
pub fn push_limits(
    text: &mut String,
    names: &Names,
    loads: &[u64],
    groups: &[GroupLine],
    limits: &[u64],
) -> Result<(), AllocError>
    requires links { length loads.now < 2 ^ 32 }
    requires groups { length groups.now < 2 ^ 32 }
    requires tasks { length limits.now < 2 ^ 32 }
    requires total { sum_by (λ line. line.amount) groups.now ≤ MAX_TOTAL }
    ensures { OnOk result (string_bytes text.new
        ≡ with_limits (texts_of names.now) loads.now groups.now limits.now
        (string_bytes text.old)) }
{
    push_values(text, "link ", &names.links, " load ", loads)?;
    push_groups(text, names, groups)?;
    push_values(text, "task ", &names.tasks, " limit ", limits)?;
    end_with_number(text, "total ", total_in(groups))
}

fn push_closing(text: &mut String, names: &Names, closing: Closing) -> Result<(), AllocError>
    ensures { OnOk result
        (string_bytes text.new
        ≡ string_bytes text.old ++ closing_line (texts_of names.now) closing) }
{
    push_name(text, "closing ", name_of(&names.links, closing.link))?;
    end_with_number(text, " at ", closing.share)
}

/// Puts the lines of the closings at the end of the text.
pub fn push_closings(
    text: &mut String,
    names: &Names,
    closings: &[Closing],
) -> Result<(), AllocError>
    ensures { OnOk result
        (string_bytes text.new
        ≡ string_bytes text.old ++ flat_map (closing_line (texts_of names.now)) closings.now) }
{
    for closing in closings {
        push_closing(text, names, *closing)?;
    }
    Ok(())
}

/// Puts a line at the end of the text: a word, the name of a number, a second word, and what the
/// number has.
pub fn push_value(
    text: &mut String,
    word: &str,
    names: &NameList,
    between: &str,
    values: &[u64],
    number: usize,
) -> Result<(), AllocError>
    requires value { number < length values.now }
    requires few { length values.now < 2 ^ 32 }
    ensures { OnOk result (string_bytes text.new ≡ string_bytes text.old
        ++ value_line word.now between.now names.now values.now number) }
{
    push_name(text, word, name_of(names, number as u32))?;
    end_with_number(text, between, values[number])
}

/// Puts such a line for each number at the end of the text.
#[tactic(auto, using(crate::proofs::Lines::one_line_more))]
pub fn push_values(
    text: &mut String,
    word: &str,
    names: &NameList,
    between: &str,
    values: &[u64],
) -> Result<(), AllocError>
    requires few { length values.now < 2 ^ 32 }
    ensures { OnOk result (string_bytes text.new ≡ string_bytes text.old
        ++ flat_map (value_line word.now between.now names.now values.now)
        (numbers (length values.now))) }
{
    for number in 0..values.len() {
        push_value(text, word, names, between, values, number)?;
    }
    Ok(())
}

#[tactic(auto, unfolding(crate::specs::TableText::closed_text))]
fn push_closed(text: &mut String, names: &Names, closed: Option<u32>) -> Result<(), AllocError>
    ensures { OnOk result
        (string_bytes text.new ≡ string_bytes text.old ++ closed_text (texts_of names.now) closed) }
{
    match closed {
        Some(link) => {
            push_name(text, " closed by ", name_of(&names.links, link))?;
            text.push_str("\n")
        }
        None => text.push_str(" open\n"),
    }
}

fn push_place(
    text: &mut String,
    names: &Names,
    lines: &[PlaceLine],
    place: usize,
) -> Result<(), AllocError>
    requires place { place < length lines.now }
    ensures { OnOk result
        (string_bytes text.new
        ≡ string_bytes text.old ++ place_line (texts_of names.now) lines.now place) }
{
    let line = lines[place];
    push_number(text, "place ", place as u64)?;
    push_number(text, " amount ", line.amount)?;
    push_closed(text, names, line.closed)
}

#[tactic(auto, using(crate::proofs::Lines::one_line_more))]
fn push_places(text: &mut String, names: &Names, lines: &[PlaceLine]) -> Result<(), AllocError>
    ensures { OnOk result
        (string_bytes text.new
        ≡ string_bytes text.old
        ++ flat_map (place_line (texts_of names.now) lines.now) (numbers (length lines.now))) }
{
    for place in 0..lines.len() {
        push_place(text, names, lines, place)?;
    }
    Ok(())
}

/// Puts the lines of a group at the end of the text: its own, and one for each of its path groups.
pub fn push_group(
    text: &mut String,
    names: &Names,
    lines: &[GroupLine],
    group: usize,
) -> Result<(), AllocError>
    requires group { group < length lines.now }
    requires few { length lines.now < 2 ^ 32 }
    ensures { OnOk result
        (string_bytes text.new
        ≡ string_bytes text.old ++ group_lines (texts_of names.now) lines.now group) }
{
    let line = &lines[group];
    push_name(text, "group ", name_of(&names.groups, group as u32))?;
    push_number(text, " share ", line.share)?;
    end_with_number(text, " amount ", line.amount)?;
    push_places(text, names, &line.places)
}

/// Puts the lines of each group at the end of the text.
#[tactic(auto, using(crate::proofs::Lines::one_line_more))]
fn push_groups(text: &mut String, names: &Names, lines: &[GroupLine]) -> Result<(), AllocError>
    requires few { length lines.now < 2 ^ 32 }
    ensures { OnOk result
        (string_bytes text.new
        ≡ string_bytes text.old
        ++ flat_map (group_lines (texts_of names.now) lines.now) (numbers (length lines.now))) }
{
    for group in 0..lines.len() {
        push_group(text, names, lines, group)?;
    }
    Ok(())
}
