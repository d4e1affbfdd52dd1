//! The links of a made document, and the paths of its groups.
#![tactic(auto, unfolding(raw_document::specs::Words::word))]

ghost use Rattle.std.specs.Prelude.{◌≡◌, ◌<◌, map};
ghost use Rattle.doc_maker.specs.Layout.{link_value, list_value, path_value};
ghost use Rattle.doc_maker.specs.Made.{made, made_link, made_path};
ghost use Rattle.doc_maker.specs.Writing.{Adds, paths_tokens, tokens_of};

use crate::size::{DocumentSize, write_numbered};
use json::Writer;
use std::alloc::{AllocError, Global};

/// The links.
pub(crate) fn write_links(
    alloc: Global,
    out: &mut Writer,
    size: &DocumentSize,
) -> Result<(), AllocError>
    ensures { Adds result out.old out.new
        (tokens_of (list_value link_value (made size.now).links)) }
{
    out.begin_array()?;
    for link in 0..size.groups() {
        write_link(alloc, out, size, link)?;
    }
    out.end_array()
}

fn write_link(
    alloc: Global,
    out: &mut Writer,
    size: &DocumentSize,
    link: u32,
) -> Result<(), AllocError>
    ensures { Adds result out.old out.new (tokens_of (link_value (made_link size.now link))) }
{
    out.begin_object()?;
    out.key("capacity")?;
    out.u64(1_000 + size.drawn(link))?;
    out.key("from")?;
    out.string("a")?;
    out.key("name")?;
    write_numbered(alloc, out, "l", link)?;
    out.key("to")?;
    out.string("b")?;
    out.end_object()
}

/// The path groups of a group: a path over the link that it has in common with its neighbour, then
/// two over the next links.
pub(crate) fn write_path_groups(
    alloc: Global,
    out: &mut Writer,
    size: &DocumentSize,
    group: u32,
) -> Result<(), AllocError>
    requires { group < size.now.groups }
    ensures { Adds result out.old out.new (paths_tokens size.now group) }
{
    let groups = size.groups();
    out.begin_array()?;
    out.begin_array()?;
    write_path(alloc, out, 1, group / 2)?;
    out.end_array()?;
    out.begin_array()?;
    write_path(alloc, out, 1, (group + 1) % groups)?;
    write_path(alloc, out, 2, (group + 2) % groups)?;
    out.end_array()?;
    out.end_array()
}

// A path over one link.
fn write_path(alloc: Global, out: &mut Writer, weight: u64, link: u32) -> Result<(), AllocError>
    ensures { Adds result out.old out.new (tokens_of (path_value (made_path weight link))) }
{
    out.begin_object()?;
    out.key("links")?;
    out.begin_array()?;
    write_numbered(alloc, out, "l", link)?;
    out.end_array()?;
    out.key("weight")?;
    out.u64(weight)?;
    out.end_object()
}
