//! Lines of groups, copied and compared.

ghost use Rattle.std.specs.Prelude.{◌≡◌, ◌↔◌, IsTrue, IfOk};

use bwe_specs::OutOfMemory;
use limit_table::GroupLine;
use std::alloc::Global;

/// An equal line.
pub(crate) fn copy_line(alloc: Global, line: &GroupLine) -> Result<GroupLine, OutOfMemory>
    ensures { IfOk result (λ copy. copy ≡ line.now) }
{
    Ok(GroupLine {
        share: line.share,
        amount: line.amount,
        places: Vec::from_slice(alloc, &line.places)?,
    })
}

/// Whether the two lines are equal.
pub fn is_equal_line(line: &GroupLine, other: &GroupLine) -> bool
    ensures { IsTrue result ↔ (line.now ≡ other.now) }
{
    if line.share != other.share || line.amount != other.amount {
        return false;
    }
    line.places.as_slice() == other.places.as_slice()
}

/// Equal lines.
pub(crate) fn copy_lines(alloc: Global, lines: &[GroupLine]) -> Result<Vec<GroupLine>, OutOfMemory>
    ensures { IfOk result (λ copies. copies.items ≡ lines.now) }
{
    let mut copies = Vec::with_capacity(alloc, lines.len())?;
    for line in lines {
        copies.push(copy_line(alloc, line)?)?;
    }
    Ok(copies)
}
