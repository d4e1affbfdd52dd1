//! The laws of lines, each the contract of a function that does nothing.

ghost use Rattle.std.specs.Prelude.{◌≡◌};
ghost use Rattle.live_lines.specs.Laws.{PiecesDoNotMatter, LinesAreOfTheText};

use bwe_specs::MAX_LINE;

/// The lines of bytes are the same in whatever pieces the bytes come.
pub fn pieces_do_not_matter()
    ensures { PiecesDoNotMatter }
{}

/// The lines are those of the whole text, `None` for each that is too long.
pub fn lines_are_of_the_text()
    ensures { LinesAreOfTheText }
{}

/// The longest line that docs/FORMAT.md states is that of the code.
pub fn a_line_has_at_most_255_bytes()
    ensures { MAX_LINE ≡ 255 }
{}
