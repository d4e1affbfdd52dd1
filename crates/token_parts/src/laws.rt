//! The law, the contract of a function that does nothing.

ghost use Rattle.token_parts.specs.Laws.{CutAtAComma};

/// Cut at a comma: where a part in front ends in a closing brace and has no bad token, and the text
/// behind the comma begins with an opening brace, the tokens of the whole are those of the part in
/// front and then those of the text behind.
pub fn cut_at_a_comma()
    ensures { CutAtAComma }
{}
