//! What is asked of a number.

/// What is asked of a number: the number itself, or another that it is at most, or at least.
#[derive(Clone, Copy)]
pub enum Asked {
    Exactly,
    AtMost,
    AtLeast,
}
