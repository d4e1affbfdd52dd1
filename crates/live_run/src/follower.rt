//! What a service follows.

ghost use Rattle.std.specs.Prelude.{◌≡◌, ℕ, List, [], ◌∷◌, ◌++◌, true, false, option_map, IsNone, IfSome, IfOk, OnOk};
ghost use Rattle.live_lines.specs.Cutting.{Held};
ghost use Rattle.live_run.specs.Follow.{Follow};

use bwe_specs::OutOfMemory;
use std::alloc::Global;

/// What is written first for a document, and its follower where it is accepted.
#[derive(Drop)]
pub struct OpenedFollower<F> {
    pub text: Vec<u8>,
    pub follower: Option<F>,
}

/// A document, and what is written for the lines behind it, one after the other.
pub trait Follower: Drop + Sized {
    /// What is written: the first text, and an answer to each line.
    ghost follow: { Follow };

    /// It follows this document, and has answered these lines in their order.
    ghost has_followed: { Self → List ℕ → List Held → Type 0 };

    /// Whether a document has more bytes than it may.
    fn is_too_long(alloc: Global, document: &[u8]) -> Result<bool, OutOfMemory>
        ensures { IfOk result (λ is. is ≡ follow.is_too_long document.now) };

    /// The follower of a document's bytes, with the text that is due first.
    fn open(alloc: Global, document: &[u8]) -> Result<OpenedFollower<Self>, OutOfMemory>
        ensures text { IfOk result (λ opened. opened.text.items ≡ follow.first_text document.now) }
        ensures refused { IfOk result (λ opened. IsNone opened.follower
            → follow.accepts document.now ≡ false) }
        ensures accepted { IfOk result (λ opened. IfSome opened.follower (λ follower.
            (follow.accepts document.now ≡ true) × has_followed follower document.now [])) };

    /// The answer to the next line, made whole; `None` stands for a line that is too long or has
    /// not ended.
    ///
    /// After an `Err` nothing is said of the follower: memory runs out, or a number of 64 bits is
    /// used up.
    fn answer(&mut self, alloc: Global, line: Option<&[u8]>) -> Result<Vec<u8>, OutOfMemory>
        ensures text { IfOk result (λ text. (document : List ℕ) (lines : List Held)
            → has_followed self.old document lines
            → text.items
            ≡ follow.answer_of document lines (option_map (λ line. line.now) line.entry)) }
        ensures followed { OnOk result ((document : List ℕ) (lines : List Held)
            → has_followed self.old document lines
            → has_followed self.new document
            (lines ++ option_map (λ line. line.now) line.entry ∷ [])) };
}
