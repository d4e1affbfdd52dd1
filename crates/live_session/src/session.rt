//! A session: an accepted document that is followed through the input lines behind it.

ghost use Rattle.std.specs.Prelude.{◌≡◌, ◌++◌, ◌∷◌, [], ℕ, List, true, false, option_map, IfOk, IfSome, IsNone, OnOk};
ghost use Rattle.doc_parts.specs.Document.{Accepted};
ghost use Rattle.plan_doc.specs.Accepted.{IsDocumentOf};
ghost use Rattle.plan_doc.specs.Conditions.{IsUsable};
ghost use Rattle.live_lines.specs.Cutting.{Held};
ghost use Rattle.live_session.specs.Answers.{accepts, answer_of, first_text, table_text_of};
ghost use Rattle.live_session.specs.Following.{HasFollowed, IsSession};

use crate::answer::answer_meaning;
use bwe_specs::OutOfMemory;
use document_reader::read_document;
use live_core::LiveCore;
use live_lines::Known;
use opened_document::{OpenedDocument, open};
use plan_doc::Document;
use refusal_text::refusal_line;
use std::alloc::Global;
use std::marker::Model;
use table_text::table_text;

/// What is written first; and the session, where the document is accepted.
#[derive(Drop)]
pub struct OpenedSession {
    pub text: Vec<u8>,
    pub session: Option<LiveSession>,
}

/// An accepted document, and of the input lines behind it what stands (the last report of each task
/// and link) and the table that was written last.
///
/// How much memory it takes depends on the document alone, however many lines come.
#[derive(Drop)]
pub struct LiveSession {
    core: LiveCore,
    known: Known,
    lines: u64,
}

impl Model for LiveSession {
    ghost use Rattle.live_session.specs.Following.{Session, HasOwners};

    ghost Value = { Session };

    ghost view = { λ session.
        record { core = session.core; known = session.known; lines = session.lines } };

    ghost invariant = { λ session. HasOwners session.known session.core };
}

impl LiveSession {
    /// Reads a document: the table text and a session, or the line of its refusal.
    pub fn open(alloc: Global, document: &[u8]) -> Result<OpenedSession, OutOfMemory>
        ensures text { IfOk result (λ opened. opened.text.items ≡ first_text document.now) }
        ensures refused { IfOk result
            (λ opened. IsNone opened.session → accepts document.now ≡ false) }
        ensures accepted { IfOk result (λ opened. IfSome opened.session (λ session.
            (accepts document.now ≡ true) × HasFollowed session document.now [])) }
    {
        match read_document(alloc, document) {
            Ok(document) => {
                let session = LiveSession::start(alloc, document)?;
                let text = session.table_text(alloc)?;
                Ok(OpenedSession {
                    text,
                    session: Some(session),
                })
            }
            Err(error) => Ok(OpenedSession {
                text: refusal_line(alloc, &error)?,
                session: None,
            }),
        }
    }

    /// The answer to an input line, given without its line feed. `None` stands for a line that is
    /// refused whatever it says: it is too long, or the input ends in it.
    ///
    /// Lines and accepted reports are counted in 64 bits. Once either count is at its greatest
    /// number, the answer is that memory ran out.
    pub fn answer(&mut self, alloc: Global, line: Option<&[u8]>) -> Result<Vec<u8>, OutOfMemory>
        ensures text { IfOk result
            (λ text. (document : List ℕ) (lines : List Held) → HasFollowed self.old document lines
            → text.items ≡ answer_of document lines (option_map (λ line. line.now) line.entry)) }
        ensures followed { OnOk result
            ((document : List ℕ) (lines : List Held) → HasFollowed self.old document lines
            → HasFollowed self.new document
            (lines ++ option_map (λ line. line.now) line.entry ∷ [])) }
    {
        if self.lines == u64::MAX || self.core.reports() == u64::MAX {
            return Err(OutOfMemory);
        }
        let number = self.lines + 1;
        let meaning = self.known.meaning(line);
        let text = answer_meaning(alloc, &mut self.core, &self.known, number, meaning)?;
        self.lines = number;
        Ok(text)
    }

    // The session before its first line.
    fn start(alloc: Global, document: Document) -> Result<LiveSession, OutOfMemory>
        requires { IsUsable document }
        ensures { IfOk result
            (λ session. (accepted : Accepted) → IsDocumentOf accepted document
            → IsSession session accepted []) }
    {
        let OpenedDocument {
            allocator,
            script,
            names,
            task_owners,
            link_owners,
            ..
        } = open(document);
        let known = Known::new(alloc, names, task_owners, link_owners)?;
        let core = LiveCore::start(alloc, allocator, &script)?;
        Ok(LiveSession {
            core,
            known,
            lines: 0,
        })
    }

    // The table text that is written first.
    fn table_text(&self, alloc: Global) -> Result<Vec<u8>, OutOfMemory>
        ensures { IfOk result
            (λ text. (accepted : Accepted) → IsSession self.now accepted []
            → text.items ≡ table_text_of accepted) }
    {
        let text = table_text(alloc, self.core.table(), self.known.names())?;
        Ok(text)
    }
}
