//! The session of a document, as what the service follows.

ghost use Rattle.std.specs.Prelude.{◌≡◌, length};
ghost use Rattle.live_run.specs.Endings.{IsServed};
ghost use Rattle.bwe_live.specs.Live.{live};

use bwe_specs::OutOfMemory;
use live_run::{Follower, OpenedFollower, serve};
use live_session::LiveSession;
use live_stream::Stream;
use one_run::document_is_too_long;
use std::alloc::Global;
use std::marker::Model;

/// A session of `live_session`, which contracts see as that session.
#[derive(Drop)]
pub struct Following {
    session: LiveSession,
}

impl Model for Following {
    ghost use Rattle.live_session.specs.Following.{Session};

    ghost Value = { Session };

    ghost view = { λ following. following.session };
}

impl Follower for Following {
    ghost use Rattle.live_session.specs.Following.{HasFollowed};

    ghost follow = { live };

    ghost has_followed = { HasFollowed };

    fn is_too_long(alloc: Global, document: &[u8]) -> Result<bool, OutOfMemory> {
        document_is_too_long(alloc, document)
    }

    fn open(alloc: Global, document: &[u8]) -> Result<OpenedFollower<Following>, OutOfMemory> {
        let opened = LiveSession::open(alloc, document)?;
        Ok(OpenedFollower {
            text: opened.text,
            follower: match opened.session {
                Some(session) => Some(Following { session }),
                None => None,
            },
        })
    }

    fn answer(&mut self, alloc: Global, line: Option<&[u8]>) -> Result<Vec<u8>, OutOfMemory> {
        self.session.answer(alloc, line)
    }
}

/// Serves one conversation over the stream, and answers the exit status ("`bwe-live`",
/// docs/FORMAT.md).
pub fn bwe_live<S: Stream>(alloc: Global, words: &[String], stream: &mut S) -> u8
    // The stream went from here to there as a conversation that was live all the way and ended as
    // this exit status allows; what is written is what `live` says of the bytes read.
    ensures { IsServed live (length words.now) (S.talk stream.old) (S.talk stream.new)
        (S.faults stream.old) (S.faults stream.new) result }
{
    serve::<Following, S>(alloc, words, stream)
}
