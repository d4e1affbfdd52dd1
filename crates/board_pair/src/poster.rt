//! The writer of the published value, in a type that stands in a field.
ghost use Rattle.std.specs.Prelude.{◌≡◌, ◌^◌, ◌<◌, ◌≤◌, ◌++◌, ◌∷◌, ◌↔◌, [], length, drop, fold, MatchResult, IsTrue, IfOk, OnOk, OnErr};
ghost use Rattle.left_right.specs.Sides.{view};

use crate::pair::{News, Pair};
use crate::visits::{Publishes, Visited, Visits};
use board_log::{Bases, DeskRight};
use bwe_specs::OutOfMemory;
use core::mem::replace_with;
use left_right::Absorb;
use left_right::reader::Reader;
use left_right::writer::Writer;
use std::alloc::{AllocError, Global};
use std::marker::Model;
use std::mem::ManuallyDrop;
use std::sync::Wait;

/// Where a board's tables are posted.
pub type Desk<T, N, B> = Poster<Pair<T, N, B>, News<T, N, B>, B>;

/// The writer of two published copies. Contracts see the value that readers take, and what waits to
/// be published.
///
/// It keeps the one right to open a desk under the name `B`, so under that name there is no other.
/// End it by `take`, which waits for the readers. Its drop leaves the memory, since to free it it
/// would have to wait.
pub struct Poster<P: Absorb<O> + Drop, O: Drop, B: Bases> {
    writer: Writer<P, O, Visits, Visited>,
    right: DeskRight<B>,
}

impl<P: Absorb<O> + Drop, O: Drop, B: Bases> Model for Poster<P, O, B> {
    ghost use Rattle.std.specs.Prelude.{drop};
    ghost use Rattle.board_pair.specs.Desk.{Desk};

    ghost Value = { Desk P O };

    ghost view = { λ poster. record {
      shown = poster.writer.desk.shown.value;
      waiting = drop
          poster.writer.behind poster.writer.log.items;
    } };
}

impl<P: Absorb<O> + Drop, O: Drop, B: Bases> Poster<P, O, B> {
    /// Two copies of one value, and places for so many readers.
    pub fn new(
        alloc: Global,
        first: P,
        second: P,
        readers: usize,
        right: DeskRight<B>,
    ) -> Result<Poster<P, O, B>, OutOfMemory>
        requires readers { (0 < readers) × (readers < 2 ^ 32) }
        requires alike { P.state first ≡ P.state second }
        ensures shown { IfOk result (λ poster. poster.shown ≡ first) }
        ensures waiting { IfOk result (λ poster. poster.waiting ≡ []) }
    {
        Ok(Poster {
            writer: Writer::new(alloc, first, second, readers)?,
            right,
        })
    }

    // A reader's place, refused where all are taken.
    pub(crate) fn reader(&self) -> Result<Reader<P, Visits, Visited>, OutOfMemory>
        ensures visits { IfOk result (λ reader. view reader.place ≡ record { count = 0; covers = 0 }) }
    {
        let writer = &self.writer;
        let reader = writer.factory().reader()?;
        Ok(reader)
    }

    /// The published value.
    pub fn shown(&self) -> &P
        ensures shown { result.now ≡ self.now.shown }
    {
        let writer = &self.writer;
        writer.published()
    }

    /// Lets an operation wait for the next publish.
    pub fn append(&mut self, news: O) -> Result<(), O>
        ensures shown { self.new.shown ≡ self.old.shown }
        ensures ok { OnOk result (self.new.waiting ≡ self.old.waiting ++ news ∷ []) }
        ensures refused { OnErr result (self.new.waiting ≡ self.old.waiting) }
    {
        let writer = &mut self.writer;
        writer.append(news)
    }

    /// Publishes what waits. It may wait for readers to leave.
    pub fn publish<R: Wait>(&mut self, rt: &R) -> Result<(), OutOfMemory>
        ensures shown { OnOk result (P.state self.new.shown ≡ fold P.applied
            (P.state self.old.shown) self.old.waiting) }
        ensures waiting { OnOk result (self.new.waiting ≡ []) }
        ensures refused { OnErr result (self.new ≡ self.old) }
    {
        replace_with(&mut self.writer, rt, |writer, rt| { published(writer, rt) })?;
        Ok(())
    }

    /// Ends the writer. It waits for readers to leave.
    pub fn take<R: Wait>(self, rt: &R) {
        let Poster { writer, right } = self;
        drop(right);
        drop(writer.take(rt));
    }
}

impl<P: Absorb<O> + Drop, O: Drop, B: Bases> Drop for Poster<P, O, B> {
    fn drop(self) {
        let Self { writer, right } = self;
        drop(right);
        let _left = unsafe { ManuallyDrop::new_unchecked(writer) };
    }
}

// Publishes what waits.
fn published<P: Absorb<O> + Drop, O: Drop, R: Wait>(
    writer: Writer<P, O, Visits, Visited>,
    rt: &R,
) -> (Writer<P, O, Visits, Visited>, Result<(), AllocError>)
    ensures values { MatchResult result.1
        (λ _. (P.state result.0.desk.shown.value ≡ fold P.applied
        (P.state writer.desk.shown.value) (drop writer.behind writer.log.items))
        × (drop result.0.behind result.0.log.items ≡ []))
        (λ _. (result.0.desk.shown.value ≡ writer.desk.shown.value)
        × (drop result.0.behind result.0.log.items ≡ drop writer.behind writer.log.items)) }
{
    writer.publish_as::<Publishes, R>(rt)
}
