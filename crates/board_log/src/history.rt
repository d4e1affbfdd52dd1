//! The log as it was reached: the whole of it, and its beginnings.
ghost use Rattle.std.specs.Prelude.{◌≡◌, ◌<◌, ◌≤◌, ◌++◌, [], length, take, IfErr, OnOk, OnErr};
ghost use Rattle.std.specs.Bool.{OnTrue, OnFalse};
ghost use mathlib.Core.List.{IsPrefix};
ghost use Rattle.logbook.specs.Pages.{may_write};
ghost use Rattle.board_log.specs.History.{word_of};

use crate::bases::Bases;
use bwe_specs::Report;
use logbook::{Gain, Offer, Pen, Plain, Play, Rule, Seen, Start, Word};
use std::collections::LinkedList;
use std::marker::{Model, PhantomData};

// A piece of reports that came in together, with the key of the pen that was given for it, and of
// the pen that may add the next piece. No value of it is made.
struct Entry {
    given: u64,
    next: u64,
    piece: LinkedList<Report>,
}

// The rule of the history: each pen that an entry was added by was given, so no pen adds two.
struct GivenPens;

impl Rule<Entry, u64> for GivenPens {
    ghost use Rattle.std.specs.Prelude.{[]};
    ghost use base.Fml.{ftrue};
    ghost use Rattle.board_log.specs.History.{AreGiven};

    ghost holds = { AreGiven };

    ghost first = { [] };

    ghost hinted = { λ word entries. Unit {0} };

    ghost shows = { λ entries. [] };

    ghost keeps = { λ names entries. ftrue };

    ghost moves = { λ ask before after answer. Unit {0} };
}

// Callers trade nothing for a step.
struct Nothing;

impl Gain<Entry, u64> for Nothing {
    ghost use base.Fml.{ftrue};

    ghost after = { λ names about answer. ftrue };
}

// A step that gives a pen.
struct GivePen;

impl Play<Entry, u64> for GivePen {
    ghost use Rattle.board_log.specs.History.{GivesPen};

    ghost then = { GivesPen };
}

impl Plain<(), Entry, u64> for GivePen {
    ghost use Rattle.std.specs.Prelude.{None, []};

    ghost ask = { λ _. record { given = 0; next = 0; piece = [] } };

    ghost state = { λ _. None };
}

// A step that adds a piece.
struct AddPiece;

impl Play<Entry, u64> for AddPiece {
    ghost use Rattle.board_log.specs.History.{AddsPiece};

    ghost then = { AddsPiece };
}

impl<'a> Plain<(&'a Vec<Report>, &'a Pen), Entry, u64> for AddPiece {
    ghost use Rattle.std.specs.Prelude.{None};

    ghost ask = { λ about. record {
      given = 0;
      next = about.1.now.nib.key;
      piece = about.0.now.items;
    } };

    ghost state = { λ _. None };
}

// The piece that marks the end: an empty one. No pen adds another.
struct MarkEnd;

impl Plain<(), Entry, u64> for MarkEnd {
    ghost use Rattle.std.specs.Prelude.{None, []};

    ghost ask = { λ _. record { given = 0; next = 0; piece = [] } };

    ghost state = { λ _. None };
}

/// A log that was just opened, which has no name yet. It is empty. Contracts see which history it
/// is.
#[derive(Drop)]
pub struct OpenedLog {
    word: Word<Entry, u64, GivenPens>,
    pen: Pen,
    second: Pen,
    seen: Seen<Entry, u64, GivenPens>,
}

impl Model for OpenedLog {
    ghost use Rattle.board_log.specs.History.{HistoryId, IsOpened};

    ghost Value = { HistoryId };

    ghost view = { λ opened. record { book = opened.seen.book; key = opened.pen.nib.key } };

    ghost invariant = { λ opened. IsOpened opened.word opened.pen opened.second opened.seen.book
        opened.seen.log };
}

impl OpenedLog {
    /// Opens a log.
    pub fn new() -> OpenedLog {
        let (seen, mut first, second) = Seen::open(Start::alone(), 0, 0);
        let word = Word::tracked(0, &mut first);
        let pen = new_pen(&word, &seen);
        OpenedLog {
            word,
            pen,
            second,
            seen,
        }
    }

    /// The log under a name, with the one right to open a desk under that name.
    pub fn named<B: Bases>(self) -> (WholeLog<B>, DeskRight<B>)
        requires name { self ≡ B.book }
        ensures log { result.0 ≡ [] }
    {
        let OpenedLog {
            word,
            pen,
            second,
            seen,
        } = self;
        let whole = WholeLog {
            word,
            pen,
            has_ended: false,
            seen,
            of: PhantomData,
        };
        let right = DeskRight {
            pen: second,
            of: PhantomData,
        };
        (whole, right)
    }
}

// A pen that has made its word, which the book does not hold.
fn new_pen(word: &Word<Entry, u64, GivenPens>, seen: &Seen<Entry, u64, GivenPens>) -> Pen
    requires word { word.now ≡ word_of seen.now.book }
    ensures book { result.book ≡ seen.now.book }
    ensures right { result.nib.right ≡ may_write }
{
    let mut reached = seen.again();
    let mut offer: Offer<Entry, u64, GivenPens, Nothing> = reached.plain::<Nothing, (), GivePen>(
        &(),
    );
    let mut pen = reached.no_pen();
    word.compare_exchange::<GivePen, Nothing>(0, 0, &mut reached, &mut offer, &mut pen);
    let _made: Word<Entry, u64, GivenPens> = Word::tracked(0, &mut pen);
    pen
}

/// The right to open the desk of a log, where its tables are posted. It has no bytes.
///
/// `OpenedLog::named` alone gives one, of a log that it names, and it cannot be copied. So under
/// one name there is one desk.
#[derive(Drop)]
pub struct DeskRight<B: Bases> {
    pen: Pen,
    of: PhantomData<B>,
    ghost named: { pen.book ≡ B.book.book },
}

/// The whole log, to which reports are added. Contracts see it as its reports.
///
/// It has the pen that alone may add the next piece, so the log never goes on without it.
#[derive(Drop)]
pub struct WholeLog<B: Bases> {
    word: Word<Entry, u64, GivenPens>,
    pen: Pen,
    has_ended: bool,
    seen: Seen<Entry, u64, GivenPens>,
    of: PhantomData<B>,
}

impl<B: Bases> Model for WholeLog<B> {
    ghost use Rattle.std.specs.Prelude.{List};
    ghost use Rattle.bwe_specs.specs.declared.report.Report.{Report};
    ghost use Rattle.board_log.specs.History.{log_of, pieces_from, IsHeld};

    ghost Value = { List Report };

    ghost view = { λ whole. log_of (pieces_from B.book.key whole.seen.log) };

    ghost invariant = { λ whole. IsHeld B.book whole.word whole.pen whole.has_ended
        whole.seen.book whole.seen.log };
}

/// The first reports of a log that was reached. Contracts see it as those reports.
///
/// It has no bytes but their number, so a copy costs nothing.
#[derive(Drop)]
pub struct Beginning<B: Bases> {
    len: u64,
    seen: Seen<Entry, u64, GivenPens>,
    of: PhantomData<B>,
}

impl<B: Bases> Model for Beginning<B> {
    ghost use Rattle.std.specs.Prelude.{List, take};
    ghost use Rattle.bwe_specs.specs.declared.report.Report.{Report};
    ghost use Rattle.board_log.specs.History.{log_of, pieces_from, IsReached};

    ghost Value = { List Report };

    ghost view = { λ beginning. take beginning.len
        (log_of (pieces_from B.book.key beginning.seen.log)) };

    ghost invariant = { λ beginning. IsReached B.book beginning.len beginning.seen.book
        beginning.seen.log };
}

/// A log that has ended: nothing is ever added to it. Contracts see it as its reports.
#[derive(Drop)]
pub struct EndedLog<B: Bases> {
    seen: Seen<Entry, u64, GivenPens>,
    of: PhantomData<B>,
}

impl<B: Bases> Model for EndedLog<B> {
    ghost use Rattle.std.specs.Prelude.{List};
    ghost use Rattle.bwe_specs.specs.declared.report.Report.{Report};
    ghost use Rattle.board_log.specs.History.{log_of, pieces_from, IsEndOf};

    ghost Value = { List Report };

    ghost view = { λ ended. log_of (pieces_from B.book.key ended.seen.log) };

    ghost invariant = { λ ended. IsEndOf B.book ended.seen.book ended.seen.log };
}

impl<B: Bases> WholeLog<B> {
    /// Adds a piece at the end.
    ///
    /// Only a log that has ended is refused, and then it gives that log, which nobody can make up.
    pub fn append(&mut self, piece: &Vec<Report>) -> Result<(), EndedLog<B>>
        requires some { 0 < length piece.now.items }
        ensures added { OnOk result (self.new ≡ self.old ++ piece.now.items) }
        ensures refused { OnErr result (self.new ≡ self.old) }
        ensures ended { IfErr result (λ ended. ended ≡ self.old) }
    {
        if self.has_ended {
            return Err(EndedLog {
                seen: self.seen.again(),
                of: PhantomData,
            });
        }
        let next = new_pen(&self.word, &self.seen);
        let mut reached = self.seen.again();
        let mut offer: Offer<Entry, u64, GivenPens, Nothing> = reached.plain::<
            Nothing,
            (&Vec<Report>, &Pen),
            AddPiece,
        >(&(piece, &next));
        self.word
            .compare_exchange::<AddPiece, Nothing>(0, 0, &mut reached, &mut offer, &mut self.pen);
        self.seen = reached;
        self.pen = next;
        Ok(())
    }

    /// Ends the log: nothing is ever added to it, and whatever was seen of the log is a beginning
    /// of what this gives.
    ///
    /// It can be called again.
    pub fn end(&mut self) -> EndedLog<B>
        ensures log { self.new ≡ self.old }
        ensures ended { result ≡ self.old }
    {
        let mut reached = self.seen.again();
        if self.has_ended {
            return EndedLog {
                seen: reached,
                of: PhantomData,
            };
        }
        let mut offer: Offer<Entry, u64, GivenPens, Nothing> = reached.plain::<
            Nothing,
            (),
            MarkEnd,
        >(&());
        self.word
            .compare_exchange::<AddPiece, Nothing>(0, 0, &mut reached, &mut offer, &mut self.pen);
        let ended = reached.again();
        self.seen = reached;
        self.has_ended = true;
        EndedLog {
            seen: ended,
            of: PhantomData,
        }
    }

    /// The first `len` reports.
    pub fn first(&self, len: u64) -> Beginning<B>
        requires within { len ≤ length self.now }
        ensures reports { result ≡ take len self.now }
    {
        Beginning {
            len,
            seen: self.seen.again(),
            of: PhantomData,
        }
    }
}

impl<B: Bases> Beginning<B> {
    /// How many reports these are.
    pub fn len(&self) -> u64
        ensures length { result ≡ length self.now }
    {
        self.len
    }

    /// A copy.
    pub fn copy(&self) -> Beginning<B>
        ensures same { result ≡ self.now }
    {
        Beginning {
            len: self.len,
            seen: self.seen.again(),
            of: PhantomData,
        }
    }

    /// The first `len` of these reports.
    pub fn first(&self, len: u64) -> Beginning<B>
        requires within { len ≤ length self.now }
        ensures reports { result ≡ take len self.now }
    {
        Beginning {
            len,
            seen: self.seen.again(),
            of: PhantomData,
        }
    }

    /// Whether the other begins with it. If not, it is longer and begins with the other.
    pub fn begins(&self, other: &Beginning<B>) -> bool
        ensures begins { OnTrue result (IsPrefix self.now other.now) }
        ensures begun { OnFalse result (IsPrefix other.now self.now) }
        ensures longer { OnFalse result (length other.now < length self.now) }
    {
        let mut both = self.seen.again();
        both.learn(&other.seen);
        self.len <= other.len
    }
}

impl<B: Bases> EndedLog<B> {
    /// Shows that what was seen of the log, whenever that was, is a beginning of it.
    pub fn holds(&self, beginning: &Beginning<B>)
        ensures within { IsPrefix beginning.now self.now }
    {
        let mut both = self.seen.again();
        both.learn(&beginning.seen);
    }
}
