//! The forms of the lines before the table.
ghost use Rattle.std.specs.Prelude.{◌≡◌, ◌&&◌, ◌==◌, codes, length, position};
ghost use Rattle.std.specs.Str.{bytes_eq};
ghost use Rattle.text_scan.specs.Words.{words_of};
ghost use Rattle.run_audit.specs.Words.{is_known as is_known_word};
ghost use Rattle.doc_names.specs.NameTexts.{entry_at, texts_of};
ghost use Rattle.run_audit.specs.Forms.{history_of as history_words, is_of_known as is_of_known_words, reader_of as reader_words, report_of as report_words, sent_of as sent_words, shown_of as shown_words};

use crate::words::{LineWords, is_known, split};
use bwe_specs::Target;
use doc_names::{NameList, Names};

/// What a report's line says beside the name of its task or link.
#[derive(Clone, Copy, Drop)]
pub struct ReportWords {
    pub place: u64,
    pub reporter: usize,
    pub amount: u64,
}

/// What a reader's line says.
#[derive(Clone, Copy, Drop)]
pub struct ReaderWords {
    pub number: u64,
    pub length: u64,
}

/// What a read showed.
#[derive(Clone, Copy, Drop)]
pub struct Shown {
    pub floor: u64,
    pub prefix: u64,
    pub total: u64,
}

/// The number in `history <number of reports>`.
#[tactic(auto, using(crate::proofs::WordFacts::no_history))]
pub(crate) fn history_in(line: &[u8]) -> Option<u64>
    ensures { result ≡ history_words (words_of line.now) }
{
    history_of(&split(line)?)
}

#[tactic(auto, unfolding(crate::specs::Forms::history_of))]
fn history_of(line: &LineWords<'_>) -> Option<u64>
    ensures { result ≡ history_words line.now }
{
    if line.count() == 2 && line.is_word(0, b"history") {
        return line.number_at(1);
    }
    None
}

/// What a report's line says, where its third word is the name of this reporter. The name that is
/// likely is tried before the others.
#[tactic(auto, unfolding(crate::specs::Forms::report_of))]
pub(crate) fn report_of(
    names: &Names,
    reporter: Option<usize>,
    likely: Option<Target>,
    line: &LineWords<'_>,
) -> Option<ReportWords>
    requires reporter { reporter
        ≡ position (bytes_eq (entry_at line.now 2)) names.now.reporters }
    ensures { result ≡ report_words (texts_of names.now) line.now }
{
    if line.count() == 5 && is_of_known(names, likely, line) {
        return Some(ReportWords {
            place: line.number_at(1)?,
            reporter: reporter?,
            amount: line.number_at(4)?,
        });
    }
    None
}

/// The number of the reporter that a report's line names.
pub(crate) fn reporter_of(names: &Names, line: &LineWords<'_>) -> Option<usize>
    ensures { result
        ≡ position (bytes_eq (entry_at line.now 2)) names.now.reporters }
{
    names.reporters.position(line.word(2))
}

// Whether the name goes with the first word of a report's line.
#[tactic(auto, unfolding(crate::specs::Forms::is_of_known))]
fn is_of_known(names: &Names, likely: Option<Target>, line: &LineWords<'_>) -> bool
    ensures { result ≡ is_of_known_words (texts_of names.now) line.now }
{
    let word = line.word(3);
    let (task, link) = likely_numbers(likely);
    (line.is_word(0, b"report") && is_likely_known(&names.tasks, task, word))
        || (line.is_word(0, b"capacity") && is_likely_known(&names.links, link, word))
}

fn likely_numbers(likely: Option<Target>) -> (Option<u32>, Option<u32>) {
    match likely {
        Some(Target::Task { number }) => (Some(number), None),
        Some(Target::Link { number }) => (None, Some(number)),
        None => (None, None),
    }
}

// Whether the word is one of the names. The likely one is tried first.
fn is_likely_known(names: &NameList, likely: Option<u32>, word: &[u8]) -> bool
    ensures { result ≡ is_known_word names.now word.now }
{
    if let Some(number) = likely {
        let number = number as usize;
        if number < names.len() && word == names.name(number).as_bytes() {
            return true;
        }
    }
    is_known(names, word)
}

/// The number in `reporter <reporter> sent <number>`.
#[tactic(auto, unfolding(crate::specs::Forms::sent_of))]
pub(crate) fn sent_of(names: &Names, line: &LineWords<'_>) -> Option<u64>
    ensures { result ≡ sent_words (texts_of names.now) line.now }
{
    if line.count() == 4
        && line.is_word(0, b"reporter")
        && line.is_word(2, b"sent")
        && is_known(&names.reporters, line.word(1))
    {
        return line.number_at(3);
    }
    None
}

/// The numbers in `reader <number> length <length>`.
#[tactic(auto, unfolding(crate::specs::Forms::reader_of))]
pub(crate) fn reader_of(line: &LineWords<'_>) -> Option<ReaderWords>
    ensures { result ≡ reader_words line.now }
{
    if line.count() == 4 && line.is_word(0, b"reader") && line.is_word(2, b"length") {
        return Some(ReaderWords {
            number: line.number_at(1)?,
            length: line.number_at(3)?,
        });
    }
    None
}

/// The numbers in `<kind> floor <floor> prefix <prefix> total <total>`.
#[tactic(auto, unfolding(crate::specs::Forms::shown_of))]
pub(crate) fn shown_of(kind: &[u8], line: &LineWords<'_>) -> Option<Shown>
    ensures { result ≡ shown_words kind.now line.now }
{
    if line.count() == 7
        && line.is_word(0, kind)
        && line.is_word(1, b"floor")
        && line.is_word(3, b"prefix")
        && line.is_word(5, b"total")
    {
        return Some(Shown {
            floor: line.number_at(2)?,
            prefix: line.number_at(4)?,
            total: line.number_at(6)?,
        });
    }
    None
}
