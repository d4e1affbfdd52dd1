//! Lines as their bytes come, each answered where it ends.

ghost use Rattle.std.specs.Prelude.{◌≡◌, ◌≢◌, ℕ, List, [], ◌∷◌, ◌++◌, Ok, Err, option_map, OnOk, IsErrOf};
ghost use Rattle.bwe_io.specs.Faults.{HasRisen};
ghost use Rattle.live_lines.specs.Cutting.{Held};
ghost use Rattle.live_stream.specs.Talk.{NeverFall};
ghost use Rattle.live_run.specs.Answers.{AnswersPart, AnswersPiece, Gives, GivesFirst, IsBehind};
ghost use Rattle.live_run.specs.Following.{AnswersFirst, Wherever};

use crate::{Follower, Stop};
use live_lines::LineCutter;
use live_stream::Stream;
use std::alloc::Global;

/// Writes the answer to one line.
pub(crate) fn answer_line<F: Follower, S: Stream>(
    alloc: Global,
    follower: &mut F,
    line: Option<&[u8]>,
    stream: &mut S,
) -> Result<(), Stop>
    ensures followed { OnOk result ((document : List ℕ) (lines : List Held)
        → F.has_followed follower.old document lines
        → F.has_followed follower.new document
        (lines ++ option_map (λ line. line.now) line.entry ∷ [])) }
    ensures given { OnOk result ((document : List ℕ) (lines : List Held)
        → F.has_followed follower.old document lines → Gives (S.talk stream.old) (S.talk stream.new)
        (F.follow.answer_of document lines (option_map (λ line. line.now) line.entry))) }
    ensures partly { IsErrOf result Stop.WriteFault → (document : List ℕ) (lines : List Held)
        → F.has_followed follower.old document lines
        → GivesFirst (S.talk stream.old) (S.talk stream.new)
        (F.follow.answer_of document lines (option_map (λ line. line.now) line.entry)) }
    ensures fault { IsErrOf result Stop.WriteFault
        → HasRisen (S.faults stream.old).writes (S.faults stream.new).writes }
    ensures nothing { IsErrOf result Stop.OutOfMemory → stream.new ≡ stream.old }
    ensures asks { result ≢ Err Stop.ReadFault }
    ensures counted { NeverFall (S.faults stream.old) (S.faults stream.new) }
{
    let text = follower.answer(alloc, line)?;
    match stream.write(&text) {
        Ok(()) => Ok(()),
        Err(_) => Err(Stop::WriteFault),
    }
}

/// Answers each line that the piece ends.
pub(crate) fn answer_piece<F: Follower, S: Stream>(
    alloc: Global,
    follower: &mut F,
    cutter: &mut LineCutter,
    piece: &[u8],
    stream: &mut S,
) -> Result<(), Stop>
    ensures behind { OnOk result (Wherever F.has_followed follower.old cutter.old
        (λ document behind.
        IsBehind F.has_followed document follower.new cutter.new (behind ++ piece.now))) }
    ensures given { OnOk result (Wherever F.has_followed follower.old cutter.old
        (λ document behind. AnswersPiece F.follow document (S.talk stream.old) (S.talk stream.new)
        behind (behind ++ piece.now))) }
    ensures partly { IsErrOf result Stop.WriteFault
        → Wherever F.has_followed follower.old cutter.old
        (λ document behind. AnswersPart F.follow document (S.talk stream.old) (S.talk stream.new)
        behind (behind ++ piece.now)) }
    ensures fault { IsErrOf result Stop.WriteFault
        → HasRisen (S.faults stream.old).writes (S.faults stream.new).writes }
    // Whole answers: those to the lines of the first bytes of the piece.
    ensures whole { IsErrOf result Stop.OutOfMemory
        → Wherever F.has_followed follower.old cutter.old
        (λ document behind. AnswersFirst F.follow document (S.talk stream.old) (S.talk stream.new)
        behind piece.now) }
    ensures asks { result ≢ Err Stop.ReadFault }
    ensures counted { NeverFall (S.faults stream.old) (S.faults stream.new) }
{
    for byte in piece {
        match answer_byte(alloc, follower, cutter, *byte, stream) {
            Ok(()) => {}
            Err(stop) => return Err(stop),
        }
    }
    Ok(())
}

// Takes one byte, and answers the line that it ends.
fn answer_byte<F: Follower, S: Stream>(
    alloc: Global,
    follower: &mut F,
    cutter: &mut LineCutter,
    byte: u8,
    stream: &mut S,
) -> Result<(), Stop>
    ensures behind { OnOk result (Wherever F.has_followed follower.old cutter.old
        (λ document behind.
        IsBehind F.has_followed document follower.new cutter.new (behind ++ byte ∷ []))) }
    ensures given { OnOk result (Wherever F.has_followed follower.old cutter.old
        (λ document behind. AnswersPiece F.follow document (S.talk stream.old) (S.talk stream.new)
        behind (behind ++ byte ∷ []))) }
    ensures partly { IsErrOf result Stop.WriteFault
        → Wherever F.has_followed follower.old cutter.old
        (λ document behind. AnswersPart F.follow document (S.talk stream.old) (S.talk stream.new)
        behind (behind ++ byte ∷ [])) }
    ensures fault { IsErrOf result Stop.WriteFault
        → HasRisen (S.faults stream.old).writes (S.faults stream.new).writes }
    ensures nothing { IsErrOf result Stop.OutOfMemory → stream.new ≡ stream.old }
    ensures asks { result ≢ Err Stop.ReadFault }
    ensures counted { NeverFall (S.faults stream.old) (S.faults stream.new) }
{
    if byte != b'\n' {
        cutter.push(byte);
        return Ok(());
    }
    match answer_line(alloc, follower, cutter.text(), stream) {
        Ok(()) => {
            cutter.clear();
            Ok(())
        }
        Err(stop) => Err(stop),
    }
}
