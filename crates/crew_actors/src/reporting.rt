//! What a reporter does.
ghost use Rattle.std.specs.Prelude.{◌≡◌, ◌≤◌, ◌<◌, ◌++◌, ◌∷◌, [], None, Some, length, drop, IfOk, IfErr, OnOk, OnErr};
ghost use Rattle.std.specs.List.{All};
ghost use Rattle.board_log.specs.Laws.{StandIn, without_places};
ghost use Rattle.board_log.specs.Roll.{IsBy};
ghost use Rattle.board_core.specs.Core.{IsAllowed};
ghost use Rattle.bwe_specs.specs.Fit.{IsFit};
ghost use Rattle.board.specs.Refusals.{IsRefusalAt};
ghost use Rattle.crew_actors.specs.Reporters.{IsCutShort};

use board::{Bases, Board, Left, Profile, ReportError, ReporterPass};
use bwe_specs::{OutOfMemory, Report};
use crew_readers::{Actor, Gate};
use demand_book::Maker;
use std::alloc::Global;
use std::sync::Wait;

// Reports one entry of a script, and answers its place.
fn report_one<M: Maker, N: Profile<M::Table>, B: Bases, G: Gate, R: Wait>(
    rt: &R,
    alloc: Global,
    board: &Board<M, N, B>,
    gate: &G,
    call: u64,
    report: Report,
    pass: &mut ReporterPass<B>,
) -> Result<u64, ReportError>
    requires by { report.reporter ≡ pass.old.number }
    requires allowed { IsAllowed N.reporters (IsFit N.tasks N.links) report }
    ensures number { pass.new.number ≡ pass.old.number }
    ensures own { OnOk result (without_places pass.new.own ≡ without_places pass.old.own ++ report
        ∷ []) }
    ensures kept { OnErr result (pass.new.own ≡ pass.old.own) }
    ensures refused { IfErr result (IsRefusalAt pass.new.seen 1) }
    // The gate was told of the call, and of the place where the report then stands.
    ensures begun { G.begins (Actor.Reporter pass.old.number) call }
    ensures answered { IfOk result (λ first. (drop first pass.new.seen ≡ report ∷ [])
        × G.answers (Actor.Reporter pass.old.number) call (Some first)) }
    ensures unanswered { OnErr result (G.answers (Actor.Reporter pass.old.number) call None) }
{
    let actor = Actor::Reporter {
        number: pass.number(),
    };
    gate.before(actor, call);
    match board.report(rt, alloc, pass, &[report]) {
        Ok(first) => {
            gate.after(actor, call, Some(first));
            Ok(first)
        }
        Err(error) => {
            gate.after(actor, call, None);
            Err(error)
        }
    }
}

// Reports each entry of a script, one after another.
fn report_script<M: Maker, N: Profile<M::Table>, B: Bases, G: Gate, R: Wait>(
    rt: &R,
    alloc: Global,
    board: &Board<M, N, B>,
    gate: &G,
    script: &[Report],
    pass: &mut ReporterPass<B>,
) -> Result<(), ReportError>
    requires by { All (IsBy pass.old.number) script.now }
    requires allowed { All (IsAllowed N.reporters (IsFit N.tasks N.links)) script.now }
    requires fresh { pass.old.own ≡ [] }
    ensures number { pass.new.number ≡ pass.old.number }
    ensures own { OnOk result (without_places pass.new.own ≡ script.now) }
    ensures sent { length pass.new.own ≤ length script.now }
    ensures refused { IfErr result (IsCutShort script.now pass.new) }
{
    for (call, report) in script.iter().enumerate() {
        report_one(rt, alloc, board, gate, call as u64, *report, pass)?;
    }
    Ok(())
}

// Settles, and leaves the acknowledgement for the readers, where no later one was left.
fn settle_and_leave<M: Maker, N: Profile<M::Table>, B: Bases, R: Wait>(
    rt: &R,
    alloc: Global,
    board: &Board<M, N, B>,
    pass: &mut ReporterPass<B>,
) -> Result<Left<B>, OutOfMemory>
    ensures pass { pass.new ≡ pass.old }
    ensures own { IfOk result (λ left. StandIn left pass.old.own) }
{
    let ack = board.settle(rt, alloc, pass)?;
    let newest = board.newest();
    Ok(newest.lock(rt).leave(ack))
}

/// Reports each entry of a script by a call of its own, and settles. The acknowledgement is left
/// for the readers before the settle is answered, and each of the script's reports stands in it.
///
/// A call that is refused ends it.
pub fn report_and_settle<M: Maker, N: Profile<M::Table>, B: Bases, G: Gate, R: Wait>(
    rt: &R,
    alloc: Global,
    board: &Board<M, N, B>,
    gate: &G,
    script: &[Report],
    pass: &mut ReporterPass<B>,
) -> Result<Left<B>, ReportError>
    requires by { All (IsBy pass.old.number) script.now }
    requires allowed { All (IsAllowed N.reporters (IsFit N.tasks N.links)) script.now }
    requires fresh { pass.old.own ≡ [] }
    ensures number { pass.new.number ≡ pass.old.number }
    ensures own { OnOk result (without_places pass.new.own ≡ script.now) }
    ensures sent { length pass.new.own ≤ length script.now }
    ensures refused { IfErr result (IsCutShort script.now pass.new) }
    // What it left holds each of its reports, and the gate was told how many reports that holds.
    ensures left { IfOk result (λ left. StandIn left pass.new.own) }
    ensures begun { OnOk result (G.begins (Actor.Reporter pass.old.number) (length script.now)) }
    ensures answered { IfOk result (λ left. G.answers (Actor.Reporter pass.old.number)
        (length script.now) (Some (length left))) }
{
    report_script(rt, alloc, board, gate, script, pass)?;
    let actor = Actor::Reporter {
        number: pass.number(),
    };
    let call = script.len() as u64;
    gate.before(actor, call);
    match settle_and_leave(rt, alloc, board, pass) {
        Ok(left) => {
            gate.after(actor, call, Some(left.prefix()));
            Ok(left)
        }
        Err(error) => {
            gate.after(actor, call, None);
            Err(ReportError::from(error))
        }
    }
}
