//! The events of an input, played one after another.

ghost use Rattle.std.specs.Prelude.{◌≡◌, ◌+◌, ◌<◌, ◌^◌, true, IfOk, IfSome, OnSome};
ghost use Rattle.bwe_protocol.specs.Named.{IsNamed};
ghost use Rattle.bwe_specs.specs.Fit.{IsFit};
ghost use Rattle.control_core.specs.World.{IsMeant};

use crate::echo::EchoMaker;
use crate::line::{ALLOCATORS, READERS, TASKS, event_of};
use crate::text::push_state;
use bwe_io::{ReadError, Sink, Source, read_all};
use bwe_specs::{MAX_INPUT, MAX_REPORTS, OutOfMemory};
use control_core::{Control, ControlEvent};
use demand_book::Maker;
use one_run::{Answer, InputError, finish, refuse_input};
use std::alloc::Global;
use text_scan::Lines;

/// No event comes at this revision or at a later one.
pub(crate) const MAX_REVISION: u64 = 2_000;

// The state before any event and after each, or the refusal of the first line at fault.
fn play(alloc: Global, input: &[u8]) -> Result<Answer, OutOfMemory> {
    let mut control = first_control(alloc)?;
    let mut text = String::new(alloc);
    let mut rest = Lines::new(input);
    push_state(&mut text, &control)?;
    'lines: while let Some(line) = rest.next_line() {
        let Some(event) = next_event(&control, line) else {
            return refused_at(alloc, rest.number() - 1);
        };
        control.step(alloc, event)?;
        push_state(&mut text, &control)?;
    }
    if !rest.is_empty() {
        return refused_at(alloc, rest.number());
    }
    Ok(Answer {
        status: 0,
        text: text.into_bytes(),
    })
}

// The event of a line, where there is room for it and what it names is there.
fn next_event(control: &Control<EchoMaker>, line: &[u8]) -> Option<ControlEvent>
    ensures meant { IfSome result (IsMeant (IsFit 4 0) control.now.world) }
    ensures room { OnSome result (control.now.world.revision + 1 < 2 ^ 64) }
{
    let event = event_of(line)?;
    if control.revision() < MAX_REVISION && is_there(control, event) {
        Some(event)
    } else {
        None
    }
}

// Whether what an event names is there.
fn is_there(control: &Control<EchoMaker>, event: ControlEvent) -> bool
    requires named { IsNamed event }
    ensures meant { result ≡ true → IsMeant (IsFit 4 0) control.now.world event }
{
    let allocators = control.allocators().len() as u64;
    let readers = control.readers().len() as u64;
    let sent = control.sent().len() as u64;
    match event {
        ControlEvent::Report { report: _ } => (control.reports().len() as u64) < MAX_REPORTS,
        ControlEvent::Campaign { allocator } => u64::from(allocator) < allocators,
        ControlEvent::Expire => true,
        ControlEvent::Read { allocator } => u64::from(allocator) < allocators,
        ControlEvent::Look { allocator } => u64::from(allocator) < allocators,
        ControlEvent::Send { allocator, upto: _ } => u64::from(allocator) < allocators,
        ControlEvent::Take { transaction } => transaction < sent,
        ControlEvent::Lose { transaction } => transaction < sent,
        ControlEvent::Learn { allocator } => u64::from(allocator) < allocators,
        ControlEvent::GiveUp { allocator } => u64::from(allocator) < allocators,
        ControlEvent::Crash { allocator } => u64::from(allocator) < allocators,
        ControlEvent::Tell {
            reader,
            revision: _,
        } => u64::from(reader) < readers,
        ControlEvent::See { reader } => u64::from(reader) < readers,
    }
}

// The state before any event.
fn first_control(alloc: Global) -> Result<Control<EchoMaker>, OutOfMemory>
    ensures plan { IfOk result
        (λ control. ⟦<EchoMaker as Maker>⟧.plan control.maker ≡ 4) }
{
    let maker = EchoMaker::new(alloc, TASKS)?;
    let mut tasks = Vec::with_capacity(alloc, 3)?;
    tasks.push(Vec::from_slice(alloc, &[0, 3])?)?;
    tasks.push(Vec::from_slice(alloc, &[1])?)?;
    tasks.push(Vec::from_slice(alloc, &[2])?)?;
    Control::new(alloc, maker, tasks, ALLOCATORS, READERS)
}

// A line at fault.
fn refused_at(alloc: Global, line: u64) -> Result<Answer, OutOfMemory> {
    Ok(Answer {
        status: 3,
        text: format!(in alloc; "refused at line {line}\n")?.into_bytes(),
    })
}

/// Reads the events, writes the states or the refusal, and answers the exit status.
pub(crate) fn play_once<S: Source, K: Sink>(alloc: Global, source: &mut S, sink: &mut K) -> u8 {
    match read_all(alloc, source, MAX_INPUT) {
        Ok(input) => finish(sink, play(alloc, &input)),
        Err(ReadError::ReadFault) => refuse_input(sink, InputError::ReadFault),
        Err(ReadError::TooLong) => refuse_input(sink, InputError::TooLong),
        Err(ReadError::OutOfMemory) => refuse_input(sink, InputError::OutOfMemory),
    }
}
