//! Rows that no document gets: a verdict on a closing of no link, and what a reader saw past the
//! history.

ghost use Rattle.std.specs.Prelude.{◌+◌, ◌<◌, ◌^◌, length, IfOk};
ghost use Rattle.std.specs.List.{All};

use bwe_specs::{Cause, OutOfMemory, Report, Target, Verdict};
use crew_log::{CrewLog, ReadLine, ReaderLog};
use doc_names::{NameList, Names};
use limit_table::LimitTable;
use reply_text::check_text;
use run_text::run_text;
use std::alloc::Global;

fn named(alloc: Global, name: &str) -> Result<NameList, OutOfMemory> {
    let mut names = NameList::new(alloc);
    names.push(name)?;
    Ok(names)
}

fn names(alloc: Global) -> Result<Names, OutOfMemory> {
    Ok(Names {
        links: named(alloc, "l0")?,
        groups: NameList::new(alloc),
        tasks: named(alloc, "t0")?,
        reporters: named(alloc, "r0")?,
    })
}

fn report(target: Target, amount: u64) -> Report {
    Report {
        reporter: 0,
        target,
        amount,
    }
}

// Two reports past a history that has none.
fn beyond(alloc: Global) -> Result<Vec<Report>, OutOfMemory>
    ensures { IfOk result (λ reports. length reports.items < 2 ^ 32) }
{
    let demand = report(Target::Task { number: 0 }, 7);
    let capacity = report(Target::Link { number: 0 }, 20);
    Ok(vec![in alloc; demand, capacity]?)
}

// A run of a reporter that sent nothing, and a reader that has seen these reports.
fn run_of(alloc: Global, beyond: Vec<Report>) -> Result<CrewLog<LimitTable>, OutOfMemory>
    requires { length beyond.items < 2 ^ 32 }
    ensures sent { IfOk result (λ log. length log.sent.items < 2 ^ 32) }
    ensures places { IfOk result (λ log.
        All (λ reader. length log.history.items + length reader.beyond.items < 2 ^ 64)
        log.readers.items) }
{
    let reader = ReaderLog {
        reads: Vec::new(alloc),
        last: ReadLine {
            floor: 0,
            prefix: 2,
            total: 7,
        },
        length: 2,
        beyond,
    };
    Ok(CrewLog {
        history: Vec::new(alloc),
        sent: Vec::new(alloc),
        readers: vec![in alloc; reader]?,
        table: LimitTable {
            prefix: 0,
            limits: Vec::new(alloc),
            groups: Vec::new(alloc),
            loads: Vec::new(alloc),
            closings: Vec::new(alloc),
        },
    })
}

#[test]
fn what_a_reader_saw_past_the_history_is_printed(rt: HostRuntime) -> Result<(), OutOfMemory> {
    let alloc = rt.alloc();
    let log = run_of(alloc, beyond(alloc)?)?;
    let text = run_text(alloc, &log, &names(alloc)?)?;
    let wanted = "history 0\nreader 0 length 2\nbeyond 0 r0 t0 7\nbeyond capacity 1 r0 l0 20\n\
        final floor 0 prefix 2 total 7\ntable 0\ntotal 0\n";
    assert!(rt; text.as_slice() == wanted.as_bytes());
    Ok(())
}

#[test]
fn a_closing_of_no_link_has_its_line(rt: HostRuntime) -> Result<(), OutOfMemory> {
    let cause = Cause::NoSuchLink;
    let text = check_text(
        rt.alloc(),
        &Verdict::Wrong { at: 0, cause },
        &names(rt.alloc())?,
    )?;
    assert!(rt; text.as_slice() == b"wrong at 0: no such link\n".as_slice());
    Ok(())
}
