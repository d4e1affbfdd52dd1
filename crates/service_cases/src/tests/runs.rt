//! Whole runs on a board, each actor in a thread of its own.

use crate::tests::demand_by;
use crate::tests::held_gate::{ToldGate, TurnsGate};
use crew::run_crew;
use crew_actors::OpenGate;
use crew_log::{CrewLog, ReadLine};
use report_book::{SmallMaker, SmallTable};
use std::test::*;

// How often each run is made.
const RUNS: u64 = 100;

// Two reporters with a demand each, and two readers with three reads each. The run is made a
// hundred times.
#[test]
fn a_run_ends_with_the_history_each_time(rt: HostRuntime) -> Result<(), Fail> {
    let alloc = rt.alloc();
    let scripts = [
        vec![in alloc; demand_by(0, 80)]?,
        vec![in alloc; demand_by(1, 40)]?,
    ];
    for _ in 0..RUNS {
        let log = run_crew(&rt, alloc, SmallMaker::new(2, 1), &scripts, 2, 3, &OpenGate)?;
        assert!(rt; is_whole(&log));
    }
    Ok(())
}

// Whether the log has both demands, and each of the two readers has seen them at its end.
fn is_whole(log: &CrewLog<SmallTable>) -> bool {
    for reader in &log.readers {
        if (reader.reads.len(), reader.length, reader.beyond.len()) != (3, 2, 0)
            || (reader.last.prefix, reader.last.total) != (2, 120)
        {
            return false;
        }
    }
    (log.history.len(), log.sent.len(), log.readers.len()) == (2, 2, 2) && log.table.total == 120
}

// One reporter of two demands, and one reader of two reads. The gate holds the first report until
// the first read was shown, and the reader from then on until the settle was answered: its next
// line has the acknowledgement's floor.
#[test]
fn a_held_reader_is_told_what_was_settled(rt: HostRuntime) -> Result<(), Fail> {
    let alloc = rt.alloc();
    let scripts = [vec![in alloc; demand_by(0, 80), demand_by(0, 40)]?];
    for _ in 0..RUNS {
        let gate = ToldGate::new();
        let log = run_crew(&rt, alloc, SmallMaker::new(2, 1), &scripts, 1, 2, &gate)?;
        // Two reports and the settle, a round more than reads, and two reads and the last.
        assert_eq!(rt;
            (gate.missed(), gate.begun(), gate.answered()),
            (0, (3, 3, 3), (3, 3, 3))
        );
        assert!(rt; is_told(&log));
    }
    Ok(())
}

// Whether the one reader was shown nothing first, and then what it had been told of.
fn is_told(log: &CrewLog<SmallTable>) -> bool {
    for reader in &log.readers {
        if reader.reads.as_slice() != &[line_of(0, 0), line_of(2, 120)][..]
            || (reader.last, reader.length) != (line_of(2, 120), 2)
        {
            return false;
        }
    }
    (log.readers.len(), log.history.len()) == (1, 2)
}

// Two reporters of a demand each, and two readers of three reads, in turns: the second reporter
// begins once both readers were shown what the first one had settled. So each third line has the
// floor of the later acknowledgement.
#[test]
fn both_readers_are_told_of_the_later_settle(rt: HostRuntime) -> Result<(), Fail> {
    let alloc = rt.alloc();
    let scripts = [
        vec![in alloc; demand_by(0, 80)]?,
        vec![in alloc; demand_by(1, 40)]?,
    ];
    for _ in 0..RUNS {
        let gate = TurnsGate::new();
        let log = run_crew(&rt, alloc, SmallMaker::new(2, 1), &scripts, 2, 3, &gate)?;
        assert!(rt; gate.missed() == 0 && is_told_in_turns(&log));
    }
    Ok(())
}

// Whether each of the two readers was shown nothing, then the first demand, then both.
fn is_told_in_turns(log: &CrewLog<SmallTable>) -> bool {
    for reader in &log.readers {
        let lines = [line_of(0, 0), line_of(1, 80), line_of(2, 120)];
        if reader.reads.as_slice() != &lines[..] || reader.last != line_of(2, 120) {
            return false;
        }
    }
    log.readers.len() == 2
}

// The line of a read that showed what its reader had been told of.
fn line_of(prefix: u64, total: u64) -> ReadLine {
    ReadLine {
        floor: prefix,
        prefix,
        total,
    }
}
