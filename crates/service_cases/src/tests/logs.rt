//! The log and its roll.
ghost use Rattle.std.specs.Prelude.{◌≡◌};

use board_log::{Bases, DeskRight, OpenedLog, OpenedRoll, Roll, WholeLog};
use bwe_specs::{Report, Target};
use std::alloc::Global;
use std::marker::Brand;
use std::process::Abort;
use std::test::*;

#[test]
fn of_two_beginnings_one_begins_the_other(rt: HostRuntime) -> Result<(), Fail> {
    compared::<Brand, _>(&rt, rt.alloc(), OpenedLog::new())
}

fn compared<B: Bases, R: Abort>(rt: &R, alloc: Global, opened: OpenedLog) -> Result<(), Fail>
    requires name { opened ≡ B.book }
{
    let (mut log, _right): (WholeLog<B>, DeskRight<B>) = opened.named();
    let none = log.first(0);
    let piece = vec![in alloc; report_by(0), report_by(1)]?;
    assert!(rt; log.append(&piece).is_ok());
    let two = log.first(2);
    let one = two.first(1);
    let begins = none.begins(&one) && one.begins(&two) && two.begins(&two.copy());
    assert_eq!(rt;
        (none.len(), one.len(), two.len(), begins, two.begins(&one)),
        (0, 1, 2, true, false)
    );
    Ok(())
}

#[test]
fn a_member_adds_its_piece(rt: HostRuntime) -> Result<(), Fail> {
    let opened = OpenedRoll::new(rt.alloc())?;
    enrolled::<Brand>(rt.alloc(), opened)
}

fn enrolled<B: Bases>(alloc: Global, opened: OpenedRoll) -> Result<(), Fail>
    requires name { opened.table.shared.table_id ≡ B.table }
{
    let mut roll: Roll<B> = opened.named();
    let first = roll.enroll();
    let second = roll.enroll();
    let piece = vec![in alloc; report_by(1)]?;
    let second = roll.append(second, &piece);
    let _ = (roll.check(first), roll.check(second));
    Ok(())
}

fn report_by(reporter: u32) -> Report
    ensures by { result.reporter ≡ reporter }
{
    Report {
        reporter,
        target: Target::Task { number: 0 },
        amount: 80,
    }
}
