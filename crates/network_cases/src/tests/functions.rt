//! The worked cases of bandwidth functions.

use bw_function::{BwFunction, FunctionError, FunctionFault};
use std::test::Fail;

// The case "Flat function": nothing grows from share 10 to 90.
#[test]
fn a_flat_function_grows_before_and_after(rt: HostRuntime) -> Result<(), Fail> {
    let alloc = rt.alloc();
    let points = [(0, 0), (10, 10), (90, 10), (100, 20)];
    let function = BwFunction::new(alloc, &points, 1_000)?;
    for (share, value) in [
        (0, 0),
        (9, 9),
        (10, 10),
        (50, 10),
        (95, 15),
        (100, 20),
        (1_000, 20),
    ] {
        assert_eq!(rt; function.value(share), value, "at {share}");
    }
    assert_eq!(rt; (function.last_value(), function.top()), (20, 1_000));
    assert_eq!(rt; function.points(), points.as_slice());
    Ok(())
}

// The function of the case "Configured user" with 61 in place of 60: the line is rounded down.
#[test]
fn a_value_between_points_is_rounded_down(rt: HostRuntime) -> Result<(), Fail> {
    let function = BwFunction::new(rt.alloc(), &[(0, 0), (10, 61)], 10)?;
    for (share, value) in [(1, 6), (5, 30), (9, 54), (10, 61)] {
        assert_eq!(rt; function.value(share), value, "at {share}");
    }
    Ok(())
}

// The first row is the function of the case "Three refusals".
#[test]
fn the_first_fault_is_told(rt: HostRuntime) -> Result<(), Fail> {
    let alloc = rt.alloc();
    let over = 1_000_000_000_001;
    let rows: [(&[(u64, u64)], FunctionFault); 8] = [
        (
            &[(0, 0), (5, 5), (5, 9)],
            FunctionFault::ShareNotRising { at: 2 },
        ),
        (&[], FunctionFault::Empty),
        (&[(0, over), (0, 0)], FunctionFault::NotFromZero),
        (
            &[(0, 0), (101, 5), (5, 9)],
            FunctionFault::ShareOverTop { at: 1 },
        ),
        (
            &[(0, 0), (1, 5), (101, 4)],
            FunctionFault::ShareOverTop { at: 2 },
        ),
        (
            &[(0, 0), (1, over), (2, 4)],
            FunctionFault::AmountOverMax { at: 1 },
        ),
        (
            &[(0, 0), (1, 5), (2, 4)],
            FunctionFault::AmountFalling { at: 2 },
        ),
        (
            &[(0, 0), (0, over)],
            FunctionFault::ShareNotRising { at: 1 },
        ),
    ];
    for (points, fault) in rows {
        let refused = BwFunction::new(alloc, points, 100).err();
        assert_eq!(rt; refused, Some(FunctionError::Refused { fault }));
    }
    Ok(())
}

#[test]
fn the_greatest_points_are_accepted(rt: HostRuntime) -> Result<(), Fail> {
    let points = [(0, 0), (1_000_000_000, 1_000_000_000_000)];
    let function = BwFunction::new(rt.alloc(), &points, 1_000_000_000)?;
    assert_eq!(rt; function.value(999_999_999), 999_999_999_000);
    assert_eq!(rt; BwFunction::new(rt.alloc(), &[(0, 0)], 1)?.value(1), 0);
    Ok(())
}

// Values on the line from (0,0) to (3,10) are 0, 3, 6 and 10.
#[test]
fn the_last_share_is_found_by_an_amount(rt: HostRuntime) -> Result<(), Fail> {
    let function = BwFunction::new(rt.alloc(), &[(0, 0), (3, 10), (5, 10)], 6)?;
    for (amount, share) in [
        (0, 0),
        (2, 0),
        (3, 1),
        (5, 1),
        (6, 2),
        (9, 2),
        (10, 6),
        (11, 6),
    ] {
        assert_eq!(rt;
            function.last_share_within(amount, 6),
            share,
            "within {amount}"
        );
    }
    assert_eq!(rt; function.last_share_within(9, 1), 1);
    Ok(())
}

// The line from (0,0) to (2,5) is the steepest: 2 and a half a share, rounded up.
#[test]
fn the_steepest_line_is_told(rt: HostRuntime) -> Result<(), Fail> {
    let points = [(0, 0), (2, 5), (4, 5), (10, 15)];
    let function = BwFunction::new(rt.alloc(), &points, 10)?;
    assert_eq!(rt; function.steepest(), 3);
    assert_eq!(rt; BwFunction::new(rt.alloc(), &[(0, 0)], 1)?.steepest(), 0);
    Ok(())
}
