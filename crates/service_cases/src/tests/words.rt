//! Numbers among the arguments at the ends of their ranges, and beyond; `cases/` has each command,
//! and arguments of other forms.

use bwe_specs::OutOfMemory;
use command_line::{CommandLine, command_line_of_words};

fn line_of(rt: &HostRuntime, texts: &[&str]) -> Result<Option<CommandLine>, OutOfMemory> {
    let mut words = Vec::new(rt.alloc());
    for text in texts {
        words.push(String::from_str(rt.alloc(), text)?)?;
    }
    command_line_of_words(rt.alloc(), &words)
}

fn is_no_line(rt: &HostRuntime, texts: &[&str]) -> Result<bool, OutOfMemory> {
    Ok(line_of(rt, texts)?.is_none())
}

#[test]
fn sizes_at_the_ends_of_their_ranges_are_read(rt: HostRuntime) -> Result<(), OutOfMemory> {
    for (seed, groups, tasks, of_texts) in [
        (u64::MAX, 1, 20_000, ["18446744073709551615", "1", "20000"]),
        (0, 1_024, 1_024, ["0", "1024", "00000000000000001024"]),
    ] {
        let made = CommandLine::Make {
            seed,
            groups,
            tasks,
        };
        let line = line_of(&rt, &["make", of_texts[0], of_texts[1], of_texts[2]])?;
        assert!(rt; line == Some(made));
    }
    Ok(())
}

#[test]
fn sizes_beyond_their_ranges_are_none(rt: HostRuntime) -> Result<(), OutOfMemory> {
    for wrong in [
        ["18446744073709551616", "1", "1"],
        ["1", "0", "1"],
        ["1", "1025", "2000"],
        ["1", "1", "20001"],
        ["-1", "1", "1"],
        ["1", "+1", "1"],
    ] {
        assert!(rt; is_no_line(&rt, &["bulk", wrong[0], wrong[1], wrong[2]])?);
    }
    Ok(())
}

#[test]
fn windows_and_headrooms_are_in_their_ranges(rt: HostRuntime) -> Result<(), OutOfMemory> {
    for (window, headroom, of_texts) in [
        (1, 1_000, ["1", "1000"]),
        (1_000, 100, ["01000", "100"]),
    ] {
        let estimate = CommandLine::Estimate { window, headroom };
        let line = line_of(&rt, &["estimate", of_texts[0], of_texts[1]])?;
        assert!(rt; line == Some(estimate));
    }
    for wrong in [["0", "100"], ["1001", "100"], ["1", "99"], ["1", "1001"]] {
        assert!(rt; is_no_line(&rt, &["estimate", wrong[0], wrong[1]])?);
    }
    Ok(())
}
