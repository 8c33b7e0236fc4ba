//! Runs of cases on schedules: their texts, worked out by hand, and each growth refused in turn.

use crate::compare::same;
use crate::workers::cases::{FORK, FORK_TEXT, MODES, WORKED, all, writes_alone};
use refusing_allocator::RefusingAllocator;
use std::test::Fail;
use trace_script::{Case, Cause};
use tracer_workers::{Config, RunError, run_scheduled};

/// Schedules of two rows and two workers: none, turns of each actor, actors that are none, one actor alone, and long ones.
const SCHEDULES: [&[u32]; 7] = [
    &[],
    &[2, 2, 1, 0, 2],
    &[9, 1, 3, 0],
    &[3; 40],
    &[0; 300],
    &[2; 300],
    &[u32::MAX, 0, 2],
];

/// Whether a case prints a text on a schedule, with and without a filter and stops before deaths, by one worker, by
/// two, and by 16.
fn prints_on(
    rt: &impl AllocGlobal,
    case: &Case,
    config: &Config,
    schedule: &[u32],
    text: &str,
) -> Result<bool, Fail> {
    for (seccomp, exits) in MODES {
        let config = Config {
            seccomp,
            exits,
            ..*config
        };
        let one = Config {
            workers: 1,
            ..config
        };
        let two = Config {
            workers: 2,
            ..config
        };
        let most = Config {
            workers: 16,
            ..config
        };
        let alone = run_scheduled(rt.alloc(), case, &one, schedule)?;
        let shared = run_scheduled(rt.alloc(), case, &two, schedule)?;
        let crowded = run_scheduled(rt.alloc(), case, &most, schedule)?;
        for printed in [&alone, &shared, &crowded] {
            if printed.as_bytes() != text.as_bytes() {
                return Ok(false);
            }
        }
    }
    Ok(true)
}

/// Whether a case prints a text on each of the schedules.
fn prints(rt: &impl AllocGlobal, file: &str, config: &Config, text: &str) -> Result<bool, Fail> {
    let case = Case::read(rt.alloc(), file.as_bytes())?;
    for schedule in SCHEDULES {
        if !prints_on(rt, &case, config, schedule, text)? {
            return Ok(false);
        }
    }
    Ok(true)
}

#[test]
fn a_case_without_rows_prints_nothing(rt: HostRuntime) -> Result<(), Fail> {
    assert!(rt; prints(&rt, "", &all(), "")?);
    Ok(())
}

#[test]
fn each_schedule_prints_each_kind_of_case(rt: HostRuntime) -> Result<(), Fail> {
    for case in WORKED {
        assert!(rt; prints(&rt, case.file, &all(), case.text)?);
        assert!(rt; prints(&rt, case.file, &writes_alone(), case.writes)?);
    }
    Ok(())
}

#[test]
fn a_child_that_is_not_followed_is_not_printed(rt: HostRuntime) -> Result<(), Fail> {
    let text =
        "100 write(1, \"hi\\n\", 3) = 3\n100 fork() = 101\n100 exit(3) = ?\n100 +++ exited with 3 +++\n";
    let config = Config {
        follow: false,
        ..all()
    };
    assert!(rt; prints(&rt, FORK, &config, text)?);
    Ok(())
}

#[test]
fn a_string_is_cut_at_the_limit(rt: HostRuntime) -> Result<(), Fail> {
    let text = "100 write(1, \"hi\"..., 3) = 3\n100 fork() = 101\n100 exit(3) = ?\n\
                100 +++ exited with 3 +++\n101 exit(0) = ?\n101 +++ exited with 0 +++\n";
    let config = Config { limit: 2, ..all() };
    assert!(rt; prints(&rt, FORK, &config, text)?);
    Ok(())
}

#[test]
fn a_row_has_many_stops(rt: HostRuntime) -> Result<(), Fail> {
    let mut file = String::new(rt.alloc());
    let mut text = String::new(rt.alloc());
    file.push_str("tracee 100 100 77 0\n")?;
    for _ in 0..300 {
        file.push_str("call getpid = 100\n")?;
        text.push_str("100 getpid() = 100\n")?;
    }
    file.push_str("end\n")?;
    text.push_str("100 +++ exited with 0 +++\n")?;
    assert!(rt; prints(&rt, file.as_str(), &all(), text.as_str())?);
    Ok(())
}

#[test]
fn there_are_256_rows(rt: HostRuntime) -> Result<(), Fail> {
    let mut file = String::new(rt.alloc());
    let mut text = String::new(rt.alloc());
    file.push_str("tracee 100 100 77 0\n")?;
    for child in 101..356 {
        file.push_str(format!(in rt.alloc(); "fork {child}\n")?.as_str())?;
        text.push_str(format!(in rt.alloc(); "100 fork() = {child}\n")?.as_str())?;
    }
    file.push_str("end\n")?;
    text.push_str("100 +++ exited with 0 +++\n")?;
    for child in 101..356 {
        file.push_str(format!(in rt.alloc(); "tracee {child} {child} 77 100\nend\n")?.as_str())?;
        text.push_str(format!(in rt.alloc(); "{child} +++ exited with 0 +++\n")?.as_str())?;
    }
    assert!(rt; prints(&rt, file.as_str(), &all(), text.as_str())?);
    Ok(())
}

/// The next of a sequence of numbers that look random, whose higher bits are used.
fn next(number: u32) -> u32 {
    number.wrapping_mul(1_664_525).wrapping_add(1_013_904_223)
}

#[test]
fn schedules_by_chance_print_the_same(rt: HostRuntime) -> Result<(), Fail> {
    let mut number = 1u32;
    for worked in WORKED {
        let case = Case::read(rt.alloc(), worked.file.as_bytes())?;
        for _ in 0..20 {
            let mut schedule = [0u32; 40];
            for entry in schedule.iter_mut() {
                number = next(number);
                // Two rows, two workers and two numbers of no actor.
                *entry = (number >> 16) % 6;
            }
            assert!(rt; prints_on(&rt, &case, &all(), &schedule, worked.text)?);
        }
    }
    Ok(())
}

/// More than a run of the worked case has growths.
const MOST: u64 = 200;

/// At least this many growths: the copies of the roster, the words, the folder's rows, the rows, and each row's image.
const GROWTHS: u64 = 8;

/// A run of the worked case with this many growths: whether it prints its text, and whether a growth was refused. Where
/// the case cannot be read, the cause is `NoMemory`, as that of a run would be.
fn run_with(rt: &HostRuntime, granted: u64, schedule: &[u32]) -> (Result<bool, RunError>, bool) {
    let heap = RefusingAllocator::new(rt.alloc(), granted);
    let case = match Case::read(&heap, FORK.as_bytes()) {
        Ok(case) => case,
        Err(error) if error.cause == Cause::NoMemory => {
            return (Err(RunError::NoMemory), heap.has_refused());
        }
        Err(_) => return (Ok(false), heap.has_refused()),
    };
    let config = Config {
        workers: 2,
        ..all()
    };
    let ran = match run_scheduled(&heap, &case, &config, schedule) {
        Ok(text) => Ok(text.as_bytes() == FORK_TEXT.as_bytes()),
        Err(error) => Err(error),
    };
    (ran, heap.has_refused())
}

#[test]
fn a_refused_growth_leaves_no_text(rt: HostRuntime) {
    let mut refusals = 0u64;
    for granted in 0..MOST {
        match run_with(&rt, granted, &[2, 0]) {
            (Ok(is_right), has_refused) => {
                same(&rt, &(granted, is_right && !has_refused), &(granted, true));
                break;
            }
            (Err(error), has_refused) => {
                same(&rt, &(granted, error), &(granted, RunError::NoMemory));
                same(&rt, &(granted, has_refused), &(granted, true));
                refusals = refusals.wrapping_add(1);
            }
        }
    }
    same(&rt, &(refusals, refusals >= GROWTHS), &(refusals, true));
    same(&rt, &run_with(&rt, MOST, &[]), &(Ok(true), false));
}
