//! Linear programs that `run` of `gs_simplex` refuses, and one just within the limit.

ghost use Rattle.std.specs.Prelude.{◌<◌, ◌^◌, IfOk};
ghost use Rattle.gs_tests_strategies.specs.Programs.{IsWideSample, IsRowless};

use gs_simplex::{Best, PathError, Program, run};
use std::alloc::{AllocError, Global};
use std::test::Fail;

/// Returns the text of what stops a path.
pub(crate) fn error_text(alloc: Global, error: &PathError) -> Result<String, AllocError> {
    match error {
        PathError::Memory => Err(AllocError),
        PathError::Fault(fault) => format!(in alloc; "{fault:?}"),
    }
}

/// Returns the text of what stopped the path, and an empty text if nothing did.
pub(crate) fn stop_text(
    alloc: Global,
    answer: &Result<Best, PathError>,
) -> Result<String, AllocError> {
    match answer {
        Ok(_) => Ok(String::new(alloc)),
        Err(error) => error_text(alloc, error),
    }
}

fn wide_program(alloc: Global) -> Result<Program, AllocError>
    ensures { IfOk result IsWideSample }
{
    let first = Vec::from_slice(alloc, &[2305843009213693951i64, 3, 1])?;
    let second = Vec::from_slice(alloc, &[2305843009213693950i64, 5, 1])?;
    let mut numbers = Vec::new(alloc);
    numbers.push(first)?;
    numbers.push(second)?;
    let free = Vec::from_slice(alloc, &[false, false])?;
    let aim = Vec::from_slice(alloc, &[0i64, 0])?;
    Ok(Program {
        rows: 2,
        cols: 2,
        free,
        numbers,
        aim,
    })
}

/// Returns what stops the path of the wide program.
fn wide_stop(alloc: Global) -> Result<String, AllocError> {
    let p = wide_program(alloc)?;
    let answer = run(alloc, &p, &[(1, 1), (2, 2)], 9);
    stop_text(alloc, &answer)
}

#[test]
fn a_wide_number_in_the_opening(rt: HostRuntime) -> Result<(), Fail> {
    assert_eq!(rt;
        wide_stop(rt.alloc())?.as_str(),
        "Wide { step: 1, row: 2, col: 2, number: 4611686018427387905 }"
    );
    Ok(())
}

fn rowless(alloc: Global, cols: u32) -> Result<Program, AllocError>
    ensures { IfOk result (IsRowless cols) }
{
    let free = vec![in alloc; false; cols as usize]?;
    let aim = vec![in alloc; 0i64; cols as usize]?;
    Ok(Program {
        rows: 0,
        cols,
        free,
        numbers: Vec::new(alloc),
        aim,
    })
}

/// Returns what stops the path of the program with `cols` columns and no row.
fn rowless_stop(alloc: Global, cols: u32) -> Result<String, AllocError>
    requires { cols < 2 ^ 31 }
{
    let p = rowless(alloc, cols)?;
    let answer = run(alloc, &p, &[], 9);
    stop_text(alloc, &answer)
}

#[test]
fn the_largest_table(rt: HostRuntime) -> Result<(), Fail> {
    let alloc = rt.alloc();
    assert_eq!(rt;
        rowless_stop(alloc, 1_048_576)?.as_str(),
        "TableTooLarge { count: 1048577 }"
    );
    assert_eq!(rt; rowless_stop(alloc, 1_048_575)?.as_str(), "");
    Ok(())
}
