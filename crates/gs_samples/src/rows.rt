//! Rows of tests: a line, and the text that is expected for it.

ghost use Rattle.std.specs.Prelude.{◌≡◌, IfOk};

use std::alloc::Global;
use std::test::Fail;

/// Fails, naming the line, if the text for a row's line is not the expected one.
pub fn check_row(alloc: Global, line: &str, said: &str, wanted: &str) -> Result<(), Fail>
    ensures { IfOk result (λ _. said.now ≡ wanted.now) }
{
    if said == wanted {
        return Ok(());
    }
    Err(Fail::new(format!(in alloc; "{said:?} in place of {wanted:?} at {line}")?))
}

/// Fails at the first row for whose line `say` gives another text than the expected one.
pub fn check_rows<F: Fn(Global, &str) -> Result<String, Fail> + Drop>(
    alloc: Global,
    rows: &[(&str, &str)],
    say: F,
) -> Result<(), Fail>
    requires { F.IsAlwaysCallable say }
{
    for &(line, wanted) in rows {
        let said = say(alloc, line)?;
        check_row(alloc, line, said.as_str(), wanted)?;
    }
    Ok(())
}
