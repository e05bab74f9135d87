// Holds a query to a file: whether the file opens, a segment may have so many rows, and every test
// fits a column of the file.

#![tactic(auto)]

ghost use Rattle.std.specs.Prelude.{◌≡◌, ◌≤◌, false, Ok};
ghost use Rattle.register.specs.declared.Shape.{Shape};
ghost use Rattle.limits.specs.Limits.{most_tests};
ghost use Rattle.asking.specs.Sizes.{unfit_size};
ghost use Rattle.asking.specs.Refusals.{lines_for, asked_of};
ghost use Rattle.asking.specs.Verdicts.{verdict_of, TestsJudged};
ghost use Rattle.asking.specs.Judged.{Judged};

use limits::{LONGEST_SEGMENT, MOST_TESTS};
use query::{Query, Test};
use refusals::Refusal;
use register::{Register, Shape};

// Holds a query to a file: the file's rows and columns where the query fits it, or the first refusal.
pub fn ask(file: &[u8], size: usize, query: Query) -> Result<Shape, Refusal>
    ensures answer { result ≡ asked_of file.now size query }
    ensures fit { (shape : Shape) → result ≡ Ok shape →
        Judged file.now shape query × (unfit_size size ≡ false) }
{
    let shape = register::open(file)?;
    if unfit_size(size) {
        return Err(Refusal::UnfitSegmentSize);
    }
    if MOST_TESTS < query.count {
        return Err(Refusal::TooManyTests);
    }
    let register = Register { file, shape };
    judge_tests(&register, query)?;
    Ok(shape)
}

// Whether a segment may not have this many rows.
pub fn unfit_size(size: usize) -> bool
    ensures { result ≡ unfit_size size }
{
    match size {
        8 | 16 | 32 | LONGEST_SEGMENT => false,
        _ => true,
    }
}

// Holds the tests to an opened file in turn, and ends at the first that does not fit. The query is taken
// by value: of an array in a struct behind a reference a proof knows no length.
pub fn judge_tests(register: &Register<'_>, query: Query) -> Result<(), Refusal>
    requires { query.count ≤ most_tests }
    ensures { TestsJudged register.now.file.now register.now.shape query result }
{
    for t in 0..query.count {
        judge_test(register, query.tests[t], t)?;
    }
    Ok(())
}

// Holds a test to an opened file, under its place: first by its column, then by its literal.
pub fn judge_test(register: &Register<'_>, test: Test, place: usize) -> Result<(), Refusal>
    ensures { result ≡ verdict_of (lines_for register.now.file.now place test) }
{
    let column = test.column;
    if register.shape.columns <= column {
        return Err(Refusal::NoSuchColumn(place));
    }
    let literal = query::literal_of(test.comparison);
    if codes::too_large(register.width(column), literal) {
        return Err(Refusal::LiteralTooLarge(place));
    }
    Ok(())
}
