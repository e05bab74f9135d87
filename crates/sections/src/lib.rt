// The lines of a listing that come in runs: one for each test, one for each row found.

#![tactic(auto)]

ghost use Rattle.std.specs.Prelude.{[], ◌∷◌, suc, ◌+◌, ◌*◌, ◌^◌, ◌≤◌};
ghost use Rattle.basis.specs.Lists.{those};
ghost use Rattle.limits.specs.Limits.{most_tests, longest_line};
ghost use Rattle.bits.specs.Marked.{marked, marked_below};
ghost use Rattle.pieces.specs.Pieces.{Wrote, WroteUpTo};
ghost use Rattle.lines.specs.Steps.{RowAt};
ghost use Rattle.sections.specs.Sections.{test_lines, row_lines};
ghost use Rattle.sections.specs.Steps.{TestsAt};

use limits::MOST_TESTS;
use lines::{row_line, test_line};
use pieces::Piece;
use query::Query;
use register::Register;

// A line for each test.
pub fn test_lines(
    piece: &mut Piece<'_>,
    register: &Register<'_>,
    query: &Query,
    counts: [usize; MOST_TESTS],
)
    requires { TestsAt piece.old.at register.now query.now }
    ensures { WroteUpTo (longest_line * suc most_tests)
        (test_lines register.now.file.now query.now.tests counts query.now.count) piece.old piece.new }
{
    for t in 0..query.count {
        let width = register.width(query.tests[t].column);
        let most = register.shape.rows * codes::slices_of(width);
        test_line(piece, t, counts[t], most);
    }
}

// A line for each row whose bit is set.
#[tactic(auto, using(register::proofs::Fit::few_rows_as_opened))]
pub fn row_lines(piece: &mut Piece<'_>, register: &Register<'_>, bits: &[u8])
    requires { piece.old.at ≤ longest_line * suc most_tests }
    ensures { Wrote (row_lines register.now.file.now (marked_below register.now.shape.rows bits.now))
        piece.old piece.new }
{
    for row in 0..register.shape.rows {
        put_row(piece, register, bits, row);
    }
}

// The line of a row, where its bit is set.
fn put_row(piece: &mut Piece<'_>, register: &Register<'_>, bits: &[u8], row: usize)
    requires { RowAt (2 ^ 60) piece.old.at register.now row }
    ensures { WroteUpTo (piece.old.at + longest_line)
        (row_lines register.now.file.now (those (marked bits.now) (row ∷ []))) piece.old piece.new }
{
    if bits::is_marked(bits, row) {
        row_line(piece, register, row);
    }
}
