// The lines of a listing, each put into a piece of it.

#![tactic(auto)]

ghost use Rattle.std.specs.Prelude.{◌+◌, ◌*◌, ◌^◌, ◌<◌, ◌≤◌, ◌∷◌};
ghost use Rattle.limits.specs.Limits.{most_columns, longest_cell, longest_line};
ghost use Rattle.decimals.specs.Decimals.{decimal, space};
ghost use Rattle.pieces.specs.Pieces.{Begins, WroteUpTo};
ghost use Rattle.lines.specs.Lines.{head_line, test_line, cells, row_line, refused_line};
ghost use Rattle.lines.specs.Steps.{RowAt};

use pieces::Piece;
use refusals::Refusal;
use register::Register;

// The line of a refusal, which is the whole listing then.
pub fn refused_line<'a>(out: &'a mut [u8], from: usize, refusal: Refusal) -> Piece<'a>
    ensures { Begins (refused_line refusal) out.entry from result }
{
    let mut piece = Piece { out, from, at: 0 };
    piece.put_word(b"refused ");
    piece.put_decimal(refusal.number());
    piece.put(b' ');
    piece.put_decimal(refusal.place() as u64);
    piece.put(b'\n');
    piece
}

// The first line, with which a listing begins: the rows, and how many match.
pub fn head_line<'a>(out: &'a mut [u8], from: usize, rows: usize, matches: usize) -> Piece<'a>
    ensures wrote { Begins (head_line rows matches) out.entry from result }
    ensures within { result.at ≤ longest_line }
{
    let mut piece = Piece { out, from, at: 0 };
    piece.put_word(b"rows ");
    piece.put_decimal(rows as u64);
    piece.put_word(b" matches ");
    piece.put_decimal(matches as u64);
    piece.put(b'\n');
    piece
}

// A test's line: its number, its count, and what it would count at most.
pub fn test_line(piece: &mut Piece<'_>, number: usize, count: usize, most: usize)
    requires { piece.old.at < 2 ^ 60 }
    ensures { WroteUpTo (piece.old.at + longest_line) (test_line number count most) piece.old piece.new }
{
    piece.put_word(b"test ");
    piece.put_decimal(number as u64);
    piece.put_word(b" read ");
    piece.put_decimal(count as u64);
    piece.put_word(b" of ");
    piece.put_decimal(most as u64);
    piece.put(b'\n');
}

// A row's line: its number, and its code in every column.
pub fn row_line(piece: &mut Piece<'_>, register: &Register<'_>, row: usize)
    requires { RowAt (2 ^ 60) piece.old.at register.now row }
    ensures { WroteUpTo (piece.old.at + longest_line) (row_line register.now.file.now row) piece.old piece.new }
{
    piece.put_word(b"row ");
    piece.put_decimal(row as u64);
    piece.put(b':');
    put_cells(piece, register, row);
    piece.put(b'\n');
}

// A row's code in every column, a space before each.
#[tactic(auto, using(register::proofs::Fit::few_columns_as_opened))]
fn put_cells(piece: &mut Piece<'_>, register: &Register<'_>, row: usize)
    requires { RowAt (2 ^ 60 + 100) piece.old.at register.now row }
    ensures { WroteUpTo (piece.old.at + most_columns * longest_cell)
        (cells register.now.file.now row register.now.shape.columns) piece.old piece.new }
{
    for column in 0..register.shape.columns {
        put_cell(piece, cells::code_at(register, column, row));
    }
}

fn put_cell(piece: &mut Piece<'_>, code: u64)
    requires { piece.old.at < 2 ^ 60 + longest_line }
    ensures { WroteUpTo (piece.old.at + longest_cell) (space ∷ decimal code) piece.old piece.new }
{
    piece.put(b' ');
    piece.put_decimal(code);
}
