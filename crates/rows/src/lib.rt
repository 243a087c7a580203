// The rows of a counting step: read from the table, held in an array, and lent as a slice.
#![tactic(auto)]

ghost use Rattle.std.specs.Prelude.{◌≡◌, [], ℕ, ◌<◌, ◌≤◌, ◌^◌, length, get_or, take};
ghost use Rattle.std.proofs.Math.Option.{none};
ghost use Rattle.logic.specs.Refusals.{unless};
ghost use Rattle.description.specs.Literals.{literal};
ghost use Rattle.tables.specs.Concepts.{bound_in};
ghost use Rattle.parts.specs.Numbers.{up_to};
ghost use Rattle.list_form.specs.ListForm.{bytes_at};
ghost use Rattle.refutation.specs.Cells.{row_of, rows_of};
ghost use Rattle.rows.specs.HeldRows.{without_roles, no_row, held_at, first_at, held_row, row_refusal, there, count_row};
ghost use Rattle.rows.specs.HeldRows.{some_row, rows_held, row_in};

use nodes::opposite;
use parts::{byte, up_to};
use std::array;
use tables::{Concept, LiteralConcept, RoleNo, Side, literal_concept};

#[derive(Clone, Copy)]
pub struct Row {
    pub role: RoleNo,
    pub qualifier: u8,
    pub bound: u16,
    pub side: Side,
}

// The rows of a step: the first `count` that an array holds, or 6 if there are more. Any count may stand there, as evidence has it; inner
// functions that go by a tested one say so (`k ≤ 6`).
#[derive(Clone, Copy)]
pub struct Rows {
    pub held: [Row; 6],
    pub count: u8,
}

// From a table: of a power that is made by a shift the compiler makes a shift for each turn of a loop up to it.
const COUNTS: [usize; 7] = [1, 2, 4, 8, 16, 32, 64];

// The number of cells of `k` rows, or of 6 if there are more; cell 0 too.
pub fn cell_count(k: u8) -> usize
    ensures { (result ≡ 2 ^ up_to 6 k) × (result ≤ 64) }
{
    COUNTS[up_to(6, k as usize) as usize]
}

// A two-byte number as a word of two bytes. A bound is read as a `usize`, since counts are summed up to it; a row keeps two bytes of it.
fn narrow(n: usize) -> u16
    requires { n < 65536 }
    ensures { result ≡ n }
{
    (n % 65536) as u16
}

// The row of a count, on its own side; no other concept that is not denied gives one.
fn count_row(c: Concept) -> Option<Row>
    requires { bound_in c < 65536 }
    ensures { result ≡ count_row c }
{
    match c {
        Concept::AtLeast(m) => {
            let role = m.role;
            let side = m.side;
            Some(Row {
                role: role,
                qualifier: m.literal,
                bound: narrow(m.bound),
                side: side,
            })
        }
        Concept::Top => None,
        Concept::Name => None,
        Concept::Both(_, _) => None,
        Concept::Every(_, _) => None,
    }
}

// The row of a denied "every": at least one filler has the opposite literal.
fn some_row(c: Concept) -> Option<Row>
    ensures { result ≡ some_row c }
{
    match c {
        Concept::Every(role, l) => Some(Row {
            role: role,
            qualifier: opposite(l),
            bound: 1,
            side: Side::Lower,
        }),
        Concept::Top => None,
        Concept::Name => None,
        Concept::Both(_, _) => None,
        Concept::AtLeast(_) => None,
    }
}

// The row that literal `l` gives, if it gives one.
pub fn row_of(cs: &[u8], l: u8) -> Option<Row>
    ensures { (result ≡ held_row (row_of (without_roles cs.now []) (literal l)))
        × (row_refusal result ≡ unless (there (row_of (without_roles cs.now []) (literal l))) 17 none) }
{
    let concept = literal_concept(cs, l);
    match concept {
        LiteralConcept::Is(c) => count_row(c),
        LiteralConcept::Not(c) => some_row(c),
    }
}

// The row that stands for none.
fn no_row() -> Row
    ensures { result ≡ no_row }
{
    Row {
        role: RoleNo(0),
        qualifier: 0,
        bound: 0,
        side: Side::Lower,
    }
}

// Row `i` of the step `ds`.
fn row_in(cs: &[u8], ds: &[u8], i: usize) -> Row
    requires { i < 6 }
    ensures { result ≡ row_in cs.now ds.now i }
{
    row_of(cs, byte(ds, 2 + i)).unwrap_or(no_row())
}

// The first `k` rows of the step `ds`, or 6 if there are more; none behind them.
pub fn rows_of(cs: &[u8], ds: &[u8], k: u8) -> Rows
    ensures { (rows_held result.held (up_to 6 k) ≡ rows_of (without_roles cs.now []) (bytes_at literal ds.now 2 (up_to 6 k)))
        × ((i : ℕ) → up_to 6 k ≤ i → held_at result.held i ≡ no_row) × (result.count ≡ k) }
{
    let n = up_to(6, k as usize) as usize;
    Rows {
        held: array::from_fn(|i| if i < n { row_in(cs, ds, i) } else { no_row() }),
        count: k,
    }
}

// How many rows are lent.
fn lent_count(rows: &[Row]) -> usize
    ensures { result ≡ length rows.now }
{
    rows.len()
}

// Row `i` of the rows lent, none past them.
fn lent_row(rows: &[Row], i: usize) -> Row
    ensures { result ≡ get_or rows.now i no_row }
{
    if i < lent_count(rows) {
        rows[i]
    } else {
        no_row()
    }
}

// Row `i` of the first `k` rows that an array holds, which are lent.
fn held_row(rows: &[Row; 6], k: usize, i: usize) -> Row
    requires { k ≤ 6 }
    ensures { result ≡ get_or (take k rows.now) i no_row }
{
    lent_row(&rows[..k], i)
}

// Row `i` of these rows; none past them.
pub fn row_at(rows: &Rows, i: u8) -> Row
    ensures { result ≡ first_at rows.now.held rows.now.count i }
{
    let count = up_to(6, rows.count as usize) as usize;
    held_row(&rows.held, count, i as usize)
}
