// The pairs of a line: the inclusions, transitivity by rows as sets of elements, and roles that never share a filler.
ghost use Rattle.std.specs.Prelude.{◌≡◌, ℕ, ◌/◌, ◌<◌, ◌≤◌, length, get_or};
ghost use Rattle.logic.specs.Tests.{◌⇒◌};
ghost use Rattle.logic.specs.Bounded.{all_below};
ghost use Rattle.logic.specs.Sets.{has, within};
ghost use Rattle.lines.specs.Lines.{most_elements};
ghost use Rattle.line_reader.specs.LineSteps.{pair_in, row_of, up_by, up_at, closed_at, composes_at, separated_by};

use super::places::Line;
use lines::MOST_ELEMENTS;
use parts::{byte, mask2};
use roles::disjoint::{compatible, no_records};
use tables::RoleNo;
use words::Bits;

// Each row of the role `r`, into the table `rows`: a table that is answered lies on the stack twice.
fn lay_rows(l: &Line, r: RoleNo, rows: &mut [u64; MOST_ELEMENTS])
    ensures { length rows.old ≡ 64 → (x : ℕ) → x < l.now.size → get_or rows.new x 0 ≡ row_of l.now.bytes.now l.now.rows l.now.size r.0 x }
{
    for x in 0..l.size {
        rows[x as usize] = l.row(x, r);
    }
}

// Whether the mask `m`, if it holds `r`, holds the parents too. (`reaches_on` asks the like of two rows, which are words: one line each.)
fn goes_up(m: u16, r: RoleNo, parents: u16) -> bool
    ensures { result ≡ (has m r.0 ⇒ within parents m) }
{
    if m.has(r.0) {
        parents.is_within(m)
    } else {
        true
    }
}

// Whether each pair of role `r` is one of its parents' too. No chain here and in `row_closed`: with one, a reading takes five in a hundred
// more.
fn pairs_up(l: &Line, r: RoleNo, parents: u16) -> bool
    ensures { result ≡ up_by l.now.bytes.now l.now.rows l.now.size r.0 parents }
{
    for p in 0..l.pair_count() {
        if !goes_up(l.mask(p), r, parents) {
            return false;
        }
    }
    true
}

// The inclusions of role `r`.
fn included_at(rs: &[u8], l: &Line, r: RoleNo) -> bool
    ensures { result ≡ up_at rs.now l.now.bytes.now l.now.rows l.now.size r.0 }
{
    let parents = mask2(rs, 3 * (r.0 as usize) + 1);
    if parents == 0 {
        true
    } else {
        pairs_up(l, r, parents)
    }
}

// The inclusions.
pub(crate) fn inclusions_ok(rs: &[u8], l: &Line) -> bool
    requires { length rs.now / 3 ≤ 16 }
    ensures { result ≡ all_below (length rs.now / 3) (up_at rs.now l.now.bytes.now l.now.rows l.now.size) }
{
    (0..rs.len() / 3).all(|r| included_at(rs, l, RoleNo(r as u8)))
}

// Whether the row `next` of `y` lies within the row `row`, if that holds `y`.
fn reaches_on(row: u64, next: u64, y: u8) -> bool
    ensures { result ≡ (has row y ⇒ within next row) }
{
    if row.has(y) {
        next.is_within(row)
    } else {
        true
    }
}

// The same for the row of `x` and each row.
fn row_closed(rows: &[u64; MOST_ELEMENTS], x: u8, d: u8) -> bool
    requires { (d ≤ most_elements) × (x < most_elements) }
    ensures { result ≡ all_below d (closed_at rows.now x) }
{
    let row = rows[x as usize];
    for y in 0..d {
        if !reaches_on(row, rows[y as usize], y) {
            return false;
        }
    }
    true
}

// The same for each two rows.
fn rows_closed(rows: &[u64; MOST_ELEMENTS], d: u8) -> bool
    requires { d ≤ most_elements }
    ensures { result ≡ all_below d (λ x. all_below d (closed_at rows.now x)) }
{
    (0..d).all(|x| row_closed(rows, x, d))
}

// Whether role `t` composes with itself, if its transitive byte is 1.
fn composed_at(rs: &[u8], l: &Line, t: RoleNo) -> bool
    ensures { result ≡ composes_at rs.now l.now.size (pair_in l.now.bytes.now l.now.rows l.now.size) t.0 }
{
    if byte(rs, 3 * (t.0 as usize)) == 1 {
        let mut rows = [0; MOST_ELEMENTS];
        lay_rows(l, t, &mut rows);
        rows_closed(&rows, l.size)
    } else {
        true
    }
}

// Transitivity.
pub(crate) fn transitivity_ok(rs: &[u8], l: &Line) -> bool
    requires { length rs.now / 3 ≤ 16 }
    ensures { result ≡ all_below (length rs.now / 3) (composes_at rs.now l.now.size (pair_in l.now.bytes.now l.now.rows l.now.size)) }
{
    (0..rs.len() / 3).all(|t| composed_at(rs, l, RoleNo(t as u8)))
}

// Whether no pair has both roles of a record, by the masks `a`.
pub(crate) fn separated_ok(a: &[u16; 49], l: &Line) -> bool
    ensures { result ≡ separated_by a.now l.now.bytes.now l.now.rows l.now.size }
{
    if no_records(a) {
        return true;
    }
    (0..l.pair_count()).all(|p| compatible(a, l.mask(p)))
}
