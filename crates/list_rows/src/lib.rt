// Tests 16 and 17 of a counting step: its rows and what its cells cite.
#![tactic(auto)]

ghost use Rattle.std.specs.Prelude.{◌≡◌, [], ◌+◌, ◌^◌, ◌<◌, ◌≤◌};
ghost use Rattle.std.proofs.Math.Option.{none};
ghost use Rattle.logic.specs.Bounded.{all_below};
ghost use Rattle.logic.specs.Refusals.{unless, refuse};
ghost use Rattle.parts.specs.Numbers.{up_to};
ghost use Rattle.labels.specs.Labels.{value_of};
ghost use Rattle.answers.specs.Answers.{refusal_of};
ghost use Rattle.rows.specs.HeldRows.{without_roles};
ghost use Rattle.list_rows.specs.RowSteps.{in_table, named_at, rises_at, cites_at, rows_refusal, count_of};

use answers::{Reason, Refusal};
use cites::look_up;
use labels::{Label, holds};
use list_form::is_mark;
use parts::{byte, up_to};
use rows::{cell_count, row_of};

// Whether row literal `j` is of the table.
fn row_in_table(cs: &[u8], ds: &[u8], j: u8) -> bool
    requires { j < 6 }
    ensures { result ≡ in_table cs.now ds.now j }
{
    ((byte(ds, 2 + (j as usize)) / 2) as usize) < cs.len() / 6
}

// Whether each of `k` row literals is of the table.
fn rows_in_table(cs: &[u8], ds: &[u8], k: u8) -> bool
    requires { k ≤ 6 }
    ensures { result ≡ all_below k (in_table cs.now ds.now) }
{
    (0..k).all(|j| row_in_table(cs, ds, j))
}

// 16 of cell `c` of a step of record `i` with `k` rows: it has a mark, or cites a record before. `marks`: barred cells have one.
fn test_cell(ds: &[u8], k: u8, i: u8, c: usize, marks: bool) -> Result<(), Refusal>
    requires { (k ≤ 6) × (c < 64) }
    ensures { refusal_of result ≡ refuse i (unless (cites_at marks ds.now k i c) 16 none) none }
{
    if c == 0 {
        return Ok(());
    }
    let j = byte(ds, 1 + (k as usize) + c);
    if is_mark(j, marks) {
        return Ok(());
    }
    // The owner names this form for a bad cite (docs/DECISIONS.md, section 3).
    let Some(_) = look_up(i, j) else {
        return Err(Reason::Cite.at(i));
    };
    Ok(())
}

// 16 of the cells of a step of record `i`.
fn test_cells(ds: &[u8], k: u8, i: u8, marks: bool) -> Result<(), Refusal>
    requires { k ≤ 6 }
    ensures { refusal_of result ≡ refuse i (unless (all_below (2 ^ k) (cites_at marks ds.now k i)) 16 none) none }
{
    for c in 0..cell_count(k) {
        test_cell(ds, k, i, c, marks)?;
    }
    Ok(())
}

// Whether row literal `j` is in the label and gives a row.
fn row_named(cs: &[u8], x: Label, ds: &[u8], j: u8) -> bool
    requires { j < 6 }
    ensures { result ≡ named_at cs.now (value_of x) ds.now j }
{
    let l = byte(ds, 2 + (j as usize));
    holds(x, l) && row_of(cs, l).is_some()
}

// Whether each of `k` row literals is in the label and gives a row.
fn rows_named(cs: &[u8], x: Label, ds: &[u8], k: u8) -> bool
    requires { k ≤ 6 }
    ensures { result ≡ all_below k (named_at cs.now (value_of x) ds.now) }
{
    (0..k).all(|j| row_named(cs, x, ds, j))
}

// Whether row literal `j` is below the next, if there is a next.
fn row_rises(ds: &[u8], k: u8, j: u8) -> bool
    requires { j < 6 }
    ensures { result ≡ rises_at ds.now k j }
{
    if j + 1 < k {
        byte(ds, 2 + (j as usize)) < byte(ds, 3 + (j as usize))
    } else {
        true
    }
}

// Whether the `k` row literals rise.
fn rows_rise(ds: &[u8], k: u8) -> bool
    requires { k ≤ 6 }
    ensures { result ≡ all_below k (rises_at ds.now k) }
{
    (0..k).all(|j| row_rises(ds, k, j))
}

// Tests 16 and 17 of the counting step `ds` of record `i`, whose label is `x`; of more than 6 rows the first 6 are read.
pub fn test_rows(
    cs: &[u8],
    i: u8,
    x: Label,
    ds: &[u8],
    rows: u8,
    marks: bool,
) -> Result<(), Refusal>
    ensures { refusal_of result ≡ refuse i (rows_refusal (without_roles cs.now []) i (value_of x)
        (count_of marks ds.now (up_to 6 rows))) none }
{
    let k = up_to(6, rows as usize);
    if !rows_in_table(cs, ds, k) {
        return Err(Reason::Cite.at(i));
    }
    test_cells(ds, k, i, marks)?;
    if !rows_named(cs, x, ds, k) {
        return Err(Reason::Step.at(i));
    }
    if !rows_rise(ds, k) {
        return Err(Reason::Step.at(i));
    }
    Ok(())
}
