// Test 18 of a counting step: whether the roles of a cell bar it; if not, what every filler of it has, and that the record cited for it
// has no more.
#![tactic(auto)]

ghost use Rattle.std.specs.Prelude.{◌≡◌, cond, not, false, eqb, is_ok};
ghost use Rattle.std.proofs.Math.Option.{none, some};
ghost use Rattle.parts.specs.Numbers.{up_to};
ghost use Rattle.labels.specs.Labels.{value_of};
ghost use Rattle.evidence.specs.Evidence.{label_of};
ghost use Rattle.rows.specs.HeldRows.{rows_held};
ghost use Rattle.roles.specs.Disjoint.{compatible_by};
ghost use Rattle.refutation.specs.RecordTests.{cell_fits};
ghost use Rattle.list_form.specs.ListForm.{cell_of};
ghost use Rattle.list_cells.specs.CellSteps.{cell_fine, cells_code};
ghost use Rattle.list_cells.specs.CellAnswers.{answer_by, answer_of, mark_of, ended};
ghost use Rattle.cell_walk.specs.Walks.{Tally};

use cell_labels::{above_of, against_of, known_label, own_of, shown_of};
use cell_walk::{cell_roles, next_cell};
use evidence::Stored;
use labels::{Label, lies_within};
use list_form::is_mark;
use parts::{byte, up_to};
use roles::disjoint::compatible;
use rows::{Rows, cell_count};

// What each row of a step gives to the cells: the mask of its role, what it shows of its own cells, and what of others that have its role.
// Three arrays, and no array of structs: each is made by a function that tells it (`own_of`, `shown_of`, `against_of`).
#[derive(Clone, Copy)]
struct ByRow {
    own: [u16; 6],
    shown: [Label; 6],
    against: [u8; 6],
}

impl ByRow {
    // What every filler of cell `c` has, which has these roles; none if they bar it.
    fn cell_answer(&self, m: &[u16; 49], roles: u16, c: u8) -> Option<Label>
        ensures { (answer_of result ≡ answer_by m.now roles self.now.own self.now.shown self.now.against c)
            × (mark_of result ≡ cond (compatible_by m.now roles) none (some 254)) }
    {
        if compatible(m, roles) {
            return Some(known_label(roles, &self.own, &self.shown, &self.against, c));
        }
        None
    }
}

// Test 18 of a cell whose byte `cell` is a mark: it is open if one pair may have the roles, and barred if not.
fn mark_ok(m: &[u16; 49], roles: u16, cell: u8) -> bool
    ensures { result ≡ cond (eqb cell 255) (compatible_by m.now roles) (not (compatible_by m.now roles)) }
{
    let free = compatible(m, roles);
    if cell == 255 { free } else { !free }
}

// Where a walk over cells ended: the cell that it came to, and how many rows came in or went out on the way. `Tally` tells both of a walk
// that failed too, so that either case of its Result has one.
#[derive(Clone, Copy)]
struct Walk {
    cells: u8,
    changes: u8,
}

// A walk that ended at cell `c`.
fn ended_at(c: u8, n: u8) -> Walk
    ensures { (result.cells ≡ c) × (result.changes ≡ n) }
{
    Walk {
        cells: c,
        changes: n,
    }
}

// What test 18 of a step's cells goes by: the label of its record, the evidence that they cite, the masks of the roles, and the entries.
#[derive(Clone, Copy)]
pub struct CellTest<'a> {
    pub x: Label,
    pub s: Stored<'a>,
    pub m: &'a [u16; 49],
    pub cs: &'a [u8],
}

impl<'a> CellTest<'a> {
    // Test 18 of cell `c`, which has these roles and the byte `cell`. What is known of a cell is found only if a record shows it empty.
    fn cell_ok(&self, by: &ByRow, roles: u16, c: u8, cell: u8) -> bool
        ensures { result ≡ cell_fits (label_of self.now.s.layout self.now.s.bytes.now)
            (answer_by self.now.m.now roles by.now.own by.now.shown by.now.against c) (cell_of self.now.s.layout.marks cell) }
    {
        if is_mark(cell, self.s.layout.marks) {
            return mark_ok(self.m, roles, cell);
        }
        // The cited label first, so that what is known need not be kept while it is read.
        let shut_by = self.s.label(cell);
        let Some(known) = by.cell_answer(self.m, roles, c) else {
            return false;
        };
        lies_within(shut_by, known)
    }

    // Test 18, cell by cell, up to the first that fails, at which the walk is an `Err`. The roles are carried from each cell to the next.
    fn walk_cells(&self, rows: &Rows, ds: &[u8]) -> Result<Walk, Walk>
        ensures { Tally (up_to 6 rows.now.count) (cell_fine self.now.s.layout.marks self.now.cs.now self.now.m.now
            (label_of self.now.s.layout self.now.s.bytes.now) (value_of self.now.x)
            (rows_held rows.now.held (up_to 6 rows.now.count)) ds.now (up_to 6 rows.now.count)) (is_ok result) (ended result).cells (ended result).changes }
    {
        let n = up_to(6, rows.count as usize);
        let end = cell_count(rows.count) as u8;
        let above = above_of(self.m, rows);
        let own = own_of(rows);
        let against = against_of(rows);
        let shown = shown_of(self.cs, self.m, self.x, rows, above);
        let by = ByRow {
            own,
            shown,
            against,
        };
        let mut from: [u16; 7] = [0; 7];
        let mut changes: u8 = 0;
        for c in 1..end {
            changes += next_cell(&mut from, &above, c - 1);
            let cell = byte(ds, (1 + n + c) as usize);
            if !self.cell_ok(&by, cell_roles(&from), c, cell) {
                return Err(ended_at(c, changes));
            }
        }
        Ok(ended_at(end - 1, changes))
    }

    // Test 18: a cell is marked as barred exactly if its roles bar it, and one that cites a record has the record's label within its known
    // label.
    pub fn cells_ok(&self, rows: &Rows, ds: &[u8]) -> bool
        ensures { result ≡ cells_code self.now.s.layout.marks self.now.cs.now self.now.m.now
            (label_of self.now.s.layout self.now.s.bytes.now)
            (value_of self.now.x) (rows_held rows.now.held (up_to 6 rows.now.count)) ds.now (up_to 6 rows.now.count) }
    {
        self.walk_cells(rows, ds).is_ok()
    }
}
