// Tests 9, 10 and 16 to 20 of a list.
#![tactic(auto)]

ghost use Rattle.std.specs.Prelude.{◌≡◌, [], ◌≤◌};
ghost use Rattle.std.proofs.Math.Option.{none};
ghost use Rattle.logic.specs.Refusals.{refuse, refuse_from};
ghost use Rattle.description.specs.Literals.{literal};
ghost use Rattle.labels.specs.Labels.{value_of};
ghost use Rattle.evidence.specs.Evidence.{label_of, edges_part};
ghost use Rattle.refutation.specs.Cells.{rows_of};
ghost use Rattle.answers.specs.Answers.{refusal_of};
ghost use Rattle.list_form.specs.ListForm.{bytes_at};
ghost use Rattle.rows.specs.HeldRows.{without_roles, rows_held};
ghost use Rattle.list_check.specs.CheckSteps.{form_code, form_of, count_code, step_code, record_code, end_code, records_code, list_code};

use answers::{Reason, Refusal, first_refused};
use cites::within_one;
use evidence::{Head, Stored, layout_of, read_head};
use intake::Opening;
use labels::Label;
use list_cells::CellTest;
use list_form::step_form;
use list_steps::Record;
use list_tree::tree_closes;
use parts::byte;
use rows::{Rows, rows_of};

// A list as it is tested, with the opened description.
#[derive(Clone, Copy)]
struct List<'a> {
    s: Stored<'a>,
    o: &'a Opening<'a>,
}

impl<'a> List<'a> {
    // Whether record `i` has the form of a step.
    fn form_ok(&self, i: u8) -> bool
        ensures { result ≡ form_code self.now.s.layout.marks (edges_part self.now.s.layout self.now.s.bytes.now) i }
    {
        step_form(self.s.rest(i))
    }

    // Test 10 of record `i`.
    fn test_form(&self, i: u8) -> Result<(), Refusal>
        ensures { let s = self.now.s in refusal_of result ≡ refuse i (form_of s.layout.marks (edges_part s.layout s.bytes.now) i) none }
    {
        if !self.form_ok(i) {
            return Err(Reason::Form.at(i));
        }
        Ok(())
    }

    // Test 10 of the `n` records.
    fn test_forms(&self, n: u8) -> Result<(), Refusal>
        ensures { let s = self.now.s in refusal_of result ≡ refuse_from (form_of s.layout.marks (edges_part s.layout s.bytes.now)) n 0 none }
    {
        first_refused(n, |i| self.test_form(i))
    }

    // Tests 18 and 19 of the counting step `ds` of record `i` with the label `x`, which has these rows.
    fn test_held(&self, i: u8, x: Label, ds: &[u8], rows: &Rows) -> Result<(), Refusal>
        requires { (rows.now.count ≤ 6) × (rows_held rows.now.held rows.now.count
            ≡ rows_of (without_roles self.now.o.now.concepts.now []) (bytes_at literal ds.now 2 rows.now.count)) }
        ensures { refusal_of result ≡ refuse i (count_code self.now.s.layout.marks self.now.o.now.masks self.now.o.now.concepts.now
            (label_of self.now.s.layout self.now.s.bytes.now) (value_of x) ds.now rows.now.count) none }
    {
        let cells = CellTest {
            x,
            s: self.s,
            m: &self.o.masks,
            cs: self.o.concepts,
        };
        if !cells.cells_ok(rows, ds) {
            return Err(Reason::Cell.at(i));
        }
        if !tree_closes(rows, ds) {
            return Err(Reason::Tree.at(i));
        }
        Ok(())
    }

    // The same with the `k` rows read.
    fn test_count(&self, i: u8, x: Label, ds: &[u8], k: u8) -> Result<(), Refusal>
        requires { k ≤ 6 }
        ensures { refusal_of result ≡ refuse i (count_code self.now.s.layout.marks self.now.o.now.masks self.now.o.now.concepts.now
            (label_of self.now.s.layout self.now.s.bytes.now) (value_of x) ds.now k) none }
    {
        let rows = rows_of(self.o.concepts, ds, k);
        self.test_held(i, x, ds, &rows)
    }

    // Tests 10 and 16 to 19 of record `i` with the label `x` and the step `ds`.
    fn test_labelled(&self, i: u8, x: Label, ds: &[u8]) -> Result<(), Refusal>
        ensures { refusal_of result ≡ refuse i (step_code self.now.s.layout.marks self.now.o.now.masks self.now.o.now.concepts.now
            self.now.o.now.query.now
            (label_of self.now.s.layout self.now.s.bytes.now) i (value_of x) ds.now) none }
    {
        let record = Record {
            i,
            x,
            s: self.s,
            cs: self.o.concepts,
        };
        record.test_step(self.o.query, ds)?;
        // The step is the byte that its form was tested by.
        if byte(ds, 0) == 6 {
            return self.test_count(i, x, ds, byte(ds, 1));
        }
        Ok(())
    }

    // Tests 10 and 16 to 19 of record `i`.
    fn test_record(&self, i: u8) -> Result<(), Refusal>
        ensures { refusal_of result ≡ refuse i (record_code self.now.s.layout.marks self.now.o.now.masks self.now.o.now.concepts.now
            self.now.o.now.query.now
            (label_of self.now.s.layout self.now.s.bytes.now) (edges_part self.now.s.layout self.now.s.bytes.now) i) none }
    {
        let x = self.s.label(i);
        self.test_labelled(i, x, self.s.rest(i))
    }

    // Tests 10 and 16 to 19 of the `n` records, rising.
    fn test_records(&self, n: u8) -> Result<(), Refusal>
        ensures { refusal_of result ≡ refuse_from (record_code self.now.s.layout.marks self.now.o.now.masks self.now.o.now.concepts.now
            self.now.o.now.query.now
            (label_of self.now.s.layout self.now.s.bytes.now) (edges_part self.now.s.layout self.now.s.bytes.now)) n 0 none }
    {
        first_refused(n, |i| self.test_record(i))
    }

    // Test 20: the label of record `last` holds nothing but literal 0 and what is wanted.
    fn test_end(&self, want: Label, last: u8) -> Result<(), Refusal>
        ensures { refusal_of result ≡ refuse last (end_code (value_of want) (label_of self.now.s.layout self.now.s.bytes.now) last) none }
    {
        if !within_one(&self.s, last, want, 0) {
            return Err(Reason::End.at(last));
        }
        Ok(())
    }

    // Tests 10 and 16 to 20 of the `n` records.
    fn test_all(&self, want: Label, n: u8) -> Result<(), Refusal>
        requires { 1 ≤ n }
        ensures { refusal_of result ≡ records_code self.now.s.layout.marks self.now.o.now.masks self.now.o.now.concepts.now
            self.now.o.now.query.now (value_of want)
            (label_of self.now.s.layout self.now.s.bytes.now) (edges_part self.now.s.layout self.now.s.bytes.now) n }
    {
        self.test_forms(n)?;
        self.test_records(n)?;
        self.test_end(want, n - 1)
    }
}

// Tests 9, 10 and 16 to 20 of the list `s`, which is to end within literal 0 and `want`, for an opened description.
pub fn test_list(o: &Opening, want: Label, s: &[u8]) -> Result<(), Refusal>
    ensures { let d = o.now in refusal_of result ≡ list_code d.marks d.masks d.concepts.now d.query.now (value_of want) s.now }
{
    let list = List {
        s: Stored {
            bytes: s,
            layout: layout_of(o.concepts, o.marks),
        },
        o,
    };
    let off = Reason::Head.whole();
    match read_head(s) {
        Some(Head::RefutationOf(n)) => list.test_all(want, n),
        // An arm for each head that is none of a list: that neither passes is guarded in each.
        Some(Head::GraphOf(_)) => Err(off),
        None => Err(off),
    }
}
