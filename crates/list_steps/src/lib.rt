// Tests 10, 16 and 17 of a refutation's record: the form of its step, what it names, and that its label follows.
#![tactic(auto)]

ghost use Rattle.std.specs.Prelude.{◌≡◌, [], true, ◌&&◌, ◌*◌, ◌/◌, ◌-◌, ltb, length};
ghost use Rattle.std.proofs.Math.Option.{none};
ghost use Rattle.logic.specs.Refusals.{unless, refuse};
ghost use Rattle.logic.specs.Sets.{within, narrow};
ghost use Rattle.description.specs.Literals.{literal, members, adding, opposite};
ghost use Rattle.description.specs.Descriptions.{entry_of_fields, is_both};
ghost use Rattle.tables.specs.Tables.{fields_at};
ghost use Rattle.labels.specs.Labels.{value_of};
ghost use Rattle.evidence.specs.Evidence.{label_of};
ghost use Rattle.refutation.specs.Records.{contradiction, conjunction, disjunction, by_rule, case_split, in_label};
ghost use Rattle.answers.specs.Answers.{refusal_of};
ghost use Rattle.answers.specs.Reasons.{number_of};
ghost use Rattle.cites.specs.Cites.{of_entry, named_refusal};
ghost use Rattle.rows.specs.HeldRows.{without_roles};
ghost use Rattle.list_form.specs.ListForm.{step_in};
ghost use Rattle.list_form.specs.FormSteps.{formed};
ghost use Rattle.list_steps.specs.StepSteps.{step_refusal, step_named};

use answers::{Reason, Refusal};
use cites::{look_up, within_case, within_one, within_two};
use evidence::Stored;
use labels::{Label, MOST_ENTRIES, below, holds};
use list_form::step_form;
use list_rows::test_rows;
use nodes::opposite;
use parts::byte;
use tables::{Concept, EntryNo, concept_at, entry_count};

// Whether the label holds entry `e`, or its complement.
fn holds_case(x: Label, e: EntryNo, denied: bool) -> bool
    ensures { result ≡ members (value_of x) (of_entry e.0 denied) }
{
    if MOST_ENTRIES <= e.0 {
        return false;
    }
    if denied {
        return holds(x, 2 * e.0 + 1);
    }
    holds(x, 2 * e.0)
}

// Whether the literal is in the label; literal 0 always is.
fn in_label(x: Label, l: u8) -> bool
    ensures { result ≡ in_label (members (value_of x)) (literal l) }
{
    let held = holds(x, l);
    held | (l == 0)
}

// Whether the label has literals of the table alone.
fn in_table(x: Label, cs: &[u8]) -> bool
    ensures { result ≡ narrow (value_of x) (2 * (length cs.now / 6)) }
{
    below(x, 2 * entry_count(cs))
}

// A record whose step is tested: its number and its label, the evidence that it cites, how that is stored, and the entries.
#[derive(Clone, Copy)]
pub struct Record<'a> {
    pub i: u8,
    pub x: Label,
    pub s: Stored<'a>,
    pub cs: &'a [u8],
}

impl<'a> Record<'a> {
    // Whether entry `e` is of the table.
    fn entry_in(&self, e: EntryNo) -> bool
        ensures { result ≡ ltb e.0 (length self.now.cs.now / 6) }
    {
        (e.0 as usize) < self.cs.len() / 6
    }

    // Its refusal for a reason, unless the test has passed.
    fn passes(&self, test: bool, reason: Reason) -> Result<(), Refusal>
        ensures { refusal_of result ≡ refuse self.now.i (unless test (number_of reason) none) none }
    {
        if test { Ok(()) } else { Err(reason.at(self.i)) }
    }

    // 16, unless the test has passed and the records `c` and `d` come before this one.
    fn cites(&self, test: bool, c: u8, d: u8) -> Result<(), Refusal>
        ensures { refusal_of result ≡ refuse self.now.i (unless (test && (ltb c self.now.i && ltb d self.now.i)) 16 none) none }
    {
        if !test {
            return Err(Reason::Cite.at(self.i));
        }
        // The owner names this form for a bad cite (docs/DECISIONS.md, section 3).
        let Some(_) = look_up(self.i, c) else {
            return Err(Reason::Cite.at(self.i));
        };
        let Some(_) = look_up(self.i, d) else {
            return Err(Reason::Cite.at(self.i));
        };
        Ok(())
    }

    // Step 1, of literal `l`: the label contradicts itself.
    fn step_1(&self, l: u8) -> Result<(), Refusal>
        ensures { refusal_of result ≡ refuse self.now.i (named_refusal (without_roles self.now.cs.now []) (λ j. 0) self.now.i
            (value_of self.now.x) (contradiction (literal l))) none }
    {
        self.passes(self.entry_in(EntryNo(l / 2)), Reason::Cite)?;
        self.passes(
            in_label(self.x, l) & in_label(self.x, opposite(l)),
            Reason::Step,
        )
    }

    // Whether entry `e` is a "both" and the label of record `c` lies within its own with the two literals.
    fn both_within(&self, e: EntryNo, c: u8) -> bool
        ensures { result ≡ is_both (λ a b. within (label_of self.now.s.layout self.now.s.bytes.now c)
            (adding (adding (value_of self.now.x) a) b))
            (entry_of_fields (fields_at self.now.cs.now e.0)) }
    {
        match concept_at(self.cs, e) {
            Concept::Both(a, b) => within_two(&self.s, c, self.x, a, b),
            Concept::Top => false,
            Concept::Name => false,
            Concept::Every(_, _) => false,
            Concept::AtLeast(_) => false,
        }
    }

    // Step 2, by the "both" `e` of the label.
    fn step_2(&self, e: EntryNo, c: u8) -> Result<(), Refusal>
        ensures { refusal_of result ≡ refuse self.now.i (named_refusal (without_roles self.now.cs.now [])
            (label_of self.now.s.layout self.now.s.bytes.now) self.now.i (value_of self.now.x) (conjunction e.0 c)) none }
    {
        self.cites(self.entry_in(e), c, c)?;
        self.passes(
            holds_case(self.x, e, false) & self.both_within(e, c),
            Reason::Step,
        )
    }

    // Whether entry `e` is a "both" and the labels of records `c` and `d` lie within its own with the opposite of the first literal, of
    // the second.
    fn sides_within(&self, e: EntryNo, c: u8, d: u8) -> bool
        ensures { result ≡ is_both (λ a b. within (label_of self.now.s.layout self.now.s.bytes.now c)
            (adding (value_of self.now.x) (opposite a))
            && within (label_of self.now.s.layout self.now.s.bytes.now d) (adding (value_of self.now.x) (opposite b)))
            (entry_of_fields (fields_at self.now.cs.now e.0)) }
    {
        match concept_at(self.cs, e) {
            Concept::Both(a, b) => {
                let first = within_one(&self.s, c, self.x, opposite(a));
                first & within_one(&self.s, d, self.x, opposite(b))
            }
            Concept::Top => false,
            Concept::Name => false,
            Concept::Every(_, _) => false,
            Concept::AtLeast(_) => false,
        }
    }

    // Step 3, by the "both" `e` that the label denies.
    fn step_3(&self, e: EntryNo, c: u8, d: u8) -> Result<(), Refusal>
        ensures { refusal_of result ≡ refuse self.now.i (named_refusal (without_roles self.now.cs.now [])
            (label_of self.now.s.layout self.now.s.bytes.now) self.now.i (value_of self.now.x) (disjunction e.0 c d)) none }
    {
        self.cites(self.entry_in(e), c, d)?;
        self.passes(
            holds_case(self.x, e, true) & self.sides_within(e, c, d),
            Reason::Step,
        )
    }

    // Step 4, by rule `q` of the query.
    fn step_4(&self, qs: &[u8], q: u8, c: u8) -> Result<(), Refusal>
        ensures { refusal_of result ≡ refuse self.now.i (named_refusal (without_roles self.now.cs.now qs.now)
            (label_of self.now.s.layout self.now.s.bytes.now) self.now.i (value_of self.now.x) (by_rule q c)) none }
    {
        let n = (q as usize) + 1;
        self.cites(n < qs.len(), c, c)?;
        self.passes(within_one(&self.s, c, self.x, byte(qs, n)), Reason::Step)
    }

    // Step 5, by both cases of entry `e`.
    fn step_5(&self, e: EntryNo, c: u8, d: u8) -> Result<(), Refusal>
        ensures { refusal_of result ≡ refuse self.now.i (named_refusal (without_roles self.now.cs.now [])
            (label_of self.now.s.layout self.now.s.bytes.now) self.now.i (value_of self.now.x) (case_split e.0 c d)) none }
    {
        self.cites(self.entry_in(e), c, d)?;
        let held = within_case(&self.s, c, self.x, e, false);
        self.passes(
            held & within_case(&self.s, d, self.x, e, true),
            Reason::Step,
        )
    }

    // 16 and 17 of the step `ds`, whose form was tested.
    fn test_named(&self, qs: &[u8], ds: &[u8]) -> Result<(), Refusal>
        requires { formed (step_in self.now.s.layout.marks ds.now) ≡ true }
        ensures { refusal_of result ≡ refuse self.now.i (step_named (without_roles self.now.cs.now qs.now)
            (label_of self.now.s.layout self.now.s.bytes.now) self.now.i (value_of self.now.x)
            (step_in self.now.s.layout.marks ds.now)) none }
    {
        // By the byte that the form was tested by, as `step_form` says.
        let step = byte(ds, 0);
        let a = byte(ds, 1);
        let b = byte(ds, 2);
        let c = byte(ds, 3);
        match step {
            1 => self.step_1(a),
            2 => self.step_2(EntryNo(a), b),
            3 => self.step_3(EntryNo(a), b, c),
            4 => self.step_4(qs, a, b),
            5 => self.step_5(EntryNo(a), b, c),
            _ => test_rows(self.cs, self.i, self.x, ds, a, self.s.layout.marks),
        }
    }

    // 10, 16 and 17 of the step `ds`.
    pub fn test_step(&self, qs: &[u8], ds: &[u8]) -> Result<(), Refusal>
        ensures { refusal_of result ≡ refuse self.now.i (step_refusal (without_roles self.now.cs.now qs.now)
            (label_of self.now.s.layout self.now.s.bytes.now) self.now.i (value_of self.now.x)
            (step_in self.now.s.layout.marks ds.now)) none }
    {
        self.passes(step_form(ds), Reason::Form)?;
        self.passes(in_table(self.x, self.cs), Reason::Cite)?;
        self.test_named(qs, ds)
    }
}
