// Rules 14 and 15 of a graph's record: what "every" and "at least" ask of the fillers that its edges give.
#![tactic(auto)]

mod targets;

ghost use Rattle.std.specs.Prelude.{◌≡◌, ◌&&◌, ◌*◌, ◌<◌, leb, ltb};
ghost use Rattle.std.proofs.Math.Option.{none};
ghost use Rattle.logic.specs.Tests.{◌⇒◌};
ghost use Rattle.logic.specs.Refusals.{unless, refuse};
ghost use Rattle.labels.specs.Labels.{most_entries, value_of};
ghost use Rattle.evidence.specs.Evidence.{label_of};
ghost use Rattle.answers.specs.Answers.{refusal_of};
ghost use Rattle.fillers.specs.FillerSteps.{all_have, some_has, all_decide, fillers};
ghost use Rattle.fillers.specs.FillerSteps.{every_holds, every_with, everys_with, least_holds, least_at, counts_code};

use answers::{Reason, Refusal};
use evidence::{MOST_EDGES, Stored};
use labels::{Label, MOST_ENTRIES, entries_of, holds};
use nodes::opposite;
use tables::{Concept, Count, EntryNo, RoleNo, concept_at, entry_count};
use targets::{Rows, TABLE, Targets};
use words::Bits;

// Whether each edge of role `r` leads to a label with `l`, if `held`, and with `m`, if `on`: in one pass if both are asked.
fn both_if(held: bool, on: bool, t: &Targets, r: RoleNo, l: u8, m: u8) -> bool
    ensures { let have = all_have (label_of t.now.s.layout t.now.s.bytes.now) t.now.es.now r.0 in
        result ≡ ((held ⇒ have l) && (on ⇒ have m)) }
{
    if held & on {
        return t.all_have_both(r, l, m);
    }
    let kept = !held || t.all_have(r, l);
    let passed = !on || t.all_have(r, m);
    kept & passed
}

// Rule 14 of "every r l", entry `e`; `on` says that the edges of role `r` carry it on.
fn every_holds(t: &Targets, x: Label, on: bool, e: EntryNo, r: RoleNo, l: u8) -> bool
    requires { e.0 < most_entries }
    ensures { result ≡ every_holds (label_of t.now.s.layout t.now.s.bytes.now) t.now.es.now (value_of x) on e.0 r.0 l }
{
    let kept = both_if(holds(x, 2 * e.0), on, t, r, l, 2 * e.0);
    let broken = !holds(x, 2 * e.0 + 1) || t.some_has(r, opposite(l));
    kept & broken
}

// Rule 14 of one entry; `on` says that the edges of its role carry it on.
fn every_at(cs: &[u8], on: bool, x: Label, t: &Targets, e: EntryNo) -> bool
    requires { e.0 < most_entries }
    ensures { result ≡ every_with cs.now (label_of t.now.s.layout t.now.s.bytes.now) on (value_of x) t.now.es.now e.0 }
{
    match concept_at(cs, e) {
        Concept::Every(r, l) => every_holds(t, x, on, e, r, l),
        _ => true,
    }
}

// Rule 14 of a record with the label `x`, with the table of sources.
fn everys_ok(cs: &[u8], src: &[u64; MOST_ENTRIES as usize], x: Label, t: &Targets) -> bool
    ensures { result ≡ everys_with cs.now (label_of t.now.s.layout t.now.s.bytes.now) src.now (value_of x) t.now.es.now }
{
    let own = entries_of(x);
    (0..entry_count(cs)).all(|e| every_at(cs, own.meets(src[e as usize]), x, t, EntryNo(e)))
}

// Rule 15 of "at least", entry `e`, with what it counts.
fn least_holds(t: &Targets, x: Label, e: EntryNo, m: Count) -> bool
    requires { e.0 < most_entries }
    ensures { result ≡ least_holds (label_of t.now.s.layout t.now.s.bytes.now) t.now.es.now (value_of x) e.0 m.role.0 m.literal m.bound }
{
    let reached = !holds(x, 2 * e.0) || m.bound <= t.count(m.role, m.literal);
    let missed = !holds(x, 2 * e.0 + 1)
        || (t.count(m.role, m.literal) < m.bound && t.all_decided(m.role, m.literal));
    reached & missed
}

// Rule 15 of one entry.
fn least_at(cs: &[u8], x: Label, t: &Targets, e: EntryNo) -> bool
    requires { e.0 < most_entries }
    ensures { result ≡ least_at cs.now (label_of t.now.s.layout t.now.s.bytes.now) (value_of x) t.now.es.now e.0 }
{
    match concept_at(cs, e) {
        Concept::AtLeast(m) => least_holds(t, x, e, m),
        _ => true,
    }
}

// Rule 15 of a record with the label `x`.
fn counts_ok(cs: &[u8], x: Label, t: &Targets) -> bool
    ensures { result ≡ counts_code cs.now (label_of t.now.s.layout t.now.s.bytes.now) (value_of x) t.now.es.now }
{
    (0..entry_count(cs)).all(|e| least_at(cs, x, t, EntryNo(e)))
}

// A record of the evidence `s` whose fillers are asked about: its number, its label and its edges.
#[derive(Clone, Copy)]
pub struct Record<'a> {
    pub i: u8,
    pub x: Label,
    pub es: &'a [u8],
    pub s: Stored<'a>,
}

// Rules 14 and 15 of a record, with the table of sources.
pub fn test_fillers(
    cs: &[u8],
    src: &[u64; MOST_ENTRIES as usize],
    record: &Record,
) -> Result<(), Refusal>
    ensures { let r = record.now in let label = label_of r.s.layout r.s.bytes.now in
        refusal_of result ≡ refuse r.i (unless (everys_with cs.now label src.now (value_of r.x) r.es.now) 14
        (unless (counts_code cs.now label (value_of r.x) r.es.now) 15 none)) none }
{
    let mut rows = Rows {
        masks: [0; MOST_EDGES],
        counts: [0; MOST_EDGES],
        words: [0; TABLE],
    };
    rows.gather(&record.s, record.es);
    let targets = Targets {
        s: record.s,
        es: record.es,
        rows: &rows,
    };
    if !everys_ok(cs, src, record.x, &targets) {
        return Err(Reason::Every.at(record.i));
    }
    if !counts_ok(cs, record.x, &targets) {
        return Err(Reason::Count.at(record.i));
    }
    Ok(())
}
