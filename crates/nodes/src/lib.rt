// Rules 11 and 12 of a graph's record, on its label.
#![tactic(auto)]

ghost use Rattle.std.specs.Prelude.{◌≡◌, ◌+◌, ◌-◌, ◌*◌, ◌<◌, length};
ghost use Rattle.logic.specs.Bounded.{all_below};
ghost use Rattle.labels.specs.Labels.{most_entries, value_of};
ghost use Rattle.nodes.specs.NodeSteps.{opposed, with_rules, required_set, label_code, root_set, parts_in, both_at};
ghost use Rattle.tables.specs.Tables.{entry_count};

use labels::{Label, below, consistent, holds, lies_within, only, put};
use parts::byte;
use tables::{Concept, EntryNo, concept_at, entry_count};

// The opposite of a literal.
pub fn opposite(l: u8) -> u8
    ensures { result ≡ opposed l }
{
    if l % 2 == 0 { l + 1 } else { l - 1 }
}

// The set `x` with every rule put in.
fn with_rules(qs: &[u8], x: Label) -> Label
    ensures { value_of result ≡ with_rules qs.now (length qs.now - 1) (value_of x) }
{
    let mut y = x;
    // Not over the part from 1 on, which an empty question does not have.
    for i in 1..qs.len() {
        y = put(y, qs[i]);
    }
    y
}

// What a label is to have of which `want` is wanted: that, the rules and literal 0. Made twice a graph, and not once a record.
pub fn required(qs: &[u8], want: Label) -> Label
    ensures { value_of result ≡ required_set qs.now (value_of want) }
{
    put(with_rules(qs, want), 0)
}

// What a plain question wants: the root.
pub fn root_set(qs: &[u8]) -> Label
    ensures { value_of result ≡ root_set qs.now }
{
    only(byte(qs, 0))
}

// Rule 11 of a record with the label `x`, which is to have the literals `need`.
pub fn label_ok(cs: &[u8], x: Label, need: Label) -> bool
    ensures { result ≡ label_code (entry_count cs.now) (value_of x) (value_of need) }
{
    let n = entry_count(cs);
    let table = below(x, 2 * n);
    let needed = lies_within(need, x);
    let apart = consistent(x);
    table & (needed & apart)
}

// Whether the label holds the two parts of "both a b", entry `e`, or denies one with it.
fn parts_in(x: Label, e: EntryNo, a: u8, b: u8) -> bool
    requires { e.0 < most_entries }
    ensures { result ≡ parts_in (value_of x) e.0 a b }
{
    let both = !holds(x, 2 * e.0) | (holds(x, a) & holds(x, b));
    let one = !holds(x, 2 * e.0 + 1) | (holds(x, opposite(a)) | holds(x, opposite(b)));
    both & one
}

// Rule 12 of one entry.
fn both_at(cs: &[u8], x: Label, e: EntryNo) -> bool
    requires { e.0 < most_entries }
    ensures { result ≡ both_at cs.now (value_of x) e.0 }
{
    match concept_at(cs, e) {
        Concept::Both(a, b) => parts_in(x, e, a, b),
        _ => true,
    }
}

// Rule 12 of a record with the label `x`.
pub fn boths_ok(cs: &[u8], x: Label) -> bool
    ensures { result ≡ all_below (entry_count cs.now) (both_at cs.now (value_of x)) }
{
    (0..entry_count(cs)).all(|e| both_at(cs, x, EntryNo(e)))
}
