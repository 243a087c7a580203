// What a record of a refutation cites: earlier records alone, each with its label within the label named.
#![tactic(auto)]

ghost use Rattle.std.specs.Prelude.{◌≡◌, ltb};
ghost use Rattle.std.proofs.Math.Option.{none};
ghost use Rattle.logic.specs.Refusals.{unless};
ghost use Rattle.logic.specs.Sets.{within};
ghost use Rattle.description.specs.Literals.{literal, adding};
ghost use Rattle.labels.specs.Labels.{value_of};
ghost use Rattle.evidence.specs.Evidence.{label_of};
ghost use Rattle.cites.specs.Cites.{cite_of, cite_refusal, of_entry};

use evidence::Stored;
use labels::{Label, MOST_ENTRIES, lies_within, put};
use tables::EntryNo;

// The record `j`, cited by record `i`, if it stands before that.
pub fn look_up(i: u8, j: u8) -> Option<u8>
    ensures { (result ≡ cite_of i j) × (cite_refusal result ≡ unless (ltb j i) 16 none) }
{
    if j < i { Some(j) } else { None }
}

// The three tests of a label cited stay apart: a label keeps no literal past its room, so that one test within any label would leave
// to each caller that a label cited has none there either.

// Whether the label of record `c` lies within `x` with `a` put in.
pub fn within_one(s: &Stored, c: u8, x: Label, a: u8) -> bool
    ensures { result ≡ within (label_of s.now.layout s.now.bytes.now c) (adding (value_of x) (literal a)) }
{
    lies_within(s.label(c), put(x, a))
}

// The same with two literals put in.
pub fn within_two(s: &Stored, c: u8, x: Label, a: u8, b: u8) -> bool
    ensures { result ≡ within (label_of s.now.layout s.now.bytes.now c) (adding (adding (value_of x) (literal a)) (literal b)) }
{
    lies_within(s.label(c), put(put(x, a), b))
}

// The same with entry `e` put in, or with its complement; no table has an entry past the most, and no label its literals.
pub fn within_case(s: &Stored, c: u8, x: Label, e: EntryNo, denied: bool) -> bool
    ensures { result ≡ within (label_of s.now.layout s.now.bytes.now c) (adding (value_of x) (of_entry e.0 denied)) }
{
    if MOST_ENTRIES <= e.0 {
        return lies_within(s.label(c), x);
    }
    if denied {
        return within_one(s, c, x, 2 * e.0 + 1);
    }
    within_one(s, c, x, 2 * e.0)
}
