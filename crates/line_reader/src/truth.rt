// Where each entry is true: a set of elements for each, then the rules everywhere and the root somewhere.
ghost use Rattle.std.specs.Prelude.{◌≡◌, ◌+◌, ◌-◌, ◌/◌, ◌<◌, ◌≤◌, eqb, leb, length};
ghost use Rattle.logic.specs.Bounded.{all_below};
ghost use Rattle.logic.specs.Sums.{count_below};
ghost use Rattle.logic.specs.Sets.{has, nonempty, within, set_of};
ghost use Rattle.std.specs.Int.Bits.{bit_and};
ghost use Rattle.parts.specs.Numbers.{byte_at};
ghost use Rattle.labels.specs.Labels.{most_entries};
ghost use Rattle.tables.specs.Concepts.{concept_at};
ghost use Rattle.words.specs.Words.{all_of};
ghost use Rattle.line_reader.specs.LineSteps.{sized, row_of};
ghost use Rattle.line_reader.specs.TruthSteps.{set_in, literal_of, literal_set, concept_set, TruthSets};

use super::places::Line;
use super::sets::{full_set, set_size};
use labels::{MOST_ENTRIES, MOST_LITERALS};
use parts::byte;
use tables::{Concept, EntryNo, RoleNo, concept_at};
use words::{Bits, set_where};

// A table of sets has one for each entry.
const SETS: usize = MOST_ENTRIES as usize;

// The elements that have the name entry `e`.
fn named_set(l: &Line, e: EntryNo) -> u64
    ensures { result ≡ set_of l.now.size ((sized l.now.broad l.now.bytes.now l.now.size).name e.0) }
{
    set_where(l.size, |x| l.is_named(x, e.0))
}

// The set that the table `t` has for the entry of the literal `v`.
fn set_at(t: &[u64; SETS], v: u8) -> u64
    ensures { result ≡ set_in t.now (v / 2) }
{
    if v < MOST_LITERALS {
        t[(v / 2) as usize]
    } else {
        0
    }
}

// The elements at which the literal `v` is true; `x` are those at which its entry is.
fn literal_of(l: &Line, x: u64, v: u8) -> u64
    ensures { result ≡ literal_of l.now.size x v }
{
    let full = full_set(l.size);
    let own = full & x;
    if v % 2 == 0 { own } else { full - own }
}

// The same with the table `t` of all entries.
fn literal_set(l: &Line, t: &[u64; SETS], v: u8) -> u64
    ensures { result ≡ literal_set l.now.size t.now v }
{
    literal_of(l, set_at(t, v), v)
}

// The elements that reach by the role `r` elements of `q` alone.
fn every_set(l: &Line, r: RoleNo, q: u64) -> u64
    ensures { result ≡ set_of l.now.size (λ x. within (row_of l.now.bytes.now l.now.rows l.now.size r.0 x) q) }
{
    set_where(l.size, |x| l.row(x, r).is_within(q))
}

// Whether `x` reaches by the role `r` at least `n` elements of `q`.
fn enough_reached(l: &Line, x: u8, r: RoleNo, q: u64, n: usize) -> bool
    ensures { result ≡ leb n (count_below l.now.size (has (bit_and (row_of l.now.bytes.now l.now.rows l.now.size r.0 x) q))) }
{
    n <= set_size(l.row(x, r) & q, l.size)
}

// The elements that reach by the role `r` at least `n` elements of `q`.
fn least_set(l: &Line, r: RoleNo, q: u64, n: usize) -> u64
    ensures { result ≡ set_of l.now.size (λ x. leb n (count_below l.now.size
        (has (bit_and (row_of l.now.bytes.now l.now.rows l.now.size r.0 x) q)))) }
{
    set_where(l.size, |x| enough_reached(l, x, r, q, n))
}

// The elements at which entry `e` is true; `t` has those of the earlier entries.
fn entry_set(cs: &[u8], l: &Line, t: &[u64; SETS], e: EntryNo) -> u64
    ensures { result ≡ concept_set (sized l.now.broad l.now.bytes.now l.now.size) t.now e.0 (concept_at cs.now e.0) }
{
    let c = concept_at(cs, e);
    match c {
        Concept::Top => full_set(l.size),
        Concept::Name => named_set(l, e),
        Concept::Both(a, b) => literal_set(l, t, a) & literal_set(l, t, b),
        Concept::Every(r, v) => every_set(l, r, literal_set(l, t, v)),
        Concept::AtLeast(m) => {
            let role = m.role;
            least_set(l, role, literal_set(l, t, m.literal), m.bound)
        }
    }
}

// The elements at which each entry is true, in the order of the table: an entry uses earlier ones alone.
pub(crate) fn truth_sets(cs: &[u8], l: &Line) -> [u64; SETS]
    requires { length cs.now / 6 ≤ most_entries }
    ensures { TruthSets cs.now (sized l.now.broad l.now.bytes.now l.now.size) (length cs.now / 6) result }
{
    let mut out = [0; SETS];
    for e in 0..cs.len() / 6 {
        let set = entry_set(cs, l, &out, EntryNo(e as u8));
        out[e] = set;
    }
    out
}

// Whether the rule `v`, a literal, is true at every element.
fn rule_ok(l: &Line, t: &[u64; SETS], v: u8) -> bool
    ensures { result ≡ eqb (literal_set l.now.size t.now v) (all_of l.now.size) }
{
    literal_set(l, t, v) == full_set(l.size)
}

// Whether every rule is.
pub(crate) fn rules_ok(qs: &[u8], l: &Line, t: &[u64; SETS]) -> bool
    ensures { result ≡ all_below (length qs.now - 1)
        (λ i. eqb (literal_set l.now.size t.now (byte_at qs.now (i + 1))) (all_of l.now.size)) }
{
    (1..qs.len()).all(|i| rule_ok(l, t, byte(qs, i)))
}

// Whether the root is true at some element.
pub(crate) fn root_ok(qs: &[u8], l: &Line, t: &[u64; SETS]) -> bool
    ensures { result ≡ nonempty (literal_set l.now.size t.now (byte_at qs.now 0)) }
{
    0 < literal_set(l, t, byte(qs, 0))
}
