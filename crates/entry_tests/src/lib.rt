// Tests 5, 6 and 7 of the entries of a description, by their fields and the role records.
#![tactic(auto)]

pub mod everys;

ghost use Rattle.std.specs.Prelude.{◌≡◌, not, ◌||◌, ltb};
ghost use Rattle.logic.specs.Bounded.{all_below};
ghost use Rattle.description.specs.Descriptions.{same_fields};
ghost use Rattle.tables.specs.Concepts.{fields_in};
ghost use Rattle.tables.specs.Tables.{entry_count, fields_at};
ghost use Rattle.entry_tests.specs.Entries.{simple_at, twin_at};

use roles::Role;
use tables::{EntryNo, Fields, entry_count, fields_at};

// Test 5 of the entry with the fields `g`, by the record of its role. Tests 5 to 7 go by fields and not by the concept: what they promise
// is of every part, also of one that test 4 refuses.
fn counts_simple(g: Fields, x: Role) -> bool
    ensures { result ≡ (ltb g.kind 4 || x.simple) }
{
    (g.kind < 4) | x.simple
}

// Test 5 of one entry.
pub fn simple_ok(cs: &[u8], e: EntryNo, t: &[Role; 16]) -> bool
    ensures { result ≡ simple_at cs.now t.now e.0 }
{
    let g = fields_at(cs, e);
    counts_simple(g, t[(g.role % 16) as usize])
}

// Test 5.
pub fn simples_ok(cs: &[u8], t: &[Role; 16]) -> bool
    ensures { result ≡ all_below (entry_count cs.now) (simple_at cs.now t.now) }
{
    (0..entry_count(cs)).all(|e| simple_ok(cs, EntryNo(e), t))
}

// Whether entry `e` has the fields `b`. Most entries differ in the role or in the first literal: the rest is then not read. A derived
// `==` would begin with the kind, which most entries share.
fn is_twin(cs: &[u8], e: EntryNo, b: Fields) -> bool
    ensures { result ≡ same_fields (fields_at cs.now e.0) (fields_in b) }
{
    let a = fields_at(cs, e);
    if a.role != b.role {
        return false;
    }
    if a.first != b.first {
        return false;
    }
    (a.kind == b.kind) & ((a.second == b.second) & (a.number == b.number))
}

// Test 6 of entry `f`, against the earlier ones. Kinds 0 and 1 may be there twice.
pub fn distinct_ok(cs: &[u8], f: EntryNo) -> bool
    ensures { result ≡ all_below f.0 (λ e. not (twin_at cs.now f.0 e)) }
{
    let b = fields_at(cs, f);
    if b.kind < 2 {
        return true;
    }
    (0..f.0).all(|e| !is_twin(cs, EntryNo(e), b))
}
