// Test 7: with an "every R l" stands the "every T l" of each transitive role T that is included in R.
ghost use Rattle.std.specs.Prelude.{◌≡◌, ◌&&◌, ℕ, ◌<◌, ◌≤◌, eqb, ltb, get_or};
ghost use Rattle.logic.specs.Bounded.{all_below, any_below};
ghost use Rattle.parts.specs.Numbers.{up_to};
ghost use Rattle.words.specs.Words.{put_in};
ghost use Rattle.tables.specs.Tables.{entry_count};
ghost use Rattle.roles.specs.Records.{role_at};
ghost use Rattle.entry_tests.specs.Everys.{below_is, LowerOf, every_put, everys_in, every_by, every_at};

use parts::up_to;
use roles::Role;
use std::array;
use tables::{EntryNo, Fields, RoleNo, entry_count, fields_at};
use words::Bits;

// Whether the role of this record is transitive and included in role `r`.
fn is_below(x: Role, r: RoleNo) -> bool
    ensures { result ≡ below_is x r.0 }
{
    (x.transitive == 1) & x.ancestors.has(r.0)
}

// The sets `a`, one for each role, with role `i`, of record `x`, in each where it belongs.
fn with_role(a: [u16; 16], i: u8, x: Role) -> [u16; 16]
    ensures { (r : ℕ) → r < 16 → get_or result r 0 ≡ put_in (get_or a r 0) i (ltb i 16 && below_is x r) }
{
    array::from_fn(|r| a[r].put(i, is_below(x, RoleNo(r as u8))))
}

// For each role the transitive roles that are included in it, of the first `n` records. The table is lent whole beside their number, and
// is no slice of `n`: the contracts here and of tests 5 and 26 (`every_at`, `simple_at`, `disjoint_kept`) are of all 16 records. Role by
// role of those that are put in: the compiler takes eight of the others at once.
fn lower_roles(t: &[Role; 16], n: u8) -> [u16; 16]
    requires { n ≤ 16 }
    ensures { LowerOf t.now n result }
{
    let mut out: [u16; 16] = [0; 16];
    for i in 0..n {
        // No proof is made of `out = with_role(out, ..)`.
        let next = with_role(out, i, t[i as usize]);
        out = next;
    }
    out
}

// The mask `m` of literal `l` with the role of the entry with these fields, if that is an "every" of the literal. Fields, and not the
// concept: test 7 tells what it answers of entries that test 4 refuses, too.
fn with_every(m: u16, g: Fields, l: u8) -> u16
    ensures { result ≡ every_put m g l }
{
    m.put(g.role, (g.kind == 3) & (g.first == l))
}

// For each literal `l` below 128, the roles T that there is an entry "every T l" of.
fn everys_of(cs: &[u8]) -> [u16; 128]
    ensures { (l : ℕ) → l < 128 → get_or result l 0 ≡ everys_in cs.now l }
{
    let n = entry_count(cs);
    let mut out: [u16; 128] = [0; 128];
    for e in 0..n {
        let g = fields_at(cs, EntryNo(e));
        let l = g.first % 128;
        out[l as usize] = with_every(out[l as usize], g, l);
    }
    out
}

// Test 7 of the entry with the fields `g`, with the tables of `lower_roles` and `everys_of`. Two tables that are lent, and no struct of
// both: a function that gives one back takes 576 bytes more of the panel's stack.
fn every_ok(g: Fields, lower: &[u16; 16], held: &[u16; 128]) -> bool
    ensures { result ≡ every_by g lower.now held.now }
{
    if g.kind == 3 {
        lower[(g.role % 16) as usize].is_within(held[(g.first % 128) as usize])
    } else {
        true
    }
}

// Test 7 of entry `e`, with the first `n` records.
pub fn every_at(cs: &[u8], t: &[Role; 16], n: u8, e: EntryNo) -> bool
    ensures { result ≡ every_at cs.now t.now (up_to 16 n) e.0 }
{
    let lower = lower_roles(t, up_to(16, n as usize));
    let held = everys_of(cs);
    every_ok(fields_at(cs, e), &lower, &held)
}

// Whether one of the first `n` roles is transitive.
fn some_transitive(t: &[Role; 16], n: u8) -> bool
    requires { n ≤ 16 }
    ensures { result ≡ any_below n (λ i. eqb (role_at t.now i).transitive 1) }
{
    (0..n).any(|i| t[i as usize].transitive == 1)
}

// Test 7, with the first `n` records. Where no role is transitive it asks for nothing.
pub fn everys_ok(cs: &[u8], t: &[Role; 16], n: u8) -> bool
    ensures { result ≡ all_below (entry_count cs.now) (every_at cs.now t.now (up_to 16 n)) }
{
    let k = up_to(16, n as usize);
    if !some_transitive(t, k) {
        return true;
    }
    let lower = lower_roles(t, k);
    let held = everys_of(cs);
    (0..entry_count(cs)).all(|e| every_ok(fields_at(cs, EntryNo(e)), &lower, &held))
}
