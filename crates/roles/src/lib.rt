// The role records: each role with its transitive byte, its parents, its ancestors, and whether it is simple.
#![tactic(auto)]

pub mod disjoint;

ghost use Rattle.std.specs.Prelude.{◌≡◌, cond, eqb, ltb, ℕ, ◌+◌, ◌-◌, ◌*◌, ◌/◌, ◌<◌, ◌≤◌, get_or};
ghost use Rattle.std.specs.Int.Bits.{bit_or};
ghost use Rattle.logic.specs.Sets.{has, narrow};
ghost use Rattle.roles.specs.Ancestors.{AncestorsOf, role_count, passed, joined, above_transitive};
ghost use Rattle.roles.specs.Records.{record_with, role_table, role_at, carrier, mask_of, role_masks};

use disjoint::{disjoint_count, pair_mask};
use parts::{byte, mask2, up_to};
use std::array;
use words::Bits;

// A role in working memory: its two fields of the description, the roles that it is included in by any number of steps, itself among
// them, and whether no transitive role is included in it. `transitive` is the byte of the description: `role_table` promises it of every
// part, also of one whose bytes test 3 refuses.
#[derive(Clone, Copy)]
pub struct Role {
    pub transitive: u8,
    pub parents: u16,
    pub ancestors: u16,
    pub simple: bool,
}

// The mask of role `i` with itself and its parents.
fn own_mask(rs: &[u8], i: usize) -> u16
    requires { i < 16 }
    ensures { result ≡ passed rs.now 0 i }
{
    // The place is known to be there: `Bits::put` would ask.
    mask2(rs, 3 * i + 1) | (1 << i)
}

// The mask `x`, joined with `y` if it holds `k`. (Masks are joined on a condition in three more places: each contract speaks of its own.)
fn join(x: u16, y: u16, k: u8) -> u16
    ensures { result ≡ joined x y k }
{
    if x.has(k) { x | y } else { x }
}

// Each role with itself and its parents.
fn start(rs: &[u8]) -> [u16; 16]
    ensures { (m : ℕ) → m < 16 → get_or result m 0 ≡ passed rs.now 0 m }
{
    array::from_fn(|i| own_mask(rs, i))
}

// Each mask that holds `k` joined with the mask of `k`.
fn pass(a: [u16; 16], k: u8) -> [u16; 16]
    requires { k < 16 }
    ensures { (m : ℕ) → m < 16 → get_or result m 0 ≡ joined (get_or a m 0) (get_or a k 0) k }
{
    let row = a[k as usize];
    array::from_fn(|i| join(a[i], row, k))
}

// The number of roles of the part `rs`, or 16 if there are more: what inner functions ask of a number of roles (`n ≤ 16`) is told here,
// and a part of more is what test 2 is there to refuse.
pub fn role_count(rs: &[u8]) -> u8
    ensures { (result ≡ role_count rs.now) × (result ≤ 16) }
{
    up_to(16, rs.len() / 3)
}

// The mask with the ancestors of a role, if its transitive byte is 1.
fn with_ancestors(x: u16, anc: u16, transitive: u8) -> u16
    ensures { (result ≡ cond (eqb transitive 1) (bit_or x anc) x) × (anc < 65536) }
{
    if transitive == 1 { x | anc } else { x }
}

// The ancestors of each role of the part `rs`.
fn ancestors(rs: &[u8]) -> [u16; 16]
    ensures { AncestorsOf rs.now result }
{
    let n = role_count(rs);
    let mut a = start(rs);
    for k in 0..n {
        // No proof is made of `a = pass(a, k)`.
        let next = pass(a, k);
        a = next;
    }
    a
}

// The roles that are not simple, if `a` holds the ancestors of each role.
fn complex_roles(rs: &[u8], a: [u16; 16]) -> u16
    ensures { result ≡ above_transitive rs.now a (role_count rs.now) }
{
    let n = role_count(rs) as usize;
    let mut out: u16 = 0;
    for t in 0..n {
        out = with_ancestors(out, a[t], byte(rs, 3 * t));
    }
    out
}

// The record of role `i`, with its ancestors `above` and the roles that are not simple.
fn role_record(rs: &[u8], i: u8, above: u16, complex: u16) -> Role
    ensures { result ≡ record_with rs.now complex i above }
{
    let at = 3 * (i as usize);
    Role {
        transitive: byte(rs, at),
        parents: mask2(rs, at + 1),
        ancestors: above,
        simple: !complex.has(i),
    }
}

// The records of the roles of the part `rs`.
pub fn role_table(rs: &[u8]) -> [Role; 16]
    ensures { result ≡ role_table rs.now }
{
    let a = ancestors(rs);
    let complex = complex_roles(rs, a);
    array::from_fn(|i| role_record(rs, i as u8, a[i], complex))
}

// The ancestors of a transitive role; of another, none.
fn carrier_of(x: Role) -> u16
    ensures { result ≡ carrier x }
{
    if x.transitive == 1 { x.ancestors } else { 0 }
}

// Mask `i` of those that role records give.
fn role_mask(t: &[Role; 16], i: u8) -> u16
    requires { i < 32 }
    ensures { result ≡ cond (ltb i 16) (role_at t.now i).ancestors (carrier (role_at t.now (i - 16))) }
{
    if i < 16 {
        t[i as usize].ancestors
    } else {
        carrier_of(t[(i - 16) as usize])
    }
}

// Mask `i` of those that evidence asks for.
fn mask_of(t: &[Role; 16], ps: &[u8], i: u8) -> u16
    requires { i < 49 }
    ensures { result ≡ mask_of t.now ps.now i }
{
    if i < 32 {
        return role_mask(t, i);
    }
    if i < 48 {
        pair_mask(ps, i - 32)
    } else {
        disjoint_count(ps) as u16
    }
}

// The masks that evidence asks for: the ancestors of each role; behind them those of each transitive role, none for the others; then the
// two roles of each record of the part `ps`; last the number of these records. One array of numbers: the theorems on it read it by these
// places (`masks_above`, `masks_carried`, `masks_disjoint`).
pub fn role_masks(t: &[Role; 16], ps: &[u8]) -> [u16; 49]
    ensures { result ≡ role_masks t.now ps.now }
{
    array::from_fn(|i| mask_of(t, ps, i as u8))
}
