// Rule 13: the edges behind a record's label.
#![tactic(auto)]

ghost use Rattle.std.specs.Prelude.{◌≡◌, true, ◌*◌, ◌/◌, ◌<◌, ◌≤◌};
ghost use Rattle.logic.specs.Bounded.{all_below};
ghost use Rattle.logic.specs.Sets.{has, narrow, within};
ghost use Rattle.logic.specs.Sums.{only};
ghost use Rattle.parts.specs.Numbers.{up_to};
ghost use Rattle.roles.specs.Disjoint.{compatible_by};
ghost use Rattle.edges.specs.EdgeSteps.{edge_count, edge_struct, raised, edge_with, edges_code};

use parts::{byte, mask2, read2, up_to};
use roles::disjoint::{compatible, no_records};
use words::Bits;

#[derive(Clone, Copy)]
pub struct Edge {
    pub target: u8,
    pub mask: u16,
    pub count: usize,
}

// The number of edges of `es`, or 32 if there are more.
pub fn edge_count(es: &[u8]) -> u8
    ensures { (result ≡ edge_count es.now) × (result ≤ 32) }
{
    up_to(32, es.len() / 5)
}

// Edge `j`; bytes past the end count as 0.
fn cut_edge(es: &[u8], j: u8) -> Edge
    ensures { (result ≡ edge_struct es.now j) × (result.count < 65536) }
{
    let from = 5 * (j as usize);
    Edge {
        target: byte(es, from),
        mask: mask2(es, from + 1),
        count: read2(es, from + 3),
    }
}

// The same, with one comparison for the five bytes of an edge that is all there: every rule of a graph reads edges. Tried with `cut_edge`
// alone: a graph takes 10 to 22 in a hundred more instructions, past bench/bounds.
pub fn edge_at(es: &[u8], j: u8) -> Edge
    ensures { (result ≡ edge_struct es.now j) × (result.count < 65536) }
{
    let at = (5 * (j as u32)) as usize;
    if es.len() < at + 5 {
        return cut_edge(es, j);
    }
    Edge {
        target: es[at],
        mask: mask2(es, at + 1),
        count: read2(es, at + 3),
    }
}

// The ancestors `above` of role `r`, if the mask `m` holds `r`.
fn above_if(above: u16, m: u16, r: u8) -> u16
    ensures { result ≡ only (has m r) above }
{
    if m.has(r) { above } else { 0 }
}

// Whether the mask holds with each of its roles the ancestors.
fn upward(a: &[u16; 49], m: u16) -> bool
    ensures { result ≡ within (raised a.now m) m }
{
    let mut up: u16 = 0;
    for r in 0..16 {
        up |= above_if(a[r as usize], m, r);
    }
    up.is_within(m)
}

// Rule 13 of one edge but for records of disjoint roles, in a table of `n` roles and a graph of `size` records; `a` has the masks of the
// roles, their ancestors in front.
fn edge_ok(e: Edge, a: &[u16; 49], n: u8, size: u8) -> bool
    requires { n ≤ 16 }
    ensures { result ≡ edge_with a.now n size true e }
{
    let narrow = e.mask.is_below(n as usize);
    let up = upward(a, e.mask);
    ((e.target < size) & ((0 < e.mask) & (narrow & (up & (1 <= e.count))))) & (e.count <= 1000)
}

// The same of the first `k` edges. No chain here and below: with one, a graph takes four in a hundred more.
fn edges_hold(es: &[u8], k: u8, a: &[u16; 49], n: u8, size: u8) -> bool
    requires { n ≤ 16 }
    ensures { result ≡ all_below k (λ j. edge_with a.now n size true (edge_struct es.now j)) }
{
    for j in 0..k {
        if !edge_ok(edge_at(es, j), a, n, size) {
            return false;
        }
    }
    true
}

// Whether the first `k` edges hold no record of disjoint roles. Without records, one comparison a node says so.
fn edges_compatible(es: &[u8], k: u8, a: &[u16; 49]) -> bool
    ensures { result ≡ all_below k (λ j. compatible_by a.now (edge_struct es.now j).mask) }
{
    if no_records(a) {
        return true;
    }
    for j in 0..k {
        if !compatible(a, edge_at(es, j).mask) {
            return false;
        }
    }
    true
}

// Rule 13 of the edges `es`, in a table of `roles` roles.
pub fn edges_ok(es: &[u8], a: &[u16; 49], roles: u8, size: u8) -> bool
    ensures { result ≡ edges_code a.now (up_to 16 roles) size es.now }
{
    let k = edge_count(es);
    if !edges_hold(es, k, a, up_to(16, roles as usize), size) {
        return false;
    }
    edges_compatible(es, k, a)
}
