// Closing the transitive roles of a line in its bytes, all at once, in place.
#![tactic(auto)]

ghost use Rattle.std.specs.Prelude.{◌≡◌, cond, ℕ, ◌+◌, ◌*◌, ◌<◌, ◌≤◌, length};
ghost use Rattle.std.specs.Int.Bits.{bit_or};
ghost use Rattle.logic.specs.Sets.{has};
ghost use Rattle.parts.specs.Numbers.{byte_at};
ghost use Rattle.closing.specs.Closing.{masks_end, closed_byte};
ghost use Rattle.lines.specs.Laying.{Masks};
ghost use Rattle.closing.specs.Rows.{RowsLie, join_mask, over_mask};
ghost use Rattle.closing.specs.Steps.{via_mask, stop_mask, raised_to, raised_mask};

use lines::{put_mask, row_at};
use parts::mask2;
use words::Bits;

// The `n` masks at `at` take over the roles of `m` from the `n` masks at `from`. They are counted in 32 bits, which one register of a small
// processor holds.
fn join_row(buf: &mut [u8], at: usize, from: usize, n: u8, m: u16)
    requires { RowsLie at from n (length buf.old) }
    ensures { Masks at (join_mask buf.old at from m) buf.old n buf.new }
{
    let [high, low] = m.to_be_bytes();
    for y in 0..n as u32 {
        let i = at + ((2 * y) as usize);
        let j = from + ((2 * y) as usize);
        let first = buf[i] | (buf[j] & high);
        let second = buf[i + 1] | (buf[j + 1] & low);
        buf[i] = first;
        buf[i + 1] = second;
    }
}

// The row at `row` takes over from row `k`, which is at `from`, the roles of `t` that its own pair with `k` has.
fn join(buf: &mut [u8], row: usize, from: usize, n: u8, k: u8, t: u16)
    requires { (k < n) × RowsLie row from n (length buf.old) }
    ensures { Masks row (over_mask buf.old row from k t) buf.old n buf.new }
{
    let m = mask2(buf, row + 2 * (k as usize)) & t;
    if m == 0 {
        return;
    }
    join_row(buf, row, from, n, m);
}

// Every row takes over from row `k`: the roles of `t` may stop at `k`. A struct that held the lent buffer would be no plainer than its
// place and size beside it: each contract would have to say that these two stay.
fn pass(buf: &mut [u8], at: usize, n: u8, k: u8, t: u16)
    requires { (k < n) × (masks_end at n ≤ length buf.old) }
    ensures { Masks at (via_mask buf.old at n k t) buf.old (n * n) buf.new }
{
    let from = row_at(at, n, k);
    for x in 0..n {
        let row = row_at(at, n, x);
        join(buf, row, from, n, k, t);
    }
}

// The roles of `t` are closed.
fn close(buf: &mut [u8], at: usize, n: u8, t: u16)
    requires { masks_end at n ≤ length buf.old }
    ensures { Masks at (stop_mask buf.old at n t n) buf.old (n * n) buf.new }
{
    for k in 0..n {
        pass(buf, at, n, k, t);
    }
}

// The mask `x` with the ancestors `above` of role `u`, if the mask `m` holds it. (As `roles::join`, with a contract of its own.)
fn with_above(x: u16, above: u16, m: u16, u: u8) -> u16
    ensures { (result ≡ cond (has m u) (bit_or x above) x) × (above < 65536) }
{
    if m.has(u) { x | above } else { x }
}

// The mask `m` with the ancestors of the roles of `t` in it.
fn raised(m: u16, t: u16, a: &[u16; 49]) -> u16
    ensures { result ≡ raised_to m t a.now 16 }
{
    let closed = m & t;
    if closed == 0 {
        return m;
    }
    let mut out = m;
    for u in 0..16 {
        out = with_above(out, a[u as usize], closed, u);
    }
    out
}

// Every pair has the ancestors of its roles of `t`.
fn raise(buf: &mut [u8], at: usize, n: u8, t: u16, a: &[u16; 49])
    requires { masks_end at n ≤ length buf.old }
    ensures { Masks at (raised_mask buf.old at t a.now) buf.old (n * n) buf.new }
{
    let mut p = at;
    // The place is carried along: a mask is two bytes, and `put_mask` asks for the first.
    for i in 0..(n as u16) * (n as u16) {
        let m = raised(mask2(buf, p), t, a);
        put_mask(buf, p, m);
        p += 2;
    }
}

// The transitive roles (mask `t`) of `d` elements closed, and their pairs handed to their ancestors (in front in the masks `a`). The role
// masks lie from `at` on.
pub fn close_roles(buf: &mut [u8], at: usize, d: u8, t: u16, a: &[u16; 49])
    ensures { (length buf.new ≡ length buf.old) × ((p : ℕ) → byte_at buf.new p ≡ closed_byte buf.old at d t a.now p) }
{
    let n = d as usize;
    if buf.len() < at {
        return;
    }
    if buf.len() - at < 2 * (n * n) {
        return;
    }
    close(buf, at, d, t);
    raise(buf, at, d, t, a);
}
