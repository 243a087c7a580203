// The records of two roles that never share a filler, as masks, and the test of a set of roles by them.
ghost use Rattle.std.specs.Prelude.{◌≡◌, ◌≤◌, eqb};
ghost use Rattle.logic.specs.Sets.{within};
ghost use Rattle.parts.specs.Numbers.{up_to};
ghost use Rattle.roles.specs.Disjoint.{disjoint_count, role_bit, pair_mask, records_by, compatible_by};

use parts::{byte, up_to};
use words::Bits;

// The number of records of the part `ps`, or 16 if there are more.
pub fn disjoint_count(ps: &[u8]) -> u8
    ensures { (result ≡ disjoint_count ps.now) × (result ≤ 16) }
{
    up_to(16, ps.len() / 2)
}

// The mask of role `r` alone, of none if it is past the masks: a line that is no shorter by `Bits::put`.
pub fn role_bit(r: u8) -> u16
    ensures { result ≡ role_bit r }
{
    if r < 16 { 1 << r } else { 0 }
}

// The two roles of record `i`.
pub(crate) fn pair_mask(ps: &[u8], i: u8) -> u16
    ensures { result ≡ pair_mask ps.now i }
{
    let at = 2 * (i as usize);
    role_bit(byte(ps, at)) | role_bit(byte(ps, at + 1))
}

// So many records, or 16 if there are more.
fn few(n: u16) -> u8
    ensures { (result ≡ up_to 16 n) × (result ≤ 16) }
{
    up_to(16, n as usize)
}

// Whether the masks `a` have no record. Most descriptions have none; then no set of roles need be held against them.
pub fn no_records(a: &[u16; 49]) -> bool
    ensures { result ≡ eqb (records_by a.now) 0 }
{
    few(a[48]) == 0
}

// Whether one pair of elements may have the roles `m`: they hold no record of the masks `a`.
pub fn compatible(a: &[u16; 49], m: u16) -> bool
    ensures { result ≡ compatible_by a.now m }
{
    // No chain: the compiler takes several records at a time of this loop alone.
    for i in 0..few(a[48]) {
        if a[(32 + i) as usize].is_within(m) {
            return false;
        }
    }
    true
}
