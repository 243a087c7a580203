// The pairs at the head of a description, test 1 of them, and the parts that they name.
#![tactic(auto)]

ghost use Rattle.std.specs.Prelude.{◌≡◌, ◌≤◌};
ghost use Rattle.tables.specs.Tables.{records_in};
ghost use Rattle.directory.specs.Directory.{four, pair_count, directory_test, roles_part, concepts_part, query_part, disjoint_part};

use parts::{pairs_fill, part, read2};

// Whether the description has a fourth pair: the first offset is 16.
pub fn has_four(d: &[u8]) -> bool
    ensures { result ≡ four d.now }
{
    read2(d, 0) == 16
}

// The number of pairs.
fn pair_count(d: &[u8]) -> u8
    ensures { (result ≡ pair_count d.now) × (result ≤ 4) }
{
    if has_four(d) { 4 } else { 3 }
}

// Test 1.
pub fn directory_ok(d: &[u8]) -> bool
    ensures { result ≡ directory_test d.now }
{
    let n = pair_count(d);
    pairs_fill(d, 0, n, 4 * (n as u16))
}

// The parts of a description: roles, concepts, question, and roles that never share a filler. One line each under the name that contracts
// give it, which is plainer than a number.
pub fn roles_part(d: &[u8]) -> &[u8]
    ensures { result.now ≡ roles_part d.now }
{
    part(d, 0, 0)
}

pub fn concepts_part(d: &[u8]) -> &[u8]
    ensures { result.now ≡ concepts_part d.now }
{
    part(d, 0, 1)
}

pub fn query_part(d: &[u8]) -> &[u8]
    ensures { result.now ≡ query_part d.now }
{
    part(d, 0, 2)
}

pub fn disjoint_part(d: &[u8]) -> &[u8]
    ensures { result.now ≡ records_in (disjoint_part d.now) }
{
    if has_four(d) { part(d, 0, 3) } else { &d[..0] }
}
