// Tests 1 to 8 and 26 of a description, and the masks that evidence asks of its role records and of its fourth part.
#![tactic(auto)]

ghost use Rattle.std.specs.Prelude.{◌≡◌, not, ◌&&◌, ◌+◌, ◌*◌, ◌/◌, ◌%◌, ◌≤◌, eqb, leb, ltb, length};
ghost use Rattle.logic.specs.Bounded.{all_below};
ghost use Rattle.logic.specs.Sets.{narrow};
ghost use Rattle.parts.specs.Numbers.{byte_at, num2, up_to};
ghost use Rattle.tables.specs.Tables.{fields_at, fields_test};
ghost use Rattle.labels.specs.Labels.{most_entries};
ghost use Rattle.roles.specs.Records.{role_table};
ghost use Rattle.answers.specs.Answers.{refusal_of, wholly};
ghost use Rattle.directory.specs.Directory.{roles_part};
ghost use Rattle.entry_tests.specs.Entries.{twin_at};
ghost use Rattle.intake.specs.Intake.{sizes_test, bytes_test};
ghost use Rattle.intake.specs.Steps.{later_test, steps_test, role_kept, disjoint_kept, disjoints_code};
ghost use Rattle.intake.specs.Opening.{Opens};

use answers::{Reason, Refusal};
use directory::{concepts_part, directory_ok, disjoint_part, has_four, query_part, roles_part};
use entry_tests::everys::everys_ok;
use entry_tests::{distinct_ok, simples_ok};
use labels::MOST_ENTRIES;
use parts::{byte, mask2};
use roles::disjoint::disjoint_count;
use roles::{Role, role_count, role_masks, role_table};
use tables::{EntryNo, RoleNo, entry_ok};
use words::Bits;

// A part of `len` bytes: whole records of `size` bytes, at least one, within `most` bytes.
fn records_ok(len: usize, size: usize, most: usize) -> bool
    requires { 1 ≤ size }
    ensures { result ≡ (eqb (len % size) 0 && (leb size len && leb len most)) }
{
    (len % size == 0) & ((size <= len) & (len <= most))
}

// The parts of a description, each as a slice of it.
#[derive(Clone, Copy)]
struct Parts<'a> {
    roles: &'a [u8],
    concepts: &'a [u8],
    query: &'a [u8],
    disjoint: &'a [u8],
}

// Test 2.
fn sizes_ok(p: Parts) -> bool
    ensures { result ≡ sizes_test p.entry.roles.now p.entry.concepts.now p.entry.query.now p.entry.disjoint.now }
{
    let asked = p.query.len();
    let held = p.disjoint.len();
    records_ok(p.roles.len(), 3, 48)
        & (records_ok(p.concepts.len(), 6, 6 * (MOST_ENTRIES as usize))
            & (((1 <= asked) & (asked <= 17)) & ((held % 2 == 0) & (held <= 32))))
}

// Test 3 of one role, in a table of `n` roles.
fn role_ok(rs: &[u8], r: RoleNo, n: usize) -> bool
    requires { n ≤ 16 }
    ensures { result ≡ (leb (byte_at rs.now (3 * r.0)) 1 && narrow (num2 rs.now (3 * r.0 + 1)) n) }
{
    let at = 3 * (r.0 as usize);
    (byte(rs, at) <= 1) & mask2(rs, at + 1).is_below(n)
}

// Test 3.
fn roles_ok(rs: &[u8]) -> bool
    requires { length rs.now / 3 ≤ 16 }
    ensures { result ≡ all_below (length rs.now / 3) (role_kept rs.now) }
{
    let n = rs.len() / 3;
    (0..n as u8).all(|r| role_ok(rs, RoleNo(r), n))
}

// Test 4, in a table of `roles` roles.
fn entries_ok(cs: &[u8], roles: usize) -> bool
    requires { length cs.now / 6 ≤ most_entries }
    ensures { result ≡ all_below (length cs.now / 6) (λ e. fields_test roles e (fields_at cs.now e)) }
{
    (0..(cs.len() / 6) as u8).all(|e| entry_ok(cs, EntryNo(e), roles))
}

// Test 6.
fn distincts_ok(cs: &[u8]) -> bool
    requires { length cs.now / 6 ≤ most_entries }
    ensures { result ≡ all_below (length cs.now / 6) (λ f. all_below f (λ e. not (twin_at cs.now f e))) }
{
    (0..(cs.len() / 6) as u8).all(|f| distinct_ok(cs, EntryNo(f)))
}

// Test 8; `limit` is the number of literals.
fn query_ok(qs: &[u8], limit: usize) -> bool
    ensures { result ≡ all_below (length qs.now) (λ i. ltb (byte_at qs.now i) limit) }
{
    qs.iter().all(|l| (*l as usize) < limit)
}

// Test 26 of record `i` of the fourth part, with the first `n` role records.
fn disjoint_ok(ps: &[u8], t: &[Role; 16], n: u8, i: u8) -> bool
    ensures { result ≡ disjoint_kept ps.now t.now n i }
{
    let one = byte(ps, 2 * (i as usize));
    let other = byte(ps, 2 * (i as usize) + 1);
    let x = t[(one % 16) as usize];
    let y = t[(other % 16) as usize];
    ((one < n) & (other < n)) & (!(one == other) & (x.simple & y.simple))
}

// Test 26, with the first `n` role records.
fn disjoints_ok(ps: &[u8], t: &[Role; 16], n: u8) -> bool
    ensures { result ≡ disjoints_code ps.now t.now n }
{
    (0..disjoint_count(ps)).all(|i| disjoint_ok(ps, t, n, i))
}

// Tests 5 to 8 and 26, with the first `n` role records: `t` has always all 16, as `role_table` promises.
fn test_later(p: Parts, t: &[Role; 16], n: u8) -> Result<(), Refusal>
    requires { (length p.concepts.now / 6 ≤ most_entries) × (n ≤ 16) }
    ensures { refusal_of result ≡ wholly (later_test p.entry.concepts.now p.entry.query.now p.entry.disjoint.now t.now (up_to 16 n)) }
{
    let cs = p.concepts;
    if !simples_ok(cs, t) {
        return Err(Reason::Simple.whole());
    }
    if !distincts_ok(cs) {
        return Err(Reason::Twin.whole());
    }
    if !everys_ok(cs, t, n) {
        return Err(Reason::MissingEvery.whole());
    }
    if !query_ok(p.query, 2 * (cs.len() / 6)) {
        return Err(Reason::Question.whole());
    }
    if !disjoints_ok(p.disjoint, t, n) {
        return Err(Reason::Disjoint.whole());
    }
    Ok(())
}

// Tests 2 to 8 and 26 of the parts, with the records of the roles.
fn test_parts(p: Parts, t: &[Role; 16]) -> Result<(), Refusal>
    ensures { refusal_of result ≡ wholly (steps_test p.entry.roles.now p.entry.concepts.now p.entry.query.now p.entry.disjoint.now t.now) }
{
    if !sizes_ok(p) {
        return Err(Reason::Part.whole());
    }
    if !roles_ok(p.roles) {
        return Err(Reason::Role.whole());
    }
    if !entries_ok(p.concepts, p.roles.len() / 3) {
        return Err(Reason::Entry.whole());
    }
    test_later(p, t, role_count(p.roles))
}

// Tests 1 to 8 and 26, with the same records.
fn test_bytes(d: &[u8], t: &[Role; 16]) -> Result<(), Refusal>
    ensures { t.now ≡ role_table (roles_part d.now) → refusal_of result ≡ wholly (bytes_test d.now) }
{
    if !directory_ok(d) {
        return Err(Reason::Directory.whole());
    }
    let p = Parts {
        roles: roles_part(d),
        concepts: concepts_part(d),
        query: query_part(d),
        disjoint: disjoint_part(d),
    };
    test_parts(p, t)
}

// A description opened: what tests 1 to 8 and 26 say of it, the masks that evidence asks of its roles and records, the number of roles, the
// entries and the query, and whether it `marks` barred cells, as one of four parts does. The answer stands beside the values, and not in a
// Result of them, since `open_description` promises the masks and the number of a refused description too.
#[derive(Clone, Copy)]
pub struct Opening<'a> {
    pub tested: Result<(), Refusal>,
    pub masks: [u16; 49],
    pub count: u8,
    pub concepts: &'a [u8],
    pub query: &'a [u8],
    pub marks: bool,
}

// Opens a description by tests 1 to 8 and 26. Every entry point begins with this.
pub fn open_description(d: &[u8]) -> Opening
    ensures { Opens d.now result }
{
    let rs = roles_part(d);
    let t = role_table(rs);
    Opening {
        tested: test_bytes(d, &t),
        masks: role_masks(&t, disjoint_part(d)),
        count: role_count(rs),
        concepts: concepts_part(d),
        query: query_part(d),
        marks: has_four(d),
    }
}

// Tests 1 to 8 and 26 of a description.
pub fn test_description(d: &[u8]) -> Result<(), Refusal>
    ensures { refusal_of result ≡ wholly (bytes_test d.now) }
{
    open_description(d).tested
}
