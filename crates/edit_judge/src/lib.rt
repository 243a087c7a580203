// An inclusion and a concept, put into the state: judged by the tables as they would be, and laid only then.
#![tactic(auto)]

ghost use Rattle.std.specs.Prelude.{◌≡◌, ◌%◌, ◌≤◌, ◌&&◌, ltb, length};
ghost use Rattle.parts.specs.Numbers.{up_to};
ghost use Rattle.tables.specs.Concepts.{fields_in};
ghost use Rattle.editing.specs.Editing.{inclusion, concept};
ghost use Rattle.edit_state.specs.Lent.{Edits};
ghost use Rattle.edit_judge.specs.Judging.{table_with, last_test, Judges};

use answers::{Reason, Refusal};
use edit_lay::{lay_entry, lay_parent};
use edit_state::{
    CONCEPTS_FROM, CONCEPTS_ROOM, ROLES_FROM, ROLES_ROOM, concepts_of, count_entries, count_roles,
    enough, records, roles_of,
};
use entry_tests::everys::{every_at, everys_ok};
use entry_tests::{distinct_ok, simple_ok, simples_ok};
use labels::MOST_ENTRIES;
use laying::copy_bytes;
use parts::span;
use roles::{Role, role_table};
use tables::{EntryNo, Fields, RoleNo, fields_ok};

// The records of these roles with the bit of `p` in the parents of `r`, made by what opens a description: there is no other way.
fn records_with(rs: &[u8], r: RoleNo, p: RoleNo) -> [Role; 16]
    requires { length rs.now ≤ 48 }
    ensures { result ≡ table_with rs.now (r.0 % 16) (p.0 % 16) }
{
    let mut roles = [0; ROLES_ROOM];
    copy_bytes(&mut roles, 0, rs);
    lay_parent(&mut roles, 3 * ((r.0 % 16) as usize), p);
    role_table(span(&roles, 0, rs.len()))
}

// Whether both are roles of a table of `n`.
fn are_roles(r: RoleNo, p: RoleNo, n: u8) -> bool
    ensures { result ≡ (ltb r.0 n && ltb p.0 n) }
{
    (r.0 < n) & (p.0 < n)
}

// What refuses an inclusion. All entries are tested with the new records: a role that is neither may be harmed.
fn judge_inclusion(st: &[u8], r: RoleNo, p: RoleNo) -> Result<(), Refusal>
    ensures { Judges (inclusion r.0 p.0) st.now result }
{
    let n = count_roles(st);
    if !are_roles(r, p, n) {
        return Err(Reason::Role.whole());
    }
    let table = records_with(roles_of(st), r, p);
    let cs = concepts_of(st);
    if !simples_ok(cs, &table) {
        return Err(Reason::Simple.whole());
    }
    if !everys_ok(cs, &table, n) {
        return Err(Reason::MissingEvery.whole());
    }
    Ok(())
}

// Includes role `r` in role `p`.
pub fn put_inclusion(st: &mut [u8], r: RoleNo, p: RoleNo) -> Result<(), Refusal>
    ensures { Edits (inclusion r.0 p.0) st.old result st.new }
{
    enough(st)?;
    judge_inclusion(st, r, p)?;
    lay_parent(st, ROLES_FROM + 3 * ((r.0 % 16) as usize), p);
    Ok(())
}

// 5, 6 and 7 of the last of the entries. `n` stands beside the table: the records are always all 16, as `role_table` promises, and `n` of
// them are the description's.
fn judge_last(cs: &[u8], e: EntryNo, table: &[Role; 16], n: u8) -> Result<(), Refusal>
    ensures { result ≡ last_test cs.now e.0 table.now (up_to 16 n) }
{
    if !simple_ok(cs, e, table) {
        return Err(Reason::Simple.whole());
    }
    if !distinct_ok(cs, e) {
        return Err(Reason::Twin.whole());
    }
    if !every_at(cs, table, n, e) {
        return Err(Reason::MissingEvery.whole());
    }
    Ok(())
}

// What refuses a concept. The tests read the entries that are there and the new one, and no byte behind it.
fn judge_concept(st: &[u8], f: Fields) -> Result<(), Refusal>
    ensures { Judges (concept (fields_in f)) st.now result }
{
    let e = count_entries(st);
    if MOST_ENTRIES <= e {
        return Err(Reason::Full.whole());
    }
    let n = count_roles(st);
    if !fields_ok(f, EntryNo(e), n as usize) {
        return Err(Reason::Entry.whole());
    }
    let size = 6 * (e as usize);
    let mut concepts = [0; CONCEPTS_ROOM];
    copy_bytes(&mut concepts, 0, concepts_of(st));
    lay_entry(&mut concepts, size, f);
    judge_last(span(&concepts, 0, size + 6), EntryNo(e), &records(st), n)
}

// Adds a concept, as the next entry.
pub fn put_concept(st: &mut [u8], f: Fields) -> Result<(), Refusal>
    ensures { Edits (concept (fields_in f)) st.old result st.new }
{
    enough(st)?;
    judge_concept(st, f)?;
    let e = count_entries(st);
    st[1] = e + 1;
    lay_entry(st, CONCEPTS_FROM + 6 * (e as usize), f);
    Ok(())
}
