// The tables of a description, read in place: the fields of an entry, their test, and the concept that they are.
#![tactic(auto)]

ghost use Rattle.std.specs.Prelude.{◌≡◌, ◌&&◌, ◌<◌, ◌≤◌, eqb, leb, ltb};
ghost use Rattle.labels.specs.Labels.{most_entries};
ghost use Rattle.tables.specs.Tables.{entry_count, fields_at, fields_test};
ghost use Rattle.description.specs.Literals.{literal};
ghost use Rattle.tables.specs.Concepts.{fields_struct, fields_in, concept_at, bound_in, fewer_of, complement_of, literal_concept, bound_of};

use labels::MOST_ENTRIES;
use parts::{byte, read2, up_to};

// The number of a role, and of an entry: never one for the other. Neither has a bound by its type: both come from bytes and from the
// editor's callers, and a number past the table is answered as such. Inner functions that read a place of the table say so in a `requires`.
#[derive(Clone, Copy)]
pub struct RoleNo(pub u8);

#[derive(Clone, Copy)]
pub struct EntryNo(pub u8);

#[derive(Clone, Copy)]
pub enum Side {
    Lower,
    Upper,
}

// A bound on the number of fillers of a role that have a literal, and its side: at least so many, or at most.
#[derive(Clone, Copy)]
pub struct Count {
    pub role: RoleNo,
    pub literal: u8,
    pub bound: usize,
    pub side: Side,
}

// The concept of an entry. An "at least" holds its count, with the lower side; with the upper one that case is the complement's, an
// "at most".
#[derive(Clone, Copy)]
pub enum Concept {
    Top,
    Name,
    Both(u8, u8),
    Every(RoleNo, u8),
    AtLeast(Count),
}

// The concept of a literal: an entry's own, or the complement of one. The complement of "at least n" counts too, from the
// other side: at most n - 1.
#[derive(Clone, Copy)]
pub enum LiteralConcept {
    Is(Concept),
    Not(Concept),
}

// The fields of an entry as they stand in bytes. The kind is a byte and no enum: test 4 (`fields_ok`) and the editor take every byte
// there, and refuse those that are no kind.
#[derive(Clone, Copy)]
pub struct Fields {
    pub kind: u8,
    pub role: u8,
    pub first: u8,
    pub second: u8,
    pub number: usize,
}

// The number of entries of the part `cs`, or the most that a table has if there are more.
pub fn entry_count(cs: &[u8]) -> u8
    ensures { (result ≡ entry_count cs.now) × (result ≤ most_entries) }
{
    up_to(MOST_ENTRIES, cs.len() / 6)
}

// The fields of entry `e`; bytes past the end count as 0.
fn cut_fields(cs: &[u8], e: EntryNo) -> Fields
    ensures { (result ≡ fields_struct cs.now e.0) × (result.number < 65536) }
{
    let from = 6 * (e.0 as usize);
    Fields {
        kind: byte(cs, from),
        role: byte(cs, from + 1),
        first: byte(cs, from + 2),
        second: byte(cs, from + 3),
        number: read2(cs, from + 4),
    }
}

// The same, with one comparison for the six bytes of an entry that is all there: every test reads entries.
pub fn fields_at(cs: &[u8], e: EntryNo) -> Fields
    ensures { (result ≡ fields_struct cs.now e.0) × (result.number < 65536) }
{
    let at = (6 * (e.0 as u32)) as usize;
    if cs.len() < at + 6 {
        return cut_fields(cs, e);
    }
    Fields {
        kind: cs[at],
        role: cs[at + 1],
        first: cs[at + 2],
        second: cs[at + 3],
        number: read2(cs, at + 4),
    }
}

// Tests of the fields that a kind uses, and that the others are 0: top and name,
fn unused(f: Fields) -> bool
    ensures { result ≡ (eqb f.role 0 && (eqb f.first 0 && (eqb f.second 0 && eqb f.number 0))) }
{
    (f.role == 0) & ((f.first == 0) & ((f.second == 0) & (f.number == 0)))
}

// both (`limit` is the first literal that the entry may not use),
fn both_ok(f: Fields, limit: usize) -> bool
    ensures { result ≡ (eqb f.role 0 && (ltb f.first limit && (ltb f.second limit && eqb f.number 0))) }
{
    (f.role == 0)
        & (((f.first as usize) < limit) & (((f.second as usize) < limit) & (f.number == 0)))
}

// every,
fn every_ok(f: Fields, limit: usize, roles: usize) -> bool
    ensures { result ≡ (ltb f.role roles && (ltb f.first limit && (eqb f.second 0 && eqb f.number 0))) }
{
    ((f.role as usize) < roles)
        & (((f.first as usize) < limit) & ((f.second == 0) & (f.number == 0)))
}

// and at least.
fn at_least_ok(f: Fields, limit: usize, roles: usize) -> bool
    ensures { result ≡ (ltb f.role roles && (ltb f.first limit && (eqb f.second 0 && (leb 1 f.number && leb f.number 1000)))) }
{
    ((f.role as usize) < roles)
        & (((f.first as usize) < limit)
            & ((f.second == 0) & ((1 <= f.number) & (f.number <= 1000))))
}

// Test 4 of entry `e`, in a table of `roles` roles.
pub fn fields_ok(f: Fields, e: EntryNo, roles: usize) -> bool
    ensures { result ≡ fields_test roles e.0 (fields_in f) }
{
    let kind = f.kind;
    let no = e.0;
    let limit = 2 * (no as usize);
    match kind {
        0 => (no == 0) & unused(f),
        1 => (0 < no) & unused(f),
        2 => both_ok(f, limit),
        3 => every_ok(f, limit, roles),
        4 => at_least_ok(f, limit, roles),
        _ => false,
    }
}

// The same, of the entry in the part `cs`.
pub fn entry_ok(cs: &[u8], e: EntryNo, roles: usize) -> bool
    ensures { result ≡ fields_test roles e.0 (fields_at cs.now e.0) }
{
    fields_ok(fields_at(cs, e), e, roles)
}

// The concept that entry `e` is; a kind above 4 is read as 4.
pub fn concept_at(cs: &[u8], e: EntryNo) -> Concept
    ensures { (result ≡ concept_at cs.now e.0) × (bound_in result < 65536) }
{
    let f = fields_at(cs, e);
    match f.kind {
        0 => Concept::Top,
        1 => Concept::Name,
        2 => Concept::Both(f.first, f.second),
        3 => Concept::Every(RoleNo(f.role), f.first),
        _ => Concept::AtLeast(Count {
            role: RoleNo(f.role),
            literal: f.first,
            bound: f.number,
            side: Side::Lower,
        }),
    }
}

// At most one less than the bound of `m`, which is what denies a lower count; a bound of 0, which 4 refuses, stays 0.
fn fewer(m: Count) -> Count
    ensures { result ≡ fewer_of m }
{
    Count {
        bound: m.bound.saturating_sub(1),
        side: Side::Upper,
        ..m
    }
}

// The complement of an entry's concept, in which a count binds from below.
fn complement(c: Concept) -> LiteralConcept
    ensures { result ≡ complement_of c }
{
    match c {
        Concept::AtLeast(m) => LiteralConcept::Is(Concept::AtLeast(fewer(m))),
        other => LiteralConcept::Not(other),
    }
}

// The concept of literal `l`.
pub fn literal_concept(cs: &[u8], l: u8) -> LiteralConcept
    ensures { (result ≡ literal_concept cs.now (literal l)) × (bound_of result < 65536) }
{
    let concept = concept_at(cs, EntryNo(l / 2));
    if l % 2 == 0 {
        return LiteralConcept::Is(concept);
    }
    complement(concept)
}
