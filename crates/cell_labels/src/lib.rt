// What the rows of a counting step give to its cells, found once a step, and the label that is known of a cell by them.
#![tactic(auto)]

ghost use Rattle.std.specs.Prelude.{◌≡◌, ◌&&◌, cond, true, ℕ, ◌<◌, ◌≤◌, eqb, length, get_or};
ghost use Rattle.logic.specs.Bounded.{any_below};
ghost use Rattle.logic.specs.Sets.{has};
ghost use Rattle.labels.specs.Labels.{most_entries, value_of, label_with};
ghost use Rattle.rows.specs.HeldRows.{given, held_at, first_at};
ghost use Rattle.sources.specs.Sources.{has_above};
ghost use Rattle.cell_labels.specs.CellShows.{Puts, passes, carried_at};
ghost use Rattle.cell_labels.specs.CellRows.{Masks, Labels, mask_at, Grown, gathered_by};
ghost use Rattle.cell_labels.specs.CellRows.{entry_shows, shown_by, denied_by, bit_of, above_of};

use labels::{Label, empty, holds, join, only, put};
use nodes::opposite;
use roles::disjoint::role_bit;
use rows::{Row, Rows, row_at};
use sources::is_carried;
use std::array;
use tables::{EntryNo, RoleNo, entry_count, fields_at};
use words::Bits;

// The label with the literal `l`, if that is asked.
fn put_if(x: Label, l: u8, asked: bool) -> Label
    ensures { Puts (value_of x) (value_of result) (λ m. asked && eqb l m) }
{
    if asked { put(x, l) } else { x }
}

// The label with that of `y`, if that is asked.
fn add_if(x: Label, y: Label, asked: bool) -> Label
    ensures { Puts (value_of x) (value_of result) (λ l. asked && has (value_of y) l) }
{
    if asked { join(x, y) } else { x }
}

// The mask `x`: what a call answers is known to have 16 bits, an element of an array is not.
fn mask(x: u16) -> u16
    ensures { (result ≡ x) × (result < 65536) }
{
    x
}

// What each row gives, and `none` behind the last.
fn of_rows<T: Copy, F: Fn(Row) -> T>(rows: &Rows, none: T, give: F) -> [T; 6]
    requires { F.IsAlwaysCallable give }
    ensures { (length result ≡ 6) × ((d : T) (i : ℕ) → i < 6
        → (i < rows.now.count → F.post give (first_at rows.now.held rows.now.count i) (get_or result i d))
        × (rows.now.count ≤ i → get_or result i d ≡ none)) }
{
    array::from_fn(|i| {
        let i = i as u8;
        if i < rows.count {
            give(row_at(rows, i))
        } else {
            none
        }
    })
}

// The ancestors of the role of each row.
pub fn above_of(m: &[u16; 49], rows: &Rows) -> [u16; 6]
    ensures { Masks (λ i. above_of m.now (given (held_at rows.now.held i))) rows.now.count result
        × ((i : ℕ) → i < 6 → mask_at result i < 65536) }
{
    of_rows(rows, 0, |row| mask(m[(row.role.0 % 16) as usize]))
}

// The mask of the role of each row, of none if the role is past the masks.
pub fn own_of(rows: &Rows) -> [u16; 6]
    ensures { Masks (λ i. bit_of (given (held_at rows.now.held i))) rows.now.count result }
{
    of_rows(rows, 0, |row| role_bit(row.role.0))
}

// What each row shows of other cells that have its role: the opposite of its qualifier.
pub fn against_of(rows: &Rows) -> [u8; 6]
    ensures { Masks (λ i. denied_by (given (held_at rows.now.held i))) rows.now.count result }
{
    of_rows(rows, 0, |row| opposite(row.qualifier))
}

// The qualifier of each row.
fn qualified_of(rows: &Rows) -> [Label; 6]
    ensures { Labels (λ i. label_with 0 (held_at rows.now.held i).qualifier) rows.now.count result }
{
    of_rows(rows, empty(), |row| only(row.qualifier))
}

// What "every t l", entry `f`, shows of a cell that has the role: `l` if the label `x` holds the entry,
// and itself if the label carries it on.
fn passed_by(cs: &[u8], carry: u16, x: Label, f: EntryNo, l: u8) -> Label
    requires { f.0 < most_entries }
    ensures { Puts 0 (value_of result) (passes (value_of x) (has_above cs.now (value_of x) carry l) true f.0 l) }
{
    let held = holds(x, 2 * f.0);
    let on = is_carried(cs, carry, x, l);
    let out = put_if(empty(), l, held);
    put_if(out, 2 * f.0, on)
}

// Each label with `y`, if role `t` is among those above the row's.
fn with_passed(old: [Label; 6], above: [u16; 6], t: RoleNo, y: Label) -> [Label; 6]
    requires { length old ≡ 6 }
    ensures { Grown old result (λ i l. has (mask_at above i) t.0 && has (value_of y) l) }
{
    array::from_fn(|i| add_if(old[i], y, above[i].has(t.0)))
}

// Each label with what entry `f` shows of a cell of the row. A role's ancestors carry it on if the role is transitive: `m` has them apart.
fn with_every(
    old: [Label; 6],
    cs: &[u8],
    m: &[u16; 49],
    x: Label,
    above: [u16; 6],
    f: EntryNo,
) -> [Label; 6]
    requires { (length old ≡ 6) × (f.0 < most_entries) }
    ensures { Grown old result (entry_shows cs.now m.now (value_of x) above f.0) }
{
    // By its fields: the concept of each entry would be read whole.
    let g = fields_at(cs, f);
    if g.kind == 3 {
        let carry = m[(16 + g.role % 16) as usize];
        let shown = passed_by(cs, carry, x, f, g.first);
        with_passed(old, above, RoleNo(g.role), shown)
    } else {
        old
    }
}

// What each row shows of its own cells; `above` has the ancestors of their roles.
// The entries are walked once, not once a row; for each "every" of a transitive role once more (`is_carried`).
pub fn shown_of(cs: &[u8], m: &[u16; 49], x: Label, rows: &Rows, above: [u16; 6]) -> [Label; 6]
    ensures { Masks (λ i. above_of m.now (given (held_at rows.now.held i))) rows.now.count above
        → Labels (λ i. shown_by cs.now m.now (value_of x) (carried_at cs.now m.now (value_of x)) (given (held_at rows.now.held i)))
        rows.now.count result }
{
    let mut out = qualified_of(rows);
    for f in 0..entry_count(cs) {
        let next = with_every(out, cs, m, x, above, EntryNo(f));
        out = next;
    }
    out
}

// Whether two masks have a role in common: `Bits::meets`, told role by role, as what a cell shows is.
fn meet(x: u16, y: u16) -> bool
    ensures { result ≡ any_below 16 (λ t. has x t && has y t) }
{
    x.meets(y)
}

// The label with what a row shows of a cell: `shown` if it is within the row, `against` if it is outside and has the role.
fn with_row(x: Label, within: bool, shown: Label, reached: bool, against: u8) -> Label
    ensures { Puts (value_of x) (value_of result) (λ l. cond within (has (value_of shown) l) (reached && eqb against l)) }
{
    if within {
        return join(x, shown);
    }
    if reached {
        return put(x, against);
    }
    x
}

// What cell `c` shows: the label that every filler of it has. Of the rows outside it the roles tell which are denied.
pub fn known_label(
    roles: u16,
    own: &[u16; 6],
    shown: &[Label; 6],
    against: &[u8; 6],
    c: u8,
) -> Label
    ensures { value_of result ≡ gathered_by (has roles) own.now shown.now against.now c }
{
    let mut out = only(0);
    for i in 0..6u8 {
        let inside = shown[i as usize];
        out = with_row(
            out,
            (c as u16).has(i),
            inside,
            meet(roles, own[i as usize]),
            against[i as usize],
        );
    }
    out
}
