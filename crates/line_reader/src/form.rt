// Test 23: the form of a line.
ghost use Rattle.std.specs.Prelude.{◌≡◌, List, ℕ, ◌&&◌, ◌+◌, ◌*◌, ◌/◌, ◌≤◌, IfSome, eqb, leb, length, is_some};
ghost use Rattle.std.proofs.Math.Option.{Option};
ghost use Rattle.logic.specs.Bounded.{all_below};
ghost use Rattle.logic.specs.Sets.{narrow, within, set_of};
ghost use Rattle.labels.specs.Labels.{most_entries, wide};
ghost use Rattle.tables.specs.Tables.{describe};
ghost use Rattle.lines.specs.Lines.{most_elements, elements, names_at, line_test};
ghost use Rattle.line_reader.specs.LineSteps.{mask_at, name_entry, size_test};

use super::places::Line;
use lines::{MOST_ELEMENTS, name_at};
use parts::byte;
use tables::{Concept, EntryNo, concept_at};
use words::{Bits, set_where};

// Whether entry `e` is a name.
fn is_name(cs: &[u8], e: EntryNo) -> bool
    ensures { result ≡ name_entry cs.now e.0 }
{
    matches!(concept_at(cs, e), Concept::Name)
}

// The set of the name entries.
fn name_set(cs: &[u8]) -> u64
    requires { length cs.now / 6 ≤ most_entries }
    ensures { result ≡ set_of (length cs.now / 6) (name_entry cs.now) }
{
    set_where((cs.len() / 6) as u8, |e| is_name(cs, EntryNo(e)))
}

// Whether a line of `d` elements with role masks from `rows` on has some elements, no more than it may, and the length that they ask for.
fn size_ok(s: &[u8], d: u8, rows: usize) -> bool
    requires { rows ≤ 65536 }
    ensures { result ≡ (leb 1 d && (leb d most_elements && eqb (length s.now) (rows + 2 * (d * d)))) }
{
    let n = d as usize;
    (1 <= n) & ((n <= MOST_ELEMENTS) & (s.len() == rows + 2 * (n * n)))
}

// The line in the bytes `s`, if it has the length that its number of elements asks for; `broad` tells the width of the name masks.
fn sized_line(s: &[u8], broad: bool) -> Option<Line<'_>>
    ensures size { is_some result ≡ size_test broad s.now }
    ensures line { IfSome result (λ l. (l.bytes.now ≡ s.now) × (l.broad ≡ broad) × (l.size ≡ elements s.now)) }
{
    let size = byte(s, 0);
    let rows = name_at(size, broad);
    if !size_ok(s, size, rows) {
        return None;
    }
    Some(Line {
        bytes: s,
        broad,
        size,
        rows,
    })
}

// Whether each name mask lies within `set`.
fn names_ok(l: &Line, set: u64) -> bool
    ensures { result ≡ all_below l.now.size (λ x. within (names_at l.now.broad l.now.bytes.now x) set) }
{
    (0..l.size).all(|x| l.names(x).is_within(set))
}

// Whether each role mask holds numbers below `n` alone.
fn masks_ok(l: &Line, n: usize) -> bool
    ensures { result ≡ all_below (l.now.size * l.now.size) (λ q. narrow (mask_at l.now.bytes.now l.now.rows q) n) }
{
    (0..l.pair_count()).all(|q| l.mask(q).is_below(n))
}

// Test 23: the line in the bytes `s`, if it has the form that the description asks for.
pub(crate) fn formed_line<'a>(rs: &[u8], cs: &[u8], s: &'a [u8], broad: bool) -> Option<Line<'a>>
    requires { (length cs.now / 6 ≤ most_entries) × (broad ≡ wide (length cs.now / 6)) }
    ensures form { (qs : List ℕ) (p : Option (List ℕ)) → is_some result ≡ line_test (describe rs.now cs.now qs p) s.now }
    ensures line { IfSome result (λ l. (l.bytes.now ≡ s.now) × (l.broad ≡ broad) × (l.size ≡ elements s.now) × (1 ≤ l.size)) }
{
    let line = sized_line(s, broad)?;
    let names = names_ok(&line, name_set(cs));
    let masks = masks_ok(&line, rs.len() / 3);
    if names & masks { Some(line) } else { None }
}
