// What a label carries on to the fillers: the entries "every q l" that make the edges of a transitive role carry "every" on.
#![tactic(auto)]

ghost use Rattle.std.specs.Prelude.{◌≡◌, cond, ◌&&◌, ◌*◌, ◌%◌, ◌<◌, eqb};
ghost use Rattle.labels.specs.Labels.{most_entries, value_of, label_with};
ghost use Rattle.tables.specs.Tables.{fields_at};
ghost use Rattle.sources.specs.Sources.{every_above, has_above, sources_above, sources_of, SourcesOf};

use labels::{Label, MOST_ENTRIES, empty, entries_of, next_rest, put};
use tables::{EntryNo, entry_count, fields_at};
use words::Bits;

// The entries "every q l" of the table `cs` with `q` in the mask `above`.
#[derive(Clone, Copy)]
struct Above<'a> {
    cs: &'a [u8],
    above: u16,
    l: u8,
}

impl<'a> Above<'a> {
    // Whether entry `f` is one.
    fn has(&self, f: EntryNo) -> bool
        ensures { result ≡ every_above self.now.above self.now.l (fields_at self.now.cs.now f.0) }
    {
        // By its fields: most entries fail at one of them, and the concept would be read whole.
        let g = fields_at(self.cs, f);
        let higher = self.above.has(g.role);
        (g.kind == 3) & ((g.first == self.l) & higher)
    }

    // Whether entry `f` is one, and in front of `rest`: if it is not, it is not read.
    fn has_held(&self, rest: u32, f: EntryNo) -> bool
        ensures { result ≡ (eqb (rest % 2) 1 && every_above self.now.above self.now.l (fields_at self.now.cs.now f.0)) }
    {
        if rest % 2 == 1 { self.has(f) } else { false }
    }

    // Whether the label holds one.
    fn meets(&self, x: Label) -> bool
        ensures { result ≡ has_above self.now.cs.now (value_of x) self.now.above self.now.l }
    {
        let mut rest: u32 = 0;
        for f in 0..entry_count(self.cs) {
            // So told that `f` is below 64 the compiler makes no branch for a word past the last.
            rest = next_rest(x, rest, f % 64);
            if self.has_held(rest, EntryNo(f)) {
                return true;
            }
        }
        false
    }

    // The label with entry `f`, if that is one.
    fn put(&self, x: Label, f: EntryNo) -> Label
        requires { f.0 < most_entries }
        ensures { let one = every_above self.now.above self.now.l (fields_at self.now.cs.now f.0) in
            value_of result ≡ cond one (label_with (value_of x) (2 * f.0)) (value_of x) }
    {
        if self.has(f) { put(x, 2 * f.0) } else { x }
    }

    // All of them.
    fn label(&self) -> Label
        ensures { value_of result ≡ sources_above self.now.cs.now self.now.above self.now.l }
    {
        let mut out = empty();
        for f in 0..entry_count(self.cs) {
            out = self.put(out, EntryNo(f));
        }
        out
    }
}

// Whether the edges of a role carry "every" of it and `l` on; `carry` has its ancestors if it is transitive, and is empty if it is not.
pub fn is_carried(cs: &[u8], carry: u16, x: Label, l: u8) -> bool
    ensures { result ≡ has_above cs.now (value_of x) carry l }
{
    if carry == 0 {
        return false;
    }
    let entries = Above {
        cs,
        above: carry,
        l,
    };
    entries.meets(x)
}

// The sources of entry `e`: none if it is no "every" or its role is not transitive.
fn sources_at(m: &[u16; 49], cs: &[u8], e: EntryNo) -> Label
    ensures { value_of result ≡ sources_of m.now cs.now (fields_at cs.now e.0) }
{
    let g = fields_at(cs, e);
    let above = m[(16 + g.role % 16) as usize];
    if (g.kind == 3) & (above != 0) {
        let entries = Above {
            cs,
            above,
            l: g.first,
        };
        entries.label()
    } else {
        empty()
    }
}

// For each entry "every r l" with `r` transitive, the entries whose presence in a label makes the edges of role `r` carry it on; `m` has
// the masks of the roles.
pub fn sources(m: &[u16; 49], cs: &[u8]) -> [u64; MOST_ENTRIES as usize]
    ensures { SourcesOf m.now cs.now result }
{
    let mut out = [0; MOST_ENTRIES as usize];
    // Not over all 64: most tables have fewer entries.
    for e in 0..entry_count(cs) {
        out[e as usize] = entries_of(sources_at(m, cs, EntryNo(e)));
    }
    out
}
