// Writes the line of a graph.
#![tactic(auto)]

ghost use Rattle.std.specs.Prelude.{◌≡◌, cond, ◌+◌, ◌*◌, ◌/◌, ◌^◌, ◌≤◌, ◌<◌, ltb, length};
ghost use Rattle.labels.specs.Labels.{most_entries, wide, name_bytes, value_of};
ghost use Rattle.logic.specs.Sets.{has};
ghost use Rattle.answers.specs.Answers.{of_written, length_of};
ghost use Rattle.lines.specs.Lines.{line_length};
ghost use Rattle.lines.specs.Laying.{Masks, Names};
ghost use Rattle.evidence.specs.Evidence.{record_count};
ghost use Rattle.line_writer.specs.WriteBytes.{rows_at, LaidLine};
ghost use Rattle.line_writer.specs.WriteOrder.{ToldOf, OpenedTold};
ghost use Rattle.line_writer.specs.Writing.{write_answer, write_length, buffer_after};
ghost use Rattle.line_writer.specs.WriteSteps.{name_in, names_of, element_names, transitives_in, row_masks, direct_masks};

use answers::{Reason, Refusal};
use closing::close_roles;
use copies::{most_copies, owner_mask};
use evidence::{Stored, layout_of};
use graph_check::test_sample;
use intake::{Opening, open_description};
use labels::{Label, holds, name_bytes};
use lines::{MOST_ELEMENTS, name_at, put_mask, row_at};
use parts::{byte, up_to};
use tables::{EntryNo, entry_count};
use words::Bits;

// The name mask `m` at `at`, high byte first: the last of the bytes of the word.
fn put_names(buf: &mut [u8], at: usize, m: u64, broad: bool)
    requires { (at + name_bytes broad ≤ length buf.old) × (m < 2 ^ (8 * name_bytes broad)) }
    ensures { Names broad at (λ i. m) buf.old 1 buf.new }
{
    let bytes = m.to_be_bytes();
    let w = name_bytes(broad);
    buf[at..at + w].copy_from_slice(&bytes[8 - w..]);
}

// Whether entry `e` is a name that the label holds. The byte of its kind tells: a concept would be read whole for each entry of each
// element.
fn name_in(cs: &[u8], x: Label, e: EntryNo) -> bool
    requires { e.0 < most_entries }
    ensures { result ≡ name_in cs.now (value_of x) e.0 }
{
    (byte(cs, 6 * (e.0 as usize)) == 1) & holds(x, 2 * e.0)
}

// The name entries that the label holds. `set_where` asks for a test of any number, and past entry 127 a literal is no byte.
fn name_mask(cs: &[u8], x: Label) -> u64
    ensures { (result ≡ names_of cs.now (value_of x)) × (result < 2 ^ (8 * name_bytes (wide (length cs.now / 6)))) }
{
    let mut out: u64 = 0;
    for e in 0..entry_count(cs) {
        out = out.put(e, name_in(cs, x, EntryNo(e)));
    }
    out
}

// The element after copy `j` of record `y`, with `k` copies of each: which copy it is, and of which record. A division would be a library
// call on a small processor.
fn copy_after(j: u8, k: u8) -> u8
    requires { j < k }
    ensures { result ≡ cond (ltb (j + 1) k) (j + 1) 0 }
{
    if j + 1 < k { j + 1 } else { 0 }
}

fn record_after(y: u8, j: u8, k: u8) -> u8
    requires { (j < k) × (y < 255) }
    ensures { result ≡ cond (ltb (j + 1) k) y (y + 1) }
{
    if j + 1 < k { y } else { y + 1 }
}

// The row at `at`: the direct pairs from a copy of a record with the edges `es` to `d` elements, `k` copies of each record.
fn lay_row(buf: &mut [u8], at: usize, es: &[u8], d: u8, k: u8)
    requires { (1 ≤ k) × (at + 2 * d ≤ length buf.old) }
    ensures { Masks at (row_masks es.now k) buf.old d buf.new }
{
    let mut y: u8 = 0;
    let mut j: u8 = 0;
    // Not a loop of copies within one of records: that takes two in a hundred more of a line.
    for w in 0..d {
        put_mask(buf, at + 2 * (w as usize), owner_mask(es, y, j as usize));
        y = record_after(y, j, k);
        j = copy_after(j, k);
    }
}

// The transitive ones of so many roles. A mask of 16 places: what `set_where` gives has 64.
fn transitive_roles(a: &[u16; 49], roles: u8) -> u16
    ensures { result ≡ transitives_in a.now roles }
{
    let mut out: u16 = 0;
    for r in 0..up_to(16, roles as usize) {
        out = out.put(r, a[(16 + r) as usize].has(r));
    }
    out
}

// What a line is written from: the concept entries, the graph, and how many elements there are, so many
// copies of each record.
#[derive(Clone, Copy)]
struct Plan<'a> {
    concepts: &'a [u8],
    graph: Stored<'a>,
    size: u8,
    copies: u8,
    ghost some: { 1 ≤ copies },
    ghost width: { graph.layout.wide ≡ wide (length concepts.now / 6) },
}

impl Plan<'_> {
    // The name entries of element `z`.
    fn names(&self, z: u8) -> u64
        ensures { (result ≡ element_names self.now.concepts.now self.now.graph.layout self.now.graph.bytes.now self.now.copies z)
            × (result < 2 ^ (8 * name_bytes self.now.graph.layout.wide)) }
    {
        name_mask(self.concepts, self.graph.label(z / self.copies))
    }

    // Where the role masks begin.
    fn rows(&self) -> usize
        ensures { (result ≡ rows_at self.now.graph.layout self.now.size) × (result ≤ 65536) }
    {
        name_at(self.size, self.graph.layout.wide)
    }

    // The length of the line.
    fn len(&self) -> usize
        ensures { result ≡ line_length (name_bytes self.now.graph.layout.wide) self.now.size }
    {
        row_at(self.rows(), self.size, self.size)
    }

    // The name masks.
    fn lay_names(&self, buf: &mut [u8])
        requires { rows_at self.now.graph.layout self.now.size ≤ length buf.old }
        ensures { Names self.now.graph.layout.wide 1 (element_names self.now.concepts.now self.now.graph.layout self.now.graph.bytes.now self.now.copies)
            buf.old self.now.size buf.new }
    {
        for z in 0..self.size {
            let m = self.names(z);
            put_names(
                buf,
                name_at(z, self.graph.layout.wide),
                m,
                self.graph.layout.wide,
            );
        }
    }

    // The rows of the direct pairs, the first at `at`.
    fn lay_rows(&self, buf: &mut [u8], at: usize)
        requires { at + 2 * (self.now.size * self.now.size) ≤ length buf.old }
        ensures { Masks at (direct_masks self.now.graph.layout self.now.graph.bytes.now self.now.copies self.now.size)
            buf.old (self.now.size * self.now.size) buf.new }
    {
        for x in 0..self.size {
            let es = self.graph.rest(x / self.copies);
            lay_row(buf, row_at(at, self.size, x), es, self.size, self.copies);
        }
    }

    // The line, with the transitive roles `t` and the masks `a` of the roles.
    fn lay_line(&self, buf: &mut [u8], t: u16, a: &[u16; 49])
        requires { line_length (name_bytes self.now.graph.layout.wide) self.now.size ≤ length buf.old }
        ensures { LaidLine t self.now.concepts.now self.now.graph.layout self.now.graph.bytes.now a.now self.now.copies self.now.size buf.old buf.new }
    {
        let at = self.rows();
        buf[0] = self.size;
        self.lay_names(buf);
        self.lay_rows(buf, at);
        close_roles(buf, at, self.size, t, a);
    }
}

// The number of elements, with `k` copies of each of `n` records.
fn element_count(n: u8, k: usize) -> usize
    requires { k ≤ 32 * 65535 }
    ensures { result ≡ n * k }
{
    (n as usize) * k
}

// 21, 22, and then the line, for a graph that keeps the rules of the opened description.
fn write_kept(buf: &mut [u8], o: &Opening, s: &[u8]) -> Result<usize, Refusal>
    requires { 1 ≤ record_count s.now }
    ensures { let d = o.now in ToldOf (transitives_in d.masks d.count) d.concepts.now s.now d.masks buf.old buf.new result }
{
    let graph = Stored {
        bytes: s,
        layout: layout_of(o.concepts, false),
    };
    // Behind `test_sample` byte 1 is the number of records.
    let n = byte(s, 1);
    let k = most_copies(&graph, n);
    let size = element_count(n, k);
    if MOST_ELEMENTS < size {
        return Err(Reason::Big.whole());
    }
    let p = Plan {
        concepts: o.concepts,
        graph,
        size: size as u8,
        copies: k as u8,
    };
    let len = p.len();
    if buf.len() < len {
        return Err(Reason::Short.whole());
    }
    p.lay_line(buf, transitive_roles(&o.masks, o.count), &o.masks);
    Ok(len)
}

// Tests 9 to 15 of the graph, then the line.
fn write_opened(buf: &mut [u8], o: &Opening, s: &[u8]) -> Result<usize, Refusal>
    ensures { let d = o.now in OpenedTold d.masks d.count d.concepts.now d.query.now s.now buf.old buf.new result }
{
    test_sample(o, s)?;
    write_kept(buf, o, s)
}

// Writes the line of the graph `s` into the buffer: the bytes of the line, and then the old bytes. On a refusal no byte is written.
pub fn write_interpretation(d: &[u8], s: &[u8], buf: &mut [u8]) -> Result<usize, Refusal>
    ensures answer { of_written result ≡ write_answer d.now s.now (length buf.old) }
    ensures size { length_of result ≡ write_length d.now s.now (length buf.old) }
    ensures bytes { buf.new ≡ buffer_after d.now s.now buf.old }
{
    let o = open_description(d);
    o.tested?;
    write_opened(buf, &o, s)
}
