// The head of evidence, and the form of its records.
#![tactic(auto)]

ghost use Rattle.std.specs.Prelude.{◌≡◌, ◌+◌, ◌*◌, ◌/◌, ◌<◌, length};
ghost use Rattle.std.proofs.Math.Option.{none};
ghost use Rattle.logic.specs.Refusals.{unless};
ghost use Rattle.parts.specs.Numbers.{num2};
ghost use Rattle.labels.specs.Labels.{value_of};
ghost use Rattle.evidence.specs.Evidence.{head_test, head_of, head_refusal, layout_for, node_form_test, label_of, edges_part};

use labels::{Label, is_wide, label_bytes, load};
use parts::{byte, pairs_fill, read2};

// Evidence has at most so many records, and a graph's record so many edges.
const MOST_RECORDS: u8 = 64;

pub const MOST_EDGES: usize = 32;

// How the records of evidence for a description are stored: with wide labels or not, and with a mark for cells that their roles bar or not.
#[derive(Clone, Copy)]
pub struct Layout {
    pub wide: bool,
    pub marks: bool,
}

// What evidence is, with the number of its records.
#[derive(Clone, Copy)]
pub enum Head {
    GraphOf(u8),
    RefutationOf(u8),
}

// Test 9.
fn head_ok(s: &[u8]) -> bool
    ensures { result ≡ head_test s.now }
{
    let kind = byte(s, 0);
    let n = byte(s, 1);
    let filled = pairs_fill(s, 2, n, 2 + 4 * (n as u16));
    ((1 <= kind) & (kind <= 2)) & ((1 <= n) & ((n <= MOST_RECORDS) & filled))
}

// None if test 9 fails.
pub fn read_head(s: &[u8]) -> Option<Head>
    ensures { (result ≡ head_of s.now) × (head_refusal result ≡ unless (head_test s.now) 9 none) }
{
    if head_ok(s) {
        if byte(s, 0) == 1 {
            Some(Head::GraphOf(byte(s, 1)))
        } else {
            Some(Head::RefutationOf(byte(s, 1)))
        }
    } else {
        None
    }
}

// How evidence for a description with the concepts `cs` is stored, if it has a fourth part (`marks`) or not. A graph has no cells, so that
// it reads the same with either.
pub fn layout_of(cs: &[u8], marks: bool) -> Layout
    ensures { result ≡ layout_for (length cs.now / 6) marks }
{
    Layout {
        wide: is_wide(cs.len() / 6),
        marks,
    }
}

// Test 10 of a graph's record of `n` bytes.
pub fn node_form_ok(n: usize, f: Layout) -> bool
    ensures { result ≡ node_form_test f n }
{
    let w = label_bytes(f.wide);
    if n < w {
        false
    } else {
        ((n - w) % 5 == 0) & ((n - w) / 5 <= MOST_EDGES)
    }
}

// Where record `i` begins, with one comparison if its offset is all there: each edge asks it of its target.
fn record_start(s: &[u8], i: u8) -> usize
    ensures { (result ≡ num2 s.now (2 + 4 * i)) × (result < 65536) }
{
    let at = (2 + 4 * (i as u32)) as usize;
    if s.len() < at + 2 {
        return (byte(s, at) as usize) * 256;
    }
    read2(s, at)
}

// Evidence, with the layout that its records are stored in. They are read in place.
#[derive(Clone, Copy)]
pub struct Stored<'a> {
    pub bytes: &'a [u8],
    pub layout: Layout,
}

impl<'a> Stored<'a> {
    // The label of record `i`.
    pub fn label(&self, i: u8) -> Label
        ensures { value_of result ≡ label_of self.now.layout self.now.bytes.now i }
    {
        let s = self.bytes;
        load(s, record_start(s, i), self.layout.wide)
    }

    // The bytes behind the label of record `i`, edges or a step; none if it has no label or does not lie in the evidence.
    pub fn rest(&self, i: u8) -> &'a [u8]
        ensures { result.now ≡ edges_part self.now.layout self.now.bytes.now i }
    {
        let s = self.bytes;
        let w = label_bytes(self.layout.wide);
        let at = 2 + 4 * (i as usize);
        let from = read2(s, at);
        let to = from + read2(s, at + 2);
        if to < from + w {
            return &s[..0];
        }
        if s.len() < to {
            return &s[..0];
        }
        &s[from + w..to]
    }
}
