// The form of a refutation's record behind its label: test 10.
#![tactic(auto)]

ghost use Rattle.std.specs.Prelude.{◌≡◌, Bool, cond, ◌+◌, ◌≤◌, ◌<◌};
ghost use Rattle.std.proofs.Math.Option.{none};
ghost use Rattle.logic.specs.Refusals.{unless};
ghost use Rattle.list_form.specs.ListForm.{is_mark, node_in, node_refusal, is_node, tree_in, tree_at, counting_in, step_in};
ghost use Rattle.list_form.specs.FormSteps.{end_of, formed};

use parts::byte;

// What stands at a place of a tree: a leaf with the place where it ends, or a split.
#[derive(Clone, Copy)]
pub enum Node {
    Leaf(usize),
    Split,
}

// The node at `at`, if one stands there; a leaf has a multiplier for each of `limits` bounds.
pub fn read_node(ds: &[u8], limits: u8, at: usize) -> Option<Node>
    ensures { (result ≡ node_in ds.now limits at) × (node_refusal result ≡ unless (is_node (node_in ds.now limits at)) 10 none) }
{
    if ds.len() <= at {
        return None;
    }
    let tag = byte(ds, at);
    if tag == 0 {
        let end = at + 1 + (limits as usize);
        if ds.len() < end {
            return None;
        }
        return Some(Node::Leaf(end));
    }
    let split = (at + 4 <= ds.len()) & (tag == 1);
    if split {
        return Some(Node::Split);
    }
    None
}

// Where the tree at `at` ends, with at most `left` splits above a leaf, under `limits` bounds, if it has its form.
fn tree_end(ds: &[u8], left: u8, limits: u8, at: usize) -> Option<usize>
    requires { left + limits ≤ 14 }
    ensures { result ≡ end_of (tree_in ds.now left limits at) }
{
    match read_node(ds, limits, at)? {
        Node::Leaf(end) => Some(end),
        Node::Split => {
            if left == 0 {
                return None;
            }
            let next = tree_end(ds, left - 1, limits + 1, at + 4)?;
            tree_end(ds, left - 1, limits + 1, next)
        }
    }
}

// Where the tree of a counting step with `k` rows begins: behind the step byte, `k`, the row literals and the cells.
fn tree_start(k: u8) -> usize
    requires { k ≤ 6 }
    ensures { result ≡ tree_at k }
{
    2 + (k as usize) + ((1 << (k as usize)) - 1)
}

// The form of a counting step with `k` rows.
fn counting_form(ds: &[u8], k: u8) -> bool
    ensures { (marks : Bool) → result ≡ formed (counting_in marks ds.now k) }
{
    if k < 1 {
        return false;
    }
    if 6 < k {
        return false;
    }
    let start = tree_start(k);
    if ds.len() < start {
        return false;
    }
    let Some(end) = tree_end(ds, 8, k, start) else {
        return false;
    };
    end == ds.len()
}

// The first cell byte that is a mark: 254 where barred cells have one, else 255. A cell stays the byte that it is: 63 of them are read a
// step, and whoever reads one asks a single comparison.
fn first_mark(marks: bool) -> u8
    ensures { result ≡ cond marks 254 255 }
{
    if marks { 254 } else { 255 }
}

// Whether the cell byte `b` is a mark, of an open or a barred cell: all bytes from the first mark on are marks, so one comparison tells it.
pub fn is_mark(b: u8, marks: bool) -> bool
    ensures { result ≡ is_mark marks b }
{
    first_mark(marks) <= b
}

// Test 10 of the bytes behind a label: a known step, its data, and nothing more. The step is the byte that stands there, here and where its
// tests are chosen: as an enum its data would be read for 10 and once more for the tests. It does not look at cells, so that it is the
// same with a mark for barred ones and without.
pub fn step_form(ds: &[u8]) -> bool
    ensures { (marks : Bool) → result ≡ formed (step_in marks ds.now) }
{
    let step = byte(ds, 0);
    let n = ds.len();
    match step {
        1 => n == 2,
        2 => n == 3,
        3 => n == 4,
        4 => n == 3,
        5 => n == 4,
        6 => counting_form(ds, byte(ds, 1)),
        _ => false,
    }
}
