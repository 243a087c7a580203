// The tree of a counting step: test 19.
#![tactic(auto)]

ghost use Rattle.std.specs.Prelude.{Some, ◌≡◌, ◌&&◌, ◌+◌, ◌≤◌, ◌<◌, ltb, length, set};
ghost use Rattle.std.proofs.Math.Option.{none};
ghost use Rattle.logic.specs.Refusals.{unless};
ghost use Rattle.counting.specs.Trees.{at_most, more_than};
ghost use Rattle.parts.specs.Numbers.{byte_at, num2};
ghost use Rattle.counting.specs.Rows.{limits};
ghost use Rattle.refutation.specs.Cells.{bounds};
ghost use Rattle.rows.specs.HeldRows.{rows_held};
ghost use Rattle.list_leaf.specs.Leaf.{limits_held, marked};
ghost use Rattle.list_leaf.specs.OpenLaws.{Among};
ghost use Rattle.list_tree.specs.declared.Fit.TheVariants.{Splitting};
ghost use Rattle.list_tree.specs.TreeSteps.{meant, fit_node, fit_refusal, is_fit, closed_in, end_of};
ghost use Rattle.list_tree.specs.ListTree.{value_fits, closing_in};

use list_form::{Node, read_node};
use list_leaf::{Limit, leaf_closes, open_cells};
use parts::{byte, mask2};
use rows::{Rows, cell_count, row_at};
use std::array;
use tables::Side;

// A node that fits under the limits on its way: a leaf that closes, with the place where it ends, or a split. Another is 19.
#[derive(Clone, Copy)]
enum Fit {
    Closing(usize),
    Splitting,
}

// The limits on the way to a node: the first `len` that an array holds; the rows, then the halves of the splits passed.
#[derive(Clone, Copy)]
struct Way {
    limits: [Limit; 14],
    len: u8,
}

impl Way {
    // The rows as limits.
    fn of_rows(rows: &Rows) -> Way
        requires { rows.now.count ≤ 6 }
        ensures { (length result.limits ≡ 14) × (result.len ≡ rows.now.count)
            × (limits_held rows.now.count result.limits rows.now.count ≡ limits (bounds (rows_held rows.now.held rows.now.count))) }
    {
        let none = Limit {
            bound: 0,
            side: Side::Lower,
            cell: 0,
        };
        Way {
            limits: array::from_fn(|i| {
                let i = i as u8;
                if i < rows.count {
                    Limit::from(row_at(rows, i))
                } else {
                    none
                }
            }),
            len: rows.count,
        }
    }

    // Puts a limit behind those that are there.
    fn push(&mut self, x: Limit)
        requires { self.old.len < 14 }
        ensures { (self.new.limits ≡ set self.old.limits self.old.len x) × (self.new.len ≡ self.old.len + 1) }
    {
        self.limits[self.len as usize] = x;
        self.len += 1;
    }
}

// A tree as it is walked: the bytes of its step, the marks of the open cells, and the number of rows.
#[derive(Clone, Copy)]
struct Tree<'a> {
    ds: &'a [u8],
    marks: &'a [bool; 64],
    k: u8,
}

impl<'a> Tree<'a> {
    // The limits that the halves of the split at `at` bring: at most its value,
    fn low_half(&self, at: usize) -> Limit
        requires { at + 4 ≤ length self.now.ds.now }
        ensures { meant result ≡ at_most (byte_at self.now.ds.now (at + 1)) (num2 self.now.ds.now (at + 2)) }
    {
        Limit {
            bound: mask2(self.ds, at + 2),
            side: Side::Upper,
            cell: byte(self.ds, at + 1),
        }
    }

    // and at least one more.
    fn high_half(&self, at: usize) -> Limit
        requires { (at + 4 ≤ length self.now.ds.now) × (num2 self.now.ds.now (at + 2) ≤ 1000) }
        ensures { meant result ≡ more_than (byte_at self.now.ds.now (at + 1)) (num2 self.now.ds.now (at + 2)) }
    {
        Limit {
            bound: mask2(self.ds, at + 2) + 1,
            side: Side::Lower,
            cell: byte(self.ds, at + 1),
        }
    }

    // Whether the split at `at` is of a marked cell, at a value of at most 1,000.
    fn split_fits(&self, at: usize) -> bool
        requires { at + 4 ≤ length self.now.ds.now }
        ensures { result ≡ (ltb (byte_at self.now.ds.now (at + 1)) 64
            && (marked self.now.marks.now (byte_at self.now.ds.now (at + 1)) && value_fits (num2 self.now.ds.now (at + 2)))) }
    {
        let c = byte(self.ds, at + 1) as usize;
        if 64 <= c {
            return false;
        }
        let v = mask2(self.ds, at + 2);
        self.marks[c] & (v <= 1000)
    }

    // The node at `at` under the limits on its way, if it fits.
    fn fit_node(&self, way: &Way, at: usize) -> Option<Fit>
        requires { (self.now.k ≤ 6) × (self.now.k ≤ way.now.len) × (way.now.len ≤ 14) × Among self.now.k self.now.marks.now }
        ensures { (result ≡ fit_node self.now.ds.now self.now.k (marked self.now.marks.now) way.now.len
            (limits_held self.now.k way.now.limits way.now.len) at)
            × (fit_refusal result ≡ unless (is_fit (fit_node self.now.ds.now self.now.k (marked self.now.marks.now) way.now.len
            (limits_held self.now.k way.now.limits way.now.len) at)) 19 none) }
    {
        match read_node(self.ds, way.len, at)? {
            Node::Leaf(end) => {
                if leaf_closes(&way.limits, self.k, self.marks, &self.ds[at + 1..end]) {
                    Some(Fit::Closing(end))
                } else {
                    None
                }
            }
            Node::Split => {
                if self.split_fits(at) {
                    Some(Fit::Splitting)
                } else {
                    None
                }
            }
        }
    }

    // Where the tree at `at` ends, if it closes under the limits on its way, with at most `left` splits above a leaf.
    fn closes_at(&self, way: &Way, left: u8, at: usize) -> Option<usize>
        requires { (self.now.k ≤ 6) × (self.now.k ≤ way.now.len) × (way.now.len + left ≤ 14) × (length way.now.limits ≡ 14)
            × Among self.now.k self.now.marks.now }
        ensures { result ≡ end_of (closed_in self.now.ds.now self.now.k (marked self.now.marks.now) left way.now.len
            (limits_held self.now.k way.now.limits way.now.len) at) }
    {
        match self.fit_node(way, at)? {
            Fit::Closing(end) => Some(end),
            Fit::Splitting => {
                if left == 0 {
                    return None;
                }
                let mut path = *way;
                path.push(self.low_half(at));
                let next = self.closes_at(&path, left - 1, at + 4)?;
                // In the place of the first half, so that a level holds one array.
                path.limits[way.len as usize] = self.high_half(at);
                self.closes_at(&path, left - 1, next)
            }
        }
    }

    // Where the tree ends whose root at `at` is a split that fits under the rows, if it closes.
    fn halves_close(&self, way: &Way, at: usize) -> Option<usize>
        requires { (self.now.k ≤ 6) × (way.now.len ≡ self.now.k) × (length way.now.limits ≡ 14) × Among self.now.k self.now.marks.now
            × (Some Splitting ≡ fit_node self.now.ds.now self.now.k (marked self.now.marks.now) self.now.k
            (limits_held self.now.k way.now.limits self.now.k) at) }
        ensures { result ≡ end_of (closed_in self.now.ds.now self.now.k (marked self.now.marks.now) 8 self.now.k
            (limits_held self.now.k way.now.limits self.now.k) at) }
    {
        let mut path = *way;
        path.push(self.low_half(at));
        let next = self.closes_at(&path, 7, at + 4)?;
        path.limits[way.len as usize] = self.high_half(at);
        self.closes_at(&path, 7, next)
    }
}

// Whether the tree of the step `ds` closes its rows over the open cells: test 19.
pub fn tree_closes(rows: &Rows, ds: &[u8]) -> bool
    ensures { result ≡ closing_in (bounds (rows_held rows.now.held rows.now.count)) ds.now rows.now.count }
{
    let k = rows.count;
    if 6 < k {
        return false;
    }
    let from = 2 + (k as usize);
    let start = from + (cell_count(k) - 1);
    if ds.len() < start {
        return false;
    }
    let way = Way::of_rows(rows);
    let marks = open_cells(&ds[from..start], k);
    let tree = Tree {
        ds,
        marks: &marks,
        k,
    };
    // The root is looked at here too, so that a leaf's sums lie once above the deepest split and not on every level (docs/COST.md);
    // and split here, so that the deepest tree takes one level less.
    match tree.fit_node(&way, start) {
        None => false,
        Some(Fit::Closing(_)) => true,
        Some(Fit::Splitting) => tree.halves_close(&way, start).is_some(),
    }
}
