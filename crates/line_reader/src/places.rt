// A line in bytes: the number of its elements, their name masks, then the rows of role masks.
ghost use Rattle.std.specs.Prelude.{◌≡◌, List, ℕ, ◌*◌, ◌≤◌};
ghost use Rattle.logic.specs.Sets.{has};
ghost use Rattle.labels.specs.Labels.{name_bytes};
ghost use Rattle.lines.specs.Lines.{most_elements, name_at, names_at};
ghost use Rattle.lines.specs.Numerals.{Numeral};
ghost use Rattle.line_reader.specs.LineSteps.{mask_at, row_of};

use labels::{load_names, name_bytes};
use lines::{name_at, row_at};
use parts::{byte, mask2};
use tables::RoleNo;
use words::push;

// The line of `size` elements in `bytes`: `broad` tells the width of its name masks, and its role masks lie from `rows` on.
#[derive(Clone, Copy)]
pub(crate) struct Line<'a> {
    pub(crate) bytes: &'a [u8],
    pub(crate) broad: bool,
    pub(crate) size: u8,
    pub(crate) rows: usize,
    ghost few: { size ≤ most_elements },
    ghost behind: { rows ≡ name_at (name_bytes broad) size },
    ghost near: { rows ≤ 65536 },
}

// Whether the number of `w` bytes at `at` holds `e`: by the one byte that tells.
fn bit_at(s: &[u8], at: usize, w: usize, e: u8) -> bool
    requires { (at ≤ 131072) × (w ≤ 8) }
    ensures { (read : List ℕ → ℕ → ℕ) → Numeral w read → result ≡ has (read s.now at) e }
{
    let before = (e / 8) as usize;
    if w <= before {
        return false;
    }
    // A byte is no `Bits`, and `e % 8` is a place in it.
    let m = byte(s, at + (w - 1 - before));
    (m >> (e % 8)) % 2 == 1
}

impl Line<'_> {
    // The name mask of `x`.
    pub(crate) fn names(&self, x: u8) -> u64
        ensures { result ≡ names_at self.now.broad self.now.bytes.now x }
    {
        load_names(self.bytes, name_at(x, self.broad), self.broad)
    }

    // Whether element `x` has the name entry `e`.
    pub(crate) fn is_named(&self, x: u8, e: u8) -> bool
        ensures { result ≡ has (names_at self.now.broad self.now.bytes.now x) e }
    {
        bit_at(
            self.bytes,
            name_at(x, self.broad),
            name_bytes(self.broad),
            e,
        )
    }

    // How many role masks there are.
    pub(crate) fn pair_count(&self) -> u16
        ensures { (result ≡ self.now.size * self.now.size) × (result ≤ 4096) }
    {
        (self.size as u16) * (self.size as u16)
    }

    // Role mask `q`.
    pub(crate) fn mask(&self, q: u16) -> u16
        ensures { result ≡ mask_at self.now.bytes.now self.now.rows q }
    {
        mask2(self.bytes, self.rows + 2 * (q as usize))
    }

    // The elements that `x` reaches by the role `r`, from the last down. They are counted in 32 bits, which one register of a small
    // processor holds.
    pub(crate) fn row(&self, x: u8, r: RoleNo) -> u64
        ensures { result ≡ row_of self.now.bytes.now self.now.rows self.now.size r.0 x }
    {
        let row = row_at(self.rows, self.size, x) as u32;
        let mut out: u64 = 0;
        for y in (0..self.size as u32).rev() {
            out = push(out, bit_at(self.bytes, (row + 2 * y) as usize, 2, r.0));
        }
        out
    }
}
