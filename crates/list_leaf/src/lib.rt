// One leaf of a counting step's tree: test 19 of its multipliers, under the limits that the walk to it holds.
#![tactic(auto)]

ghost use Rattle.std.specs.Prelude.{◌≡◌, not, ◌&&◌, ℕ, ◌/◌, ◌%◌, ◌≤◌, ◌<◌, ◌^◌, eqb, ltb, pos, length, get_or};
ghost use Rattle.std.proofs.Math.IntN.{sub_ℕ};
ghost use Rattle.std.specs.Int.Signed.{lt_z};
ghost use Rattle.logic.specs.Bounded.{any_below};
ghost use Rattle.counting.specs.Trees.{live};
ghost use Rattle.rows.specs.HeldRows.{side_of};
ghost use Rattle.list_leaf.specs.Leaf.{open_byte, open_cell, few_enough, marked, leaf_over};
ghost use Rattle.list_leaf.specs.Weights.{packed, RowParts, SplitSums, eight_of, unfair_at, unfair_block};
ghost use Rattle.list_leaf.specs.Totals.{Priced, Totals};

use rows::{Row, cell_count};
use std::array;
use tables::Side;

// A limit on the way to a leaf: a row, or a half of a split of `cell`. The bound stands first, so that a limit has four bytes: each level
// of a tree holds 14.
#[derive(Clone, Copy)]
pub struct Limit {
    pub bound: u16,
    pub side: Side,
    pub cell: u8,
}

// The limit that a row is; it names no cell.
impl From<Row> for Limit {
    ghost from_gives = { λ row x. x ≡ record { side = row.side; bound = row.bound; cell = 0 } };

    fn from(row: Row) -> Limit {
        Limit {
            bound: row.bound,
            side: row.side,
            cell: 0,
        }
    }
}

// A leaf's gap: what the lower total has more than the upper, or less.
fn gap(low: u32, up: u32) -> i32
    requires { (low < 1073741824) × (up < 1073741824) }
    ensures { result ≡ sub_ℕ low up }
{
    let a = low as i32;
    let b = up as i32;
    a - b
}

// Whether a leaf with these totals has a gap above zero.
fn above_zero(low: u32, up: u32) -> bool
    requires { (low < 1073741824) × (up < 1073741824) }
    ensures { result ≡ lt_z (pos 0) (sub_ℕ low up) }
{
    let g = gap(low, up);
    g > 0
}

// The multiplier `m` of a limit, packed by its side: both sums of a cell share a word, so that one addition serves both.
fn part(x: Limit, m: u8) -> u32
    ensures { (result ≡ packed (side_of x.side) m) × (result ≤ 16711680) }
{
    let side = x.side;
    match side {
        Side::Lower => (m as u32) * 65536,
        Side::Upper => m as u32,
    }
}

// The parts of the `k` rows; behind them 0.
fn row_parts(way: &[Limit; 14], k: usize, ms: &[u8]) -> [u32; 6]
    requires { (k ≤ 6) × (k ≤ length ms.now) }
    ensures { RowParts way.now ms.now k result }
{
    array::from_fn(|i| if i < k { part(way[i], ms[i]) } else { 0 })
}

// Where the part of a split of `cell` is added: one past the cells counts at cell 0, which is cleared in the end.
fn place(cell: u8) -> usize
    ensures { (result < 64) × ((c : ℕ) → 0 < c → c < 64 → eqb result c ≡ eqb cell c) }
{
    if cell < 64 { cell as usize } else { 0 }
}

// The parts of the splits, behind the `k` rows, added up at each cell; cell 0 has none.
fn split_sums(way: &[Limit; 14], k: usize, ms: &[u8]) -> [u32; 64]
    requires { (k ≤ length ms.now) × (length ms.now ≤ 14) }
    ensures { SplitSums way.now ms.now k (length ms.now) result × (get_or result 0 0 ≡ 0) }
{
    // Fixed memory: a sum for each cell that there may be. A limit and its multiplier have one index.
    let mut sums: [u32; 64] = [0; 64];
    for i in k..ms.len() {
        let x = way[i];
        let c = place(x.cell);
        sums[c] += part(x, ms[i]);
    }
    sums[0] = 0;
    sums
}

// The sums of the eight sets of three parts: set `i` has the first if bit 0 of `i` is set, and so on.
fn eight(p: u32, q: u32, r: u32) -> [u32; 8]
    requires { (p ≤ 16711680) × (q ≤ 16711680) × (r ≤ 16711680) }
    ensures { result ≡ eight_of p q r }
{
    [0, p, q, p + q, r, p + r, q + r, p + q + r]
}

// Whether a cell with this sum weighs more on the lower side, and is marked.
fn unfair(sum: u32, mark: bool) -> bool
    ensures { result ≡ (ltb (sum % 65536) (sum / 65536) && mark) }
{
    (sum % 65536 < sum / 65536) & mark
}

// Whether one of the eight cells from `at` is marked and weighs more on the lower side; `low` has the sums of its first
// three rows, `high` that of the others.
fn block_unfair(low: [u32; 8], high: u32, sums: [u32; 64], marks: &[bool; 64], at: usize) -> bool
    requires { (at ≤ 56) × (high ≤ 50135040) × ((i : ℕ) → i < 8 → get_or low i 0 ≤ 50135040)
        × ((c : ℕ) → c < 64 → get_or sums c 0 ≤ 233963520) }
    ensures { result ≡ any_below 8 (unfair_at low high sums marks.now at) }
{
    // No chain: without an early end the compiler takes all eight cells at once.
    let mut off = false;
    for i in 0..8 {
        off |= unfair(sums[at + i] + low[i] + high, marks[at + i]);
    }
    off
}

// Whether no marked cell weighs more on the lower side.
fn balanced(ps: [u32; 6], sums: [u32; 64], marks: &[bool; 64]) -> bool
    requires { ((i : ℕ) → i < 6 → get_or ps i 0 ≤ 16711680) × ((c : ℕ) → c < 64 → get_or sums c 0 ≤ 233963520) }
    ensures { result ≡ not (any_below 8 (unfair_block ps sums marks.now)) }
{
    let low = eight(ps[0], ps[1], ps[2]);
    let high = eight(ps[3], ps[4], ps[5]);
    // No chain, as for the cells of a block.
    let mut off = false;
    for b in 0..8 {
        off |= block_unfair(low, high[b], sums, marks, 8 * b);
    }
    !off
}

// What the multiplier `m` of a limit adds to the two totals: to the lower above 32 bits, to the upper below them.
fn price_of(x: Limit, m: u8) -> u64
    ensures { Priced x m result × (m < 256) }
{
    let side = x.side;
    match side {
        Side::Lower => (m as u64) * (x.bound as u64) * 4294967296,
        Side::Upper => (m as u64) * (x.bound as u64),
    }
}

// The two totals, the lower above 32 bits and the upper below them.
fn totals(way: &[Limit; 14], ms: &[u8]) -> u64
    requires { length ms.now ≤ 14 }
    ensures { Totals way.now ms.now (length ms.now) result }
{
    let mut sum: u64 = 0;
    for i in 0..ms.len() {
        sum += price_of(way[i], ms[i]);
    }
    sum
}

// The test of a leaf with a multiplier for each limit: the balance of the marked cells, and the gap.
fn leaf_test(way: &[Limit; 14], k: usize, marks: &[bool; 64], ms: &[u8]) -> bool
    requires { (k ≤ 6) × (k ≤ length ms.now) × (length ms.now ≤ 14) }
    ensures { result ≡ leaf_over k marks.now way.now ms.now }
{
    let ps = row_parts(way, k, ms);
    let sums = split_sums(way, k, ms);
    let fair = balanced(ps, sums, marks);
    let both = totals(way, ms);
    fair & above_zero((both / 4294967296) as u32, (both % 4294967296) as u32)
}

// Whether the leaf with the multipliers `ms` closes over the marked cells. On its way stand as many limits: `k` rows, then
// the halves of the splits passed.
pub fn leaf_closes(way: &[Limit; 14], k: u8, marks: &[bool; 64], ms: &[u8]) -> bool
    ensures { result ≡ (few_enough k (length ms.now) && leaf_over k marks.now way.now ms.now) }
{
    let rows = k as usize;
    let few = (rows <= 6) & ((rows <= ms.len()) & (ms.len() <= 14));
    if !few {
        return false;
    }
    leaf_test(way, rows, marks, ms)
}

// Whether cell `c` is open; cell 0 is none.
fn is_open(cells: &[u8], c: usize) -> bool
    ensures { result ≡ live (open_byte cells.now) c }
{
    if c == 0 {
        return false;
    }
    if cells.len() < c {
        return true;
    }
    cells[c - 1] == 255
}

// The marks of the open cells of `k` rows, of at most 6; past 6 rows there is none.
pub fn open_cells(cells: &[u8], k: u8) -> [bool; 64]
    ensures { (length result ≡ 64) × ((c : ℕ) → c < 64 → marked result c ≡ open_cell k cells.now c) }
{
    let mut marks: [bool; 64] = [false; 64];
    if 6 < k {
        return marks;
    }
    // Not over all 64: most steps have fewer cells.
    for c in 0..cell_count(k) {
        marks[c] = is_open(cells, c);
    }
    marks
}
