// Copies of nodes: how many there are of each, and the edge that takes one.
#![tactic(auto)]

ghost use Rattle.std.specs.Prelude.{◌≡◌, ◌*◌, ◌≤◌, ◌<◌, length};
ghost use Rattle.logic.specs.Sums.{max_below};
ghost use Rattle.edges.specs.EdgeSteps.{edge_count};
ghost use Rattle.copies.specs.Copying.{taken_at, sum_to, total_to, copies_in, owner_mask};

use edges::edge_count;
use evidence::Stored;
use parts::{byte, mask2, read2};

// The copies of `y` that the edge at `at` takes: its count, if it leads to `y`. Of all others the target alone is read.
fn taken_at(es: &[u8], at: u32, y: u8) -> usize
    requires { at < length es.now }
    ensures { (result ≡ taken_at es.now y at) × (result ≤ 65535) }
{
    let from = at as usize;
    if es[from] == y {
        read2(es, from + 3)
    } else {
        0
    }
}

// What the counts of the first `k` edges to `y` add up to.
fn sum_to(es: &[u8], k: u8, y: u8) -> u32
    requires { k ≤ edge_count es.now }
    ensures { (result ≡ sum_to es.now k y) × (result ≤ 65535 * k) }
{
    let mut sum: u32 = 0;
    let mut at: u32 = 0;
    // A place that goes up costs less than five times an index.
    for i in 0..k {
        sum += taken_at(es, at, y) as u32;
        at += 5;
    }
    sum
}

// The greatest total of the edges to one of `n` records. Up to each edge they are added up anew: an array of totals is a kilobyte of stack.
fn most_to(es: &[u8], n: u8) -> usize
    ensures { (result ≡ max_below n (total_to es.now)) × (result ≤ 32 * 65535) }
{
    let mut most: u32 = 0;
    for j in 0..edge_count(es) {
        let y = byte(es, 5 * (j as usize));
        if y < n {
            let sum = sum_to(es, j + 1, y);
            most = most.max(sum);
        }
    }
    most as usize
}

// K: the most that the counts of the edges from one of the `n` records to another add up to; 1 if there is no edge.
pub fn most_copies(s: &Stored, n: u8) -> usize
    ensures { (result ≡ copies_in s.now.layout s.now.bytes.now n) × (result ≤ 32 * 65535) }
{
    let mut most: usize = 1;
    for x in 0..n {
        let es = s.rest(x);
        most = most.max(most_to(es, n));
    }
    most
}

// The mask of the edge that takes copy `j` of `y`; 0, the mask of no role, if none does, as the contract has it.
pub fn owner_mask(es: &[u8], y: u8, j: usize) -> u16
    ensures { result ≡ owner_mask es.now y j }
{
    let k = edge_count(es);
    let mut left = j;
    let mut at: u32 = 0;
    let mut i: u8 = 0;
    // A `for` was tried: a dense line takes five in a hundred more with it.
    while i < k {
        let taken = taken_at(es, at, y);
        if left < taken {
            return mask2(es, (at as usize) + 1);
        }
        left -= taken;
        at += 5;
        i += 1;
    }
    0
}
