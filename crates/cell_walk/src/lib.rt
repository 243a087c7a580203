// The roles of a counting step's cells, kept while the cells are walked: a running value, corrected by the rows that come in or go out
// from one cell to the next, and their count.
#![tactic(auto)]

ghost use Rattle.std.specs.Prelude.{◌≡◌, cond, ℕ, ◌+◌, length, get_or, List};
ghost use Rattle.std.specs.Int.Bits.{bit_or};
ghost use Rattle.logic.specs.Sets.{has};
ghost use Rattle.cell_walk.specs.Walks.{changes_up_to, roles_in, Walked, Corrected};
ghost use Rattle.cell_walk.specs.WalkLaws.{FirstChange};

use words::Bits;

// The roles `x`, with those of `y` if the row comes in. (As `roles::join`, with a contract of its own.)
fn join_if(x: u16, y: u16, inside: bool) -> u16
    ensures { result ≡ cond inside (bit_or x y) x }
{
    if inside { x | y } else { x }
}

// How many of six rows change from cell `c` to the next: the lowest that `c` is not in comes in, and those below it go out; of a cell
// in all rows all go out.
fn rows_changed(c: u8) -> u8
    ensures { FirstChange c result }
{
    // `find` gives the place of that row, and what is asked is how many there are up to it.
    for i in 0..6 {
        if !(c as u16).has(i) {
            return i + 1;
        }
    }
    6
}

// From cell `c` to the next: of the masks `from` those of the rows that change are corrected, from the highest down. Answers how many.
// (That the array has seven elements no contract knows, so `masks` has it as a premise.)
pub fn next_cell(from: &mut [u16; 7], above: &[u16; 6], c: u8) -> u8
    ensures count { changes_up_to c + result ≡ changes_up_to (c + 1) }
    ensures masks { length from.old ≡ 7
        → Corrected above.now c (c + 1) from.old from.new }
    ensures roles { Walked above.now c from.old
        → Walked above.now (c + 1) from.new }
{
    let n = rows_changed(c);
    for i in (0..n).rev() {
        from[i as usize] = join_if(
            from[(i + 1) as usize],
            above[i as usize],
            (c as u16 + 1).has(i),
        );
    }
    n
}

// The roles of the cell that the masks `from` are of: those from row 0 up.
pub fn cell_roles(from: &[u16; 7]) -> u16
    ensures mask { result ≡ get_or from.now 0 0 }
    ensures roles { (above : List ℕ) (c : ℕ) → Walked above c from.now → (t : ℕ) → has result t ≡ roles_in above c t }
{
    from[0]
}
