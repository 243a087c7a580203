// All that a reader gives, in a buffer that is lent.
#![tactic(auto)]

ghost use Rattle.std.specs.Prelude.{◌≤◌, ◌<◌, length, take, IfOk, OnErr, ℕ};
ghost use Rattle.std.specs.Io.KnownBytes.{Consumes, IsAtEnd};

use std::io;
use std::io::Read;

// Fills the space with what the reader gives, until it is full or the input ends, and returns the number of bytes. What was read before a
// read that fails is at the start of the space.
pub fn read_full<R: Read>(from: &mut R, space: &mut [u8]) -> io::Result<usize>
    ensures within { IfOk result (λ n. n ≤ length space.new) }
    ensures bytes { IfOk result (λ n. Consumes (R.remaining from.old) (R.remaining from.new) (take n space.new)) }
    ensures end { IfOk result (λ n. n < length space.new → IsAtEnd (R.remaining from.new)) }
    ensures failed { OnErr result
        ((n : ℕ) × (n ≤ length space.new) × Consumes (R.remaining from.old) (R.remaining from.new) (take n space.new)) }
{
    // No `for`, which is no plainer: a turn goes on by as many bytes as were read.
    let mut n = 0;
    while n < space.len() {
        let k = from.read(&mut space[n..])?;
        if k == 0 {
            break;
        }
        n += k;
    }
    Ok(n)
}
