// Rows of vectors: lines and fields that end at a mark, bytes in hexadecimal digits, numbers in decimal ones.
#![tactic(auto)]

pub mod refusals;

ghost use Rattle.std.specs.Prelude.{◌≡◌, ◌+◌, ◌%◌, ◌<◌, ◌≤◌, max, eqb, length, drop, replicate};
ghost use Rattle.parts.specs.Numbers.{byte_at};
ghost use Rattle.vector_rows.specs.Rows.{digit_of, byte_said, bytes_said, Decoded, until, field_of, number_from, longest_file, counted};
ghost use Rattle.vector_rows.specs.Parts.{parts_of, Steps};

use parts::byte;
use std::io;

// Whether the line is a remark.
pub fn is_remark(line: &[u8]) -> bool
    ensures { result ≡ eqb (byte_at line.now 0) 35 }
{
    byte(line, 0) == b'#'
}

// The value of a digit, lower case.
fn digit(c: u8) -> u8
    ensures { (result ≡ digit_of c) × (result < 16) }
{
    if c < 58 { c % 16 } else { (c % 16 + 9) % 16 }
}

// Byte `i` of those that the digits say, or `past` where they end.
pub fn byte_said(hex: &[u8], i: usize, past: u8) -> u8
    ensures { result ≡ byte_said hex.now i past }
{
    if i < hex.len() / 2 {
        16 * digit(hex[2 * i]) + digit(hex[2 * i + 1])
    } else {
        past
    }
}

// The bytes that the digits say, as many as fit.
pub fn decode(hex: &[u8], out: &mut [u8]) -> usize
    ensures { Decoded hex.now out.old out.new result }
{
    let n = out.len().min(hex.len() / 2);
    for i in 0..n {
        out[i] = byte_said(hex, i, 0);
    }
    n
}

// Whether each byte of a buffer is the one that the digits say, and `past` where they end.
pub fn bytes_are(buf: &[u8], hex: &[u8], past: u8) -> bool
    ensures { result ≡ bytes_said buf.now hex.now past }
{
    (0..buf.len()).all(|i| buf[i] == byte_said(hex, i, past))
}

// The number that the digits say, below 65,536.
pub fn number(digits: &[u8]) -> usize
    ensures { result ≡ number_from 0 digits.now }
{
    let mut n: usize = 0;
    for &c in digits {
        n = (10 * n + usize::from(c % 16)) % 65536;
    }
    n
}

// The number that the digits say, below 256: what is told of it is the rest by 256.
pub fn small_number(digits: &[u8]) -> u8
    ensures { result ≡ number_from 0 digits.now % 256 }
{
    (number(digits) % 256) as u8
}

// Where the mark stands first from `from` on, or the end.
pub fn mark_from(all: &[u8], from: usize, mark: u8) -> usize
    ensures { (result ≡ from + length (until mark (drop from all.now))) × (result ≤ max from (length all.now)) }
{
    // No `position`: the part from `from` on need not be there.
    for end in from..all.len() {
        if all[end] == mark {
            return end;
        }
    }
    from.max(all.len())
}

// Field `k` of those that the mark ends.
pub fn field(line: &[u8], k: usize, mark: u8) -> &[u8]
    ensures { result.now ≡ field_of mark k line.now }
{
    line.split(|&c| c == mark).nth(k).unwrap_or(&[])
}

// Zeros: space for the longest data file. The clause `size` gives the length, which lending the array needs.
pub fn file_space() -> [u8; 1048576]
    ensures zeros { result ≡ replicate longest_file 0 }
    ensures size { longest_file ≡ length result }
{
    [0; 1048576]
}

// One more at place `k`, up to a million, which no file has.
#[tactic(auto, using(crate::specs::Rows::counted_more, crate::specs::Rows::counted_full, crate::specs::Rows::counted_past))]
pub fn count(counts: &mut [u64], k: usize)
    ensures { counts.new ≡ counted counts.old k }
{
    if k < counts.len() && counts[k] < 1000000 {
        counts[k] += 1;
    }
}

// Gives a step each part that the mark ends, in order, up to the first that fails. What stands behind the last mark is a part too.
pub fn run_parts<F: FnMut(&[u8]) -> io::Result<()>>(
    all: &[u8],
    mark: u8,
    mut step: F,
) -> io::Result<()>
    requires { F.IsAlwaysCallable step }
    ensures { Steps F.FnMut step (parts_of mark all.now) result }
{
    // From mark to mark, and no plainer by the library: `split` gives an empty part behind a last mark, `split_inclusive` each mark too.
    let mut at = 0;
    while at < all.len() {
        let end = mark_from(all, at, mark);
        step(&all[at..end])?;
        at = end + 1;
    }
    Ok(())
}
