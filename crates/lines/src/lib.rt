// Interpretations in bytes: definitions and laws in specs/, a limit, and where the parts of a line lie.
#![tactic(auto)]

ghost use Rattle.std.specs.Prelude.{◌≡◌, ◌+◌, ◌*◌, ◌^◌, ◌<◌, ◌≤◌, length};
ghost use Rattle.labels.specs.Labels.{name_bytes};
ghost use Rattle.lines.specs.Lines.{name_at};
ghost use Rattle.lines.specs.Laying.{Masks};

use labels::name_bytes;

// A line has at most so many elements.
pub const MOST_ELEMENTS: usize = 64;

// Where the name mask of element `x` begins; behind the name masks of `x` elements begin the role masks.
pub fn name_at(x: u8, broad: bool) -> usize
    ensures { (result ≡ name_at (name_bytes broad) x) × (result ≤ 65536) }
{
    1 + name_bytes(broad) * usize::from(x)
}

// Where row `x` of `size` role masks begins, the first row at `at`.
pub fn row_at(at: usize, size: u8, x: u8) -> usize
    requires { at + 2 * (x * size) < 2 ^ 64 }
    ensures { result ≡ at + 2 * (x * size) }
{
    at + 2 * (usize::from(x) * usize::from(size))
}

// The role mask `m` at `at`, high byte first. The room was tested once: `laying::put2` would ask for it at each of 4,096 masks.
pub fn put_mask(buf: &mut [u8], at: usize, m: u16)
    requires { at + 2 ≤ length buf.old }
    ensures { Masks at (λ i. m) buf.old 1 buf.new }
{
    let [high, low] = m.to_be_bytes();
    buf[at] = high;
    buf[at + 1] = low;
}
