// Numbers in bytes, and the pairs that say where the parts of a slice lie.
#![tactic(auto)]

ghost use Rattle.std.specs.Prelude.{◌≡◌, ◌<◌, ◌≤◌, take, drop};
ghost use Rattle.parts.specs.Numbers.{byte_at, num2, up_to};
ghost use Rattle.parts.specs.Pairs.{fills, part_at};

// The byte at `at`, or 0 past the end.
pub fn byte(s: &[u8], at: usize) -> u8
    ensures { result ≡ byte_at s.now at }
{
    if at < s.len() { s[at] } else { 0 }
}

// The two bytes at `at` as a mask, high byte first; bytes past the end count as 0.
pub fn mask2(s: &[u8], at: usize) -> u16
    ensures { result ≡ num2 s.now at }
{
    if at < s.len() {
        // The library's from_be_bytes was tried: each read takes two instructions more with it.
        u16::from(s[at]) * 256 + u16::from(byte(s, at + 1))
    } else {
        0
    }
}

// The two-byte number at `at`.
pub fn read2(s: &[u8], at: usize) -> usize
    ensures { (result ≡ num2 s.now at) × (result < 65536) }
{
    usize::from(mask2(s, at))
}

// The number `n`, or `most` if it is more.
pub fn up_to(most: u8, n: usize) -> u8
    ensures { (result ≡ up_to most n) × (result ≤ most) }
{
    n.min(usize::from(most)) as u8
}

// Whether the `count` pairs at `at` fill the slice from `first`.
pub fn pairs_fill(s: &[u8], at: u8, count: u8, first: u16) -> bool
    ensures { result ≡ fills s.now at count first }
{
    let start = at as usize;
    let n = count as usize;
    if s.len() < start + 4 * n {
        return false;
    }
    let mut next = first as usize;
    // A loop: what is asked of a pair hangs on where the one before ends.
    for i in 0..n {
        if read2(s, start + 4 * i) != next {
            return false;
        }
        next += read2(s, start + 4 * i + 2);
    }
    next == s.len()
}

// The `n` bytes from `from` on; what lies past the end is left out.
pub fn span(s: &[u8], from: usize, n: usize) -> &[u8]
    ensures { result.now ≡ take n (drop from s.now) }
{
    if s.len() < from {
        return &s[..0];
    }
    if s.len() - from < n {
        return &s[from..];
    }
    &s[from..from + n]
}

// The part that pair `i` of the pairs at `at` names; what lies past the end is left out.
pub fn part(s: &[u8], at: u8, i: u8) -> &[u8]
    ensures { result.now ≡ part_at s.now at i }
{
    let pair = (at as usize) + 4 * (i as usize);
    span(s, read2(s, pair), read2(s, pair + 2))
}
