// Bytes laid into a buffer one piece behind the other: what every writer is made of.
#![tactic(auto)]

ghost use Rattle.std.specs.Prelude.{◌+◌, ◌≡◌, leb};
ghost use Rattle.laying.specs.Numbers.{two};
ghost use Rattle.laying.specs.Laying.{laid_in};

// Whether `n` bytes at a place are within the room.
pub fn has_room(room: usize, at: usize, n: usize) -> bool
    ensures { result ≡ leb (at + n) room }
{
    if room < n {
        return false;
    }
    at <= room - n
}

// All of `src` at a place. What does not fit is left out as a whole.
pub fn copy_bytes(buf: &mut [u8], at: usize, src: &[u8])
    ensures { buf.new ≡ laid_in buf.old at src.now }
{
    if !has_room(buf.len(), at, src.len()) {
        return;
    }
    // No `copy_from_slice`: the compiler makes a call of `memmove` of it, which the library for C asks of nobody.
    for i in 0..src.len() {
        buf[at + i] = src[i];
    }
}

// A number of two bytes at a place, high byte first. It too is left out as a whole.
pub fn put2(buf: &mut [u8], at: usize, m: u16)
    ensures { buf.new ≡ laid_in buf.old at (two m) }
{
    copy_bytes(buf, at, &m.to_be_bytes());
}
