// Bytes that a row says, in a space of their own.
ghost use Rattle.std.specs.Prelude.{◌≤◌};

use vector_rows::decode;

#[derive(Clone, Copy)]
pub(crate) struct Bytes<const N: usize> {
    space: [u8; N],
    length: usize,
    ghost within: { length ≤ N },
}

impl<const N: usize> Bytes<N> {
    // The bytes that the digits say, as many as fit.
    pub(crate) fn said(hex: &[u8]) -> Bytes<N> {
        let mut space = [0; N];
        let length = decode(hex, &mut space);
        Bytes { space, length }
    }

    pub(crate) fn all(&self) -> &[u8] {
        &self.space[..self.length]
    }
}
