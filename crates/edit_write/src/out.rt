// The description that is written out.
ghost use Rattle.std.specs.Prelude.{◌≡◌, ◌+◌, ◌<◌, ◌≤◌, [], ◌∷◌, length};
ghost use Rattle.laying.specs.Laying.{laid, laid_from};
ghost use Rattle.edit_lay.specs.Lays.{pairs_of, size_with};
ghost use Rattle.answers.specs.Answers.{over};
ghost use Rattle.edit_bytes.specs.Out.{with_pairs};

use laying::{copy_bytes, put2};

// The three pairs, of parts of `a`, `b` and `c` bytes.
fn lay_pairs(buf: &mut [u8], a: u16, b: u16, c: u16)
    requires { (12 ≤ length buf.old) × (12 + a + b < 65536) }
    ensures { buf.new ≡ laid buf.old 0 (pairs_of a b c) }
{
    put2(buf, 0, 12);
    put2(buf, 2, a);
    put2(buf, 4, 12 + a);
    put2(buf, 6, b);
    put2(buf, 8, 12 + a + b);
    put2(buf, 10, c);
}

// The three parts, behind the pairs.
fn lay_parts(buf: &mut [u8], rs: &[u8], cs: &[u8], qs: &[u8])
    requires { size_with rs.now cs.now qs.now ≤ length buf.old }
    ensures { buf.new ≡ laid_from 12 (rs.now ∷ cs.now ∷ qs.now ∷ []) buf.old }
{
    copy_bytes(buf, 12, rs);
    copy_bytes(buf, 12 + rs.len(), cs);
    copy_bytes(buf, 12 + rs.len() + cs.len(), qs);
}

// The description of these parts: three pairs, and the parts.
pub(crate) fn lay_description(buf: &mut [u8], rs: &[u8], cs: &[u8], qs: &[u8])
    requires { (size_with rs.now cs.now qs.now ≤ length buf.old) × (size_with rs.now cs.now qs.now < 65536) }
    ensures { buf.new ≡ over (with_pairs rs.now cs.now qs.now) buf.old }
{
    lay_pairs(buf, rs.len() as u16, cs.len() as u16, qs.len() as u16);
    lay_parts(buf, rs, cs, qs);
}
