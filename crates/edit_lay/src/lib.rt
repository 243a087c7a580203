// What the editor lays into bytes: a role, a parent of it, and an entry.
#![tactic(auto)]

ghost use Rattle.std.specs.Prelude.{◌≡◌, ◌%◌, ◌∷◌};
ghost use Rattle.logic.specs.Sets.{with};
ghost use Rattle.laying.specs.Numbers.{two};
ghost use Rattle.laying.specs.Laying.{laid_in};
ghost use Rattle.edit_lay.specs.Lays.{with_parent, six_bytes};

use laying::{copy_bytes, has_room};
use parts::{byte, mask2};
use tables::{Fields, RoleNo};
use words::Bits;

// The bytes of a role, at a place. Here and below, what does not fit is left out as a whole.
pub fn lay_role(buf: &mut [u8], at: usize, transitive: u8, parents: u16)
    ensures { buf.new ≡ laid_in buf.old at (transitive ∷ two parents) }
{
    let [high, low] = parents.to_be_bytes();
    copy_bytes(buf, at, &[transitive, high, low]);
}

// The bit of `p` in the parents of the role at a place.
pub fn lay_parent(buf: &mut [u8], at: usize, p: RoleNo)
    ensures { buf.new ≡ with_parent buf.old at (p.0 % 16) }
{
    if !has_room(buf.len(), at, 3) {
        return;
    }
    let transitive = byte(buf, at);
    let parents = mask2(buf, at + 1).put(p.0 % 16, true);
    lay_role(buf, at, transitive, parents);
}

// The bytes of an entry, at a place. Two bytes of its number: the editor is given a number of any size, and refuses it before this.
pub fn lay_entry(buf: &mut [u8], at: usize, f: Fields)
    ensures { buf.new ≡ laid_in buf.old at (six_bytes f) }
{
    let [high, low] = ((f.number % 65536) as u16).to_be_bytes();
    copy_bytes(buf, at, &[f.kind, f.role, f.first, f.second, high, low]);
}
