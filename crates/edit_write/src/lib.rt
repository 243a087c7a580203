// The editor's state, written out as a description.
#![tactic(auto)]

mod out;

ghost use Rattle.std.specs.Prelude.{◌≡◌, ◌&&◌, leb};
ghost use Rattle.edit_state.specs.Lent.{Writes};

use answers::{Reason, Refusal};
use edit_state::{concepts_of, count_entries, count_roles, enough, query_of, roles_of};
use out::lay_description;
use parts::byte;

// Whether a role, entry 0 and a root are there.
fn is_whole(count: u8, entries: u8, rooted: bool) -> bool
    ensures { result ≡ (leb 1 count && (leb 1 entries && rooted)) }
{
    (1 <= count) & ((1 <= entries) & rooted)
}

// Writes the description out: three pairs and the three parts, exactly what was put in.
pub fn write_state(st: &[u8], buf: &mut [u8]) -> Result<usize, Refusal>
    ensures { Writes st.now buf.old result buf.new }
{
    enough(st)?;
    let n = count_roles(st);
    let e = count_entries(st);
    if !is_whole(n, e, byte(st, 2) == 1) {
        return Err(Reason::Part.whole());
    }
    let rs = roles_of(st);
    let cs = concepts_of(st);
    let qs = query_of(st);
    let size = 12 + rs.len() + cs.len() + qs.len();
    if buf.len() < size {
        return Err(Reason::Short.whole());
    }
    lay_description(buf, rs, cs, qs);
    Ok(size)
}
