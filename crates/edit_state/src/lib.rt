// The editor's state in bytes that a caller lends: the start, and what asks no table. Each changes its own bytes there, and no other.
#![tactic(auto)]

ghost use Rattle.std.specs.Prelude.{◌≡◌, ◌+◌, ◌*◌, ◌≤◌, ◌<◌, ltb, length, take, drop, OnOk, IfErr};
ghost use Rattle.parts.specs.Numbers.{byte_at, up_to};
ghost use Rattle.editing.specs.Editing.{new_role, new_root, new_rule};
ghost use Rattle.answers.specs.declared.Reason.TheVariants.{Short};
ghost use Rattle.answers.specs.Reasons.{refused};
ghost use Rattle.edit_state.specs.Lent.{roles_in, entries_in, rules_in, table_in, roles_from, concepts_from, query_from};
ghost use Rattle.edit_state.specs.Lent.{state_bytes, Starts, Edits};

use answers::{Reason, Refusal};
use edit_lay::lay_role;
use labels::MOST_ENTRIES;
use laying::copy_bytes;
use parts::{byte, span, up_to};
use roles::{Role, role_table};

// How many bytes each part may have, where it begins behind the four numbers, and where the last ends.
pub const ROLES_ROOM: usize = 48;

pub const CONCEPTS_ROOM: usize = 384;

const QUERY_ROOM: usize = 17;

pub const ROLES_FROM: usize = 4;

pub const CONCEPTS_FROM: usize = ROLES_FROM + ROLES_ROOM;

pub const QUERY_FROM: usize = CONCEPTS_FROM + CONCEPTS_ROOM;

const RULES_FROM: usize = QUERY_FROM + 1;

pub const STATE_BYTES: usize = QUERY_FROM + QUERY_ROOM;

// The count at a place, up to its limit.
pub fn count_at(st: &[u8], at: usize, most: u8) -> u8
    ensures { (result ≡ up_to most (byte_at st.now at)) × (result ≤ most) }
{
    up_to(most, byte(st, at) as usize)
}

// How many roles there are.
pub fn count_roles(st: &[u8]) -> u8
    ensures { (result ≡ roles_in st.now) × (result ≤ 16) }
{
    count_at(st, 0, 16)
}

// How many entries there are.
pub fn count_entries(st: &[u8]) -> u8
    ensures { (result ≡ entries_in st.now) × (result ≤ 64) }
{
    count_at(st, 1, MOST_ENTRIES)
}

// How many rules there are.
pub fn count_rules(st: &[u8]) -> u8
    ensures { (result ≡ rules_in st.now) × (result ≤ 16) }
{
    count_at(st, 3, 16)
}

// The bytes of the roles, of the entries, and of the root with the rules.
pub fn roles_of(st: &[u8]) -> &[u8]
    ensures { (result.now ≡ take (3 * roles_in st.now) (drop roles_from st.now)) × (length result.now ≤ 48) }
{
    span(st, ROLES_FROM, 3 * (count_roles(st) as usize))
}

pub fn concepts_of(st: &[u8]) -> &[u8]
    ensures { (result.now ≡ take (6 * entries_in st.now) (drop concepts_from st.now)) × (length result.now ≤ 384) }
{
    span(st, CONCEPTS_FROM, 6 * (count_entries(st) as usize))
}

pub fn query_of(st: &[u8]) -> &[u8]
    ensures { (result.now ≡ take (1 + rules_in st.now) (drop query_from st.now)) × (length result.now ≤ 17) }
{
    span(st, QUERY_FROM, 1 + (count_rules(st) as usize))
}

// Refuses fewer bytes than a state has.
pub fn enough(st: &[u8]) -> Result<(), Refusal>
    ensures whole { OnOk result (state_bytes ≤ length st.now) }
    ensures short { IfErr result (λ r. (r ≡ refused Short 0) × (length st.now < state_bytes)) }
{
    if st.len() < STATE_BYTES {
        return Err(Reason::Short.whole());
    }
    Ok(())
}

// Nothing is put in.
pub fn clear(st: &mut [u8]) -> Result<(), Refusal>
    ensures { Starts st.old result st.new }
{
    enough(st)?;
    let zeros = [0; STATE_BYTES];
    copy_bytes(st, 0, &zeros);
    Ok(())
}

// Adds a role with its transitive byte, and no parents.
pub fn put_role(st: &mut [u8], transitive: u8) -> Result<(), Refusal>
    ensures { Edits (new_role transitive) st.old result st.new }
{
    enough(st)?;
    let n = count_roles(st);
    if 16 <= n {
        return Err(Reason::Full.whole());
    }
    if 1 < transitive {
        return Err(Reason::Role.whole());
    }
    st[0] = n + 1;
    lay_role(st, ROLES_FROM + 3 * (n as usize), transitive, 0);
    Ok(())
}

// Whether `literal` is of one of the `entries`.
fn is_literal(literal: u8, entries: u8) -> bool
    ensures { result ≡ ltb literal (2 * entries) }
{
    (literal as usize) < 2 * (entries as usize)
}

// Sets the root. One that was set before is forgotten.
pub fn put_root(st: &mut [u8], literal: u8) -> Result<(), Refusal>
    ensures { Edits (new_root literal) st.old result st.new }
{
    enough(st)?;
    if !is_literal(literal, count_entries(st)) {
        return Err(Reason::Question.whole());
    }
    // The state is bytes that a caller in C lends: a flag is one of them.
    st[2] = 1;
    st[QUERY_FROM] = literal;
    Ok(())
}

// Adds a rule, behind those that are there.
pub fn put_rule(st: &mut [u8], literal: u8) -> Result<(), Refusal>
    ensures { Edits (new_rule literal) st.old result st.new }
{
    enough(st)?;
    let k = count_rules(st);
    if 16 <= k {
        return Err(Reason::Full.whole());
    }
    if !is_literal(literal, count_entries(st)) {
        return Err(Reason::Question.whole());
    }
    st[3] = k + 1;
    st[RULES_FROM + (k as usize)] = literal;
    Ok(())
}

// The records of the roles.
pub fn records(st: &[u8]) -> [Role; 16]
    ensures { result ≡ table_in st.now }
{
    role_table(roles_of(st))
}
