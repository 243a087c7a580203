// The editor for programs in C: the caller lends the state as bytes, and each call changes what it changes there.
ghost use Rattle.std.specs.Prelude.{◌≡◌};
ghost use Rattle.editing.specs.Editing.{new_role, inclusion, new_root, new_rule};
ghost use Rattle.shq_c.specs.Edits.{concept_of, Starts, Edits, Writes};

use super::packed;
use edit_judge::{put_concept, put_inclusion};
use edit_state::{clear, put_role, put_root, put_rule};
use edit_write::write_state;
use tables::{Fields, RoleNo};

// Nothing is put in.
#[unsafe(no_mangle)]
pub extern "C" fn shq_edit_start(state: &mut [u8]) -> u32
    ensures { Starts state.old result state.new }
{
    packed(clear(state))
}

// Adds a role.
#[unsafe(no_mangle)]
pub extern "C" fn shq_edit_role(state: &mut [u8], transitive: u8) -> u32
    ensures { Edits (new_role transitive) state.old result state.new }
{
    packed(put_role(state, transitive))
}

// Adds the inclusion of a role in its parent.
#[unsafe(no_mangle)]
pub extern "C" fn shq_edit_inclusion(state: &mut [u8], role: u8, parent: u8) -> u32
    ensures { Edits (inclusion role parent) state.old result state.new }
{
    packed(put_inclusion(state, RoleNo(role), RoleNo(parent)))
}

// Adds a concept.
#[unsafe(no_mangle)]
pub extern "C" fn shq_edit_concept(
    state: &mut [u8],
    kind: u8,
    role: u8,
    first: u8,
    second: u8,
    number: u16,
) -> u32
    ensures { Edits (concept_of kind role first second number) state.old result state.new }
{
    let f = Fields {
        kind,
        role,
        first,
        second,
        number: usize::from(number),
    };
    packed(put_concept(state, f))
}

// Sets the root.
#[unsafe(no_mangle)]
pub extern "C" fn shq_edit_root(state: &mut [u8], literal: u8) -> u32
    ensures { Edits (new_root literal) state.old result state.new }
{
    packed(put_root(state, literal))
}

// Adds a rule.
#[unsafe(no_mangle)]
pub extern "C" fn shq_edit_rule(state: &mut [u8], literal: u8) -> u32
    ensures { Edits (new_rule literal) state.old result state.new }
{
    packed(put_rule(state, literal))
}

// Writes the description out; on a refusal no byte of the buffer changes.
#[unsafe(no_mangle)]
pub extern "C" fn shq_edit_write(state: &[u8], buffer: &mut [u8]) -> u32
    ensures { Writes state.now buffer.old result buffer.new }
{
    packed(write_state(state, buffer))
}
