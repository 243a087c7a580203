// The editor of a description: a state by value, and operations that give the next one. They are those on lent bytes.
#![tactic(auto)]

ghost use Rattle.std.specs.Prelude.{◌≡◌, length, drop, IfOk, OnErr};
ghost use Rattle.tables.specs.Concepts.{fields_in};
ghost use Rattle.editing.specs.Editing.{Draft, nothing, new_role, inclusion, concept, new_root, new_rule};
ghost use Rattle.answers.specs.Answers.{of_written, length_of};
ghost use Rattle.edit_bytes.specs.Out.{out_answer, out_length, out_buffer};
ghost use Rattle.edit_state.specs.Lent.{roles_in};
ghost use Rattle.editor.specs.Holding.{Holds, Edits, holding, after};

use answers::Refusal;
use edit_judge::{put_concept, put_inclusion};
use edit_state::{STATE_BYTES, count_roles, put_role, put_root, put_rule, records};
use edit_write::write_state;
use roles::Role;
use tables::{Fields, RoleNo};

// The state in bytes, and the records of its roles.
#[derive(Clone, Copy)]
pub struct Editor {
    bytes: [u8; STATE_BYTES],
    table: [Role; 16],
}

// The state of these bytes.
fn holding(bytes: [u8; STATE_BYTES]) -> Editor
    ensures { result ≡ holding bytes }
{
    Editor {
        bytes,
        table: records(&bytes),
    }
}

// The state of the new bytes, unless they were refused.
fn after(answer: Result<(), Refusal>, bytes: [u8; STATE_BYTES]) -> Result<Editor, Refusal>
    ensures { result ≡ after answer bytes }
{
    answer?;
    Ok(holding(bytes))
}

// Nothing is put in.
pub fn start() -> Editor
    ensures { Holds result nothing }
{
    holding([0; STATE_BYTES])
}

// Adds a role with its transitive byte, and no parents. (The five operations are one line but for the call: a function over that call would
// have its contract as a premise, and each would prove it.)
pub fn add_role(s: Editor, transitive: u8) -> Result<Editor, Refusal>
    ensures { (T : Draft) → Holds s T → Edits s T (new_role transitive) result }
{
    let mut bytes = s.bytes;
    let answer = put_role(&mut bytes, transitive);
    after(answer, bytes)
}

// Includes role `r` in role `p`.
pub fn add_inclusion(s: Editor, r: RoleNo, p: RoleNo) -> Result<Editor, Refusal>
    ensures { (T : Draft) → Holds s T → Edits s T (inclusion r.0 p.0) result }
{
    let mut bytes = s.bytes;
    let answer = put_inclusion(&mut bytes, r, p);
    after(answer, bytes)
}

// Adds a concept, as the next entry.
pub fn add_concept(s: Editor, f: Fields) -> Result<Editor, Refusal>
    ensures { (T : Draft) → Holds s T → Edits s T (concept (fields_in f)) result }
{
    let mut bytes = s.bytes;
    let answer = put_concept(&mut bytes, f);
    after(answer, bytes)
}

// Sets the root. One that was set before is forgotten.
pub fn set_root(s: Editor, literal: u8) -> Result<Editor, Refusal>
    ensures { (T : Draft) → Holds s T → Edits s T (new_root literal) result }
{
    let mut bytes = s.bytes;
    let answer = put_root(&mut bytes, literal);
    after(answer, bytes)
}

// Adds a rule, behind those that are there.
pub fn add_rule(s: Editor, literal: u8) -> Result<Editor, Refusal>
    ensures { (T : Draft) → Holds s T → Edits s T (new_rule literal) result }
{
    let mut bytes = s.bytes;
    let answer = put_rule(&mut bytes, literal);
    after(answer, bytes)
}

// The records of the roles. Those behind the last role mean nothing.
pub fn role_records(s: Editor) -> [Role; 16]
    ensures { result ≡ s.table }
{
    s.table
}

// How many roles there are.
pub fn role_number(s: Editor) -> u8
    ensures { result ≡ roles_in s.bytes }
{
    count_roles(&s.bytes)
}

// Writes the description out: three pairs and the three parts, exactly what was put in.
pub fn write_out(s: Editor, buf: &mut [u8]) -> Result<usize, Refusal>
    ensures answer { (T : Draft) → Holds s T → of_written result ≡ out_answer T (length buf.old) }
    ensures size { (T : Draft) → Holds s T → length_of result ≡ out_length T (length buf.old) }
    ensures bytes { (T : Draft) → Holds s T → buf.new ≡ out_buffer T buf.old }
    ensures kept { OnErr result (buf.new ≡ buf.old) }
    ensures past { IfOk result (λ n. drop n buf.new ≡ drop n buf.old) }
{
    write_state(&s.bytes, buf)
}
