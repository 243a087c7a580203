// The direct reading of a written line: its form, then whether it is a model of the description with the root somewhere.
#![tactic(auto)]

mod form;
mod pairs;
mod places;
mod sets;
mod truth;

ghost use Rattle.std.specs.Prelude.{◌≡◌, List, ℕ, ◌/◌, ◌≤◌, length};
ghost use Rattle.std.proofs.Math.Option.{Option};
ghost use Rattle.description.specs.Acceptance.{Accepted};
ghost use Rattle.labels.specs.Labels.{most_entries};
ghost use Rattle.tables.specs.Tables.{records_in, describe};
ghost use Rattle.roles.specs.Records.{MasksOf};
ghost use Rattle.answers.specs.Answers.{of_reading};
ghost use Rattle.intake.specs.Intake.{AcceptedParts};
ghost use Rattle.line_reader.specs.LineSteps.{sized};
ghost use Rattle.line_reader.specs.Order.{plain_test, line_answer};
ghost use Rattle.line_reader.specs.Reading.{read_answer};

use answers::{Reading, Reason, Refusal};
use directory::{concepts_part, query_part, roles_part};
use form::formed_line;
use intake::open_description;
use labels::is_wide;
use pairs::{inclusions_ok, separated_ok, transitivity_ok};
use places::Line;
use truth::{root_ok, rules_ok, truth_sets};

// Whether the line keeps all that an accepted description asks but for its fourth part, and has the root somewhere.
fn plain_ok(rs: &[u8], cs: &[u8], qs: &[u8], l: &Line) -> bool
    requires { (length rs.now / 3 ≤ 16) × (length cs.now / 6 ≤ most_entries) }
    ensures { (p : Option (List ℕ)) → Accepted (describe rs.now cs.now qs.now p)
        → result ≡ plain_test (describe rs.now cs.now qs.now p) (sized l.now.broad l.now.bytes.now l.now.size) }
{
    let up = inclusions_ok(rs, l);
    let on = transitivity_ok(rs, l);
    let t = truth_sets(cs, l);
    let rules = rules_ok(qs, l, &t);
    let root = root_ok(qs, l, &t);
    up & (on & (rules & root))
}

// Test 23, then the reading, for an accepted description with the masks `a`.
fn read_line(rs: &[u8], cs: &[u8], qs: &[u8], a: &[u16; 49], s: &[u8]) -> Result<Reading, Refusal>
    requires { (length rs.now / 3 ≤ 16) × (length cs.now / 6 ≤ most_entries) }
    ensures { (p : Option (List ℕ)) → AcceptedParts rs.now cs.now qs.now p
        → MasksOf rs.now (records_in p) a.now
        → of_reading result ≡ line_answer rs.now cs.now qs.now p s.now }
{
    let Some(line) = formed_line(rs, cs, s, is_wide(cs.len() / 6)) else {
        return Err(Reason::LineForm.whole());
    };
    let apart = separated_ok(a, &line);
    let rest = plain_ok(rs, cs, qs, &line);
    let holds = apart & rest;
    if holds {
        Ok(Reading::Holds)
    } else {
        Ok(Reading::Fails)
    }
}

// Whether the line `s` is a model of the description `d` with the root somewhere. The reading goes by the description's own
// bytes; the records of its fourth part are asked as masks.
pub fn read_interpretation(d: &[u8], s: &[u8]) -> Result<Reading, Refusal>
    ensures { of_reading result ≡ read_answer d.now s.now }
{
    let o = open_description(d);
    o.tested?;
    // Part by part, and not by `o`, which has two of them: by that, a line that counts takes 3.6 in a hundred more to read.
    read_line(roles_part(d), concepts_part(d), query_part(d), &o.masks, s)
}
