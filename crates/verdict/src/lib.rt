// The verdict on a description with evidence.
#![tactic(auto)]

ghost use Rattle.std.specs.Prelude.{◌≡◌};
ghost use Rattle.answers.specs.Answers.{of_verdict};
ghost use Rattle.verdict.specs.Verdict.{verdict};
ghost use Rattle.verdict.specs.VerdictSteps.{opened_verdict, verdict_or};

use answers::{Refusal, Verdict};
use graph_check::test_sample;
use intake::{Opening, open_description};
use list_check::test_list;
use nodes::root_set;
use parts::byte;

// The verdict on an opened description with evidence.
fn check_opened(o: &Opening, s: &[u8]) -> Result<Verdict, Refusal>
    ensures { let d = o.now in
        of_verdict (verdict_or result) ≡ opened_verdict d.marks d.masks d.count d.concepts.now d.query.now s.now }
{
    // Evidence of any other head is tested as a graph, which refuses what is off.
    if byte(s, 0) == 2 {
        test_list(o, root_set(o.query), s)?;
        return Ok(Verdict::Empty);
    }
    test_sample(o, s)?;
    Ok(Verdict::Inhabited)
}

// The same with the description opened first.
fn judge(d: &[u8], s: &[u8]) -> Result<Verdict, Refusal>
    ensures { of_verdict (verdict_or result) ≡ verdict d.now s.now }
{
    let o = open_description(d);
    o.tested?;
    check_opened(&o, s)
}

// The verdict on a description with evidence, for slices of every length.
pub fn check_evidence(d: &[u8], s: &[u8]) -> Verdict
    ensures { of_verdict result ≡ verdict d.now s.now }
{
    judge(d, s).unwrap_or_else(Verdict::Refused)
}
