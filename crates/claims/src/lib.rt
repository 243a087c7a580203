// The answer on a claim "every C is D" with one or two pieces of evidence.
#![tactic(auto)]

ghost use Rattle.std.specs.Prelude.{◌≡◌};
ghost use Rattle.labels.specs.Labels.{value_of};
ghost use Rattle.answers.specs.Answers.{refusal_of, wholly, of_judgement};
ghost use Rattle.claims.specs.Claims.{pieces_of, claim_answer};
ghost use Rattle.claims.specs.ClaimSteps.{counter_set, in_table, literals_code, kinds_after, opened_claim};

use answers::{Judgement, Reason, Refusal};
use evidence::{Head, read_head};
use graph_check::test_graph;
use intake::{Opening, open_description};
use labels::{Label, only, put};
use list_check::test_list;
use nodes::opposite;

// The literals C and D of a claim, by number.
#[derive(Clone, Copy)]
pub struct Claim {
    pub c: u8,
    pub d: u8,
}

// The kinds of the pieces of evidence that fit an answer, in the order given.
#[derive(Clone, Copy, Debug, PartialEq, Eq)]
pub enum Pieces {
    ListAndGraph,
    GraphAlone,
    ListAlone,
}

// The kinds where the first piece is a list, or else a graph. A flag: its number of records, which `Head` has too, is not asked here.
fn kinds_after(list: bool, second: &[u8]) -> Result<Pieces, Refusal>
    ensures { result ≡ kinds_after list second.now }
{
    if second.len() == 0 {
        return Ok(if list {
            Pieces::ListAlone
        } else {
            Pieces::GraphAlone
        });
    }
    match read_head(second) {
        Some(Head::GraphOf(_)) => {
            if list {
                Ok(Pieces::ListAndGraph)
            } else {
                Err(Reason::Claim.whole())
            }
        }
        // A piece that is off is 9, one of another kind 24: an arm for each.
        Some(Head::RefutationOf(_)) => Err(Reason::Claim.whole()),
        None => Err(Reason::Head.whole()),
    }
}

// The kinds of both pieces, read from their heads alone.
fn kinds(first: &[u8], second: &[u8]) -> Result<Pieces, Refusal>
    ensures { result ≡ pieces_of first.now second.now }
{
    match read_head(first) {
        Some(Head::GraphOf(_)) => kinds_after(false, second),
        Some(Head::RefutationOf(_)) => kinds_after(true, second),
        None => Err(Reason::Head.whole()),
    }
}

// What is wanted of an element that breaks the claim: C and not D.
fn counterexample(k: Claim) -> Label
    ensures { value_of result ≡ counter_set k.c k.d }
{
    put(only(opposite(k.d)), k.c)
}

// Whether `l` is a literal of the table.
fn in_table(cs: &[u8], l: u8) -> bool
    ensures { result ≡ in_table cs.now l }
{
    usize::from(l / 2) < cs.len() / 6
}

// Test 24 of the literals.
fn test_literals(cs: &[u8], k: Claim) -> Result<(), Refusal>
    ensures { refusal_of result ≡ wholly (literals_code cs.now k.c k.d) }
{
    if !(in_table(cs, k.c) & in_table(cs, k.d)) {
        return Err(Reason::Claim.whole());
    }
    Ok(())
}

// The answer on an opened description with a claim.
fn check_opened(o: &Opening, k: Claim, first: &[u8], second: &[u8]) -> Result<Judgement, Refusal>
    ensures { let d = o.now in
        of_judgement result ≡ opened_claim d.marks d.masks d.count d.concepts.now d.query.now k.c k.d first.now second.now }
{
    test_literals(o.concepts, k)?;
    match kinds(first, second)? {
        Pieces::ListAndGraph => {
            test_list(o, counterexample(k), first)?;
            test_graph(o, only(k.c), second)?;
            Ok(Judgement::Holds)
        }
        Pieces::GraphAlone => {
            test_graph(o, counterexample(k), first)?;
            Ok(Judgement::Fails)
        }
        Pieces::ListAlone => {
            test_list(o, only(k.c), first)?;
            Ok(Judgement::HoldsOfNothing)
        }
    }
}

// The answer on a claim, for slices of every length and literals of every number.
pub fn check_claim(
    description: &[u8],
    c: u8,
    d: u8,
    first: &[u8],
    second: &[u8],
) -> Result<Judgement, Refusal>
    ensures { of_judgement result ≡ claim_answer description.now c d first.now second.now }
{
    let o = open_description(description);
    o.tested?;
    check_opened(&o, Claim { c, d }, first, second)
}
