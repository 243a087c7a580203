// Tests 9 to 15 of a graph, for any wanted literals, and for those of a plain question.
#![tactic(auto)]

ghost use Rattle.std.specs.Prelude.{◌≡◌};
ghost use Rattle.std.proofs.Math.Option.{none};
ghost use Rattle.logic.specs.Refusals.{refuse, refuse_from};
ghost use Rattle.labels.specs.Labels.{value_of};
ghost use Rattle.answers.specs.Answers.{refusal_of};
ghost use Rattle.nodes.specs.NodeSteps.{root_set};
ghost use Rattle.graph_check.specs.GraphSteps.{form_code, form_of, need_of, record_with, records_with, record_code, graph_code};

use answers::{Reason, Refusal, first_refused};
use edges::edges_ok;
use evidence::{Head, Stored, layout_of, node_form_ok, read_head};
use fillers::{Record, test_fillers};
use intake::Opening;
use labels::{Label, MOST_ENTRIES, empty};
use nodes::{boths_ok, label_ok, required, root_set};
use parts::read2;
use sources::sources;

// The `n` records of the graph `s`, with the opened description that they are tested against.
#[derive(Clone, Copy)]
struct Graph<'a> {
    o: &'a Opening<'a>,
    s: Stored<'a>,
    n: u8,
}

// What record `i` is to have: `first` if it is record 0, and otherwise `later`.
fn need_of(first: Label, later: Label, i: u8) -> Label
    ensures { value_of result ≡ need_of (value_of first) (value_of later) i }
{
    if i == 0 { first } else { later }
}

impl<'a> Graph<'a> {
    // Whether record `i` has the form of a node.
    fn form_ok(&self, i: u8) -> bool
        ensures { result ≡ form_code self.now.s.layout self.now.s.bytes.now i }
    {
        node_form_ok(read2(self.s.bytes, 2 + 4 * (i as usize) + 2), self.s.layout)
    }

    // Test 10 of record `i`.
    fn test_form(&self, i: u8) -> Result<(), Refusal>
        ensures { refusal_of result ≡ refuse i (form_of self.now.s.layout self.now.s.bytes.now i) none }
    {
        if !self.form_ok(i) {
            return Err(Reason::Form.at(i));
        }
        Ok(())
    }

    // Test 10 of the records.
    fn test_forms(&self) -> Result<(), Refusal>
        ensures { refusal_of result ≡ refuse_from (form_of self.now.s.layout self.now.s.bytes.now) self.now.n 0 none }
    {
        first_refused(self.n, |i| self.test_form(i))
    }

    // Rules 11 to 15 of record `i`, which is to have `need`, with the table of sources.
    fn test_record(
        &self,
        src: &[u64; MOST_ENTRIES as usize],
        i: u8,
        need: Label,
    ) -> Result<(), Refusal>
        ensures { let g = self.now in let o = g.o.now in
            let code = record_with o.masks o.count o.concepts.now src.now (value_of need) g.s.layout g.s.bytes.now g.n in
            refusal_of result ≡ refuse i (code i) none }
    {
        let o = self.o;
        let x = self.s.label(i);
        let es = self.s.rest(i);
        if !label_ok(o.concepts, x, need) {
            return Err(Reason::Label.at(i));
        }
        if !boths_ok(o.concepts, x) {
            return Err(Reason::Both.at(i));
        }
        if !edges_ok(es, &o.masks, o.count, self.n) {
            return Err(Reason::Edge.at(i));
        }
        let record = Record {
            i,
            x,
            es,
            s: self.s,
        };
        test_fillers(o.concepts, src, &record)
    }

    // The same of record `i`, where record 0 is to have `first` and the others `later`.
    fn test_needing(
        &self,
        src: &[u64; MOST_ENTRIES as usize],
        first: Label,
        later: Label,
        i: u8,
    ) -> Result<(), Refusal>
        ensures { let g = self.now in let o = g.o.now in
            let code = records_with o.masks o.count o.concepts.now src.now (value_of first) (value_of later) g.s.layout g.s.bytes.now g.n in
            refusal_of result ≡ refuse i (code i) none }
    {
        self.test_record(src, i, need_of(first, later, i))
    }

    // Rules 11 to 15 of the records, of which the first is to have `want`.
    fn test_records(&self, want: Label) -> Result<(), Refusal>
        ensures { let g = self.now in let o = g.o.now in
            let code = record_code o.masks o.count o.concepts.now o.query.now (value_of want) g.s.layout g.s.bytes.now g.n in
            refusal_of result ≡ refuse_from code g.n 0 none }
    {
        let src = sources(&self.o.masks, self.o.concepts);
        let first = required(self.o.query, want);
        let later = required(self.o.query, empty());
        first_refused(self.n, |i| self.test_needing(&src, first, later, i))
    }
}

// Tests 9 to 15 of the graph `s`, whose record 0 is to have `want`, for an opened description.
pub fn test_graph(o: &Opening, want: Label, s: &[u8]) -> Result<(), Refusal>
    ensures { let d = o.now in refusal_of result ≡ graph_code d.masks d.count d.concepts.now d.query.now (value_of want) s.now }
{
    let no_graph = Reason::Head.whole();
    let head = read_head(s);
    match head {
        Some(Head::GraphOf(n)) => {
            let graph = Graph {
                o,
                s: Stored {
                    bytes: s,
                    layout: layout_of(o.concepts, false),
                },
                n,
            };
            graph.test_forms()?;
            graph.test_records(want)
        },
        // An arm for each head that is none of a graph: that neither passes is guarded in each.
        Some(Head::RefutationOf(_)) => Err(no_graph),
        None => Err(no_graph),
    }
}

// The same for a plain question, which wants the root.
pub fn test_sample(o: &Opening, s: &[u8]) -> Result<(), Refusal>
    ensures { let d = o.now in refusal_of result ≡ graph_code d.masks d.count d.concepts.now d.query.now (root_set d.query.now) s.now }
{
    test_graph(o, root_set(o.query), s)
}
