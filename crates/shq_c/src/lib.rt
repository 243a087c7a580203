// The public functions for programs in C: an answer as one number.
#![tactic(auto)]

pub mod edit;

ghost use Rattle.std.specs.Prelude.{◌≡◌, ◌+◌, ◌*◌, length};
ghost use Rattle.answers.specs.Answers.{Word, WRITTEN, DONE, of_verdict, told_by, judgement_word, reading_word};
ghost use Rattle.answers.specs.Reasons.{number_of};
ghost use Rattle.verdict.specs.Verdict.{verdict};
ghost use Rattle.claims.specs.Claims.{claim_answer};
ghost use Rattle.line_writer.specs.Writing.{write_answer, buffer_after};
ghost use Rattle.line_reader.specs.Reading.{read_answer};
ghost use Rattle.shq_c.specs.Packed.{word_no, packed};

use answers::{Judgement, Reading, Refusal, Verdict};
use claims::check_claim;
use line_reader::read_interpretation;
use line_writer::write_interpretation;
use verdict::check_evidence;

// A refusal's number and record; the word REFUSED is 0.
fn refused(r: Refusal) -> u32
    ensures { result ≡ number_of r.reason * 256 + r.place }
{
    u32::from(r.reason.number()) * 256 + u32::from(r.place)
}

fn of_verdict(v: Verdict) -> u32
    ensures { result ≡ packed (of_verdict v) }
{
    match v {
        Verdict::Inhabited => 65536,
        Verdict::Empty => 131072,
        Verdict::Refused(r) => refused(r),
    }
}

// What an answer that nothing refuses says, in one of the words.
trait Told: Copy {
    ghost word: { Self → Word };

    // The word's number, above the two bytes of a refusal.
    fn code(self) -> u32
        ensures { result ≡ word_no (word self) * 65536 };
}

impl Told for Judgement {
    ghost word = { judgement_word };

    fn code(self) -> u32 {
        match self {
            Judgement::Holds => 262144,
            Judgement::Fails => 327680,
            Judgement::HoldsOfNothing => 393216,
        }
    }
}

impl Told for Reading {
    ghost word = { reading_word };

    fn code(self) -> u32 {
        match self {
            Reading::Holds => 262144,
            Reading::Fails => 327680,
        }
    }
}

// A writer's answer: how many bytes it wrote.
impl Told for usize {
    ghost word = { λ n. WRITTEN };

    fn code(self) -> u32 {
        196608
    }
}

// The answer of an operation.
impl Told for () {
    ghost word = { λ x. DONE };

    fn code(self) -> u32 {
        458752
    }
}

// An answer as one number: that of its word, or a refusal's number and record.
fn packed<A: Told>(answer: Result<A, Refusal>) -> u32
    ensures { result ≡ packed (told_by A.word answer) }
{
    match answer {
        Ok(x) => x.code(),
        Err(r) => refused(r),
    }
}

// The verdict on a description with evidence.
#[unsafe(no_mangle)]
pub extern "C" fn shq_check(description: &[u8], evidence: &[u8]) -> u32
    ensures { result ≡ packed (verdict description.now evidence.now) }
{
    of_verdict(check_evidence(description, evidence))
}

// The answer on the claim that every `c` is `d`; an empty second piece is none.
#[unsafe(no_mangle)]
pub extern "C" fn shq_claim(description: &[u8], c: u8, d: u8, first: &[u8], second: &[u8]) -> u32
    ensures { result ≡ packed (claim_answer description.now c d first.now second.now) }
{
    packed(check_claim(description, c, d, first, second))
}

// The line of a graph, written into the buffer; on a refusal no byte of it changes.
#[unsafe(no_mangle)]
pub extern "C" fn shq_write(description: &[u8], evidence: &[u8], buffer: &mut [u8]) -> u32
    ensures { (result ≡ packed (write_answer description.now evidence.now (length buffer.old))) × (buffer.new ≡ buffer_after description.now evidence.now buffer.old) }
{
    packed(write_interpretation(description, evidence, buffer))
}

// The direct reading of a line.
#[unsafe(no_mangle)]
pub extern "C" fn shq_read(description: &[u8], line: &[u8]) -> u32
    ensures { result ≡ packed (read_answer description.now line.now) }
{
    packed(read_interpretation(description, line))
}
