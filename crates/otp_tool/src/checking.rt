ghost use Rattle.std.specs.Prelude.{◌≡◌, ◌≢◌, ◌≤◌, ℕ, List, length, IfOk, IfErr};
ghost use Rattle.answer_text.specs.Readable.{IsReadable};
ghost use Rattle.answer_reader.specs.Reading.{IsTextOf};
ghost use Rattle.answer_text.specs.Values.{answer_value};
ghost use Rattle.grammar_reader.specs.Grammars.{value_of};
ghost use Rattle.otp_tool.specs.Steps.{IsCheckStep, IsCheckWork, IsRefusal, RefusesAnswer, change_of, no_end_of, taking_of, verdict_end};

use crate::results::write_status;
use crate::second::load_second;
use answer_reader::{AnswerErr, read_answer};
use answer_text::Answer;
use cert_check::Verdict;
use command_line::Status;
use grammar_reader::{Grammar, shape};
use outside::{Shelf, Sink, WriteErr};
use std::alloc::Global;
use tier_core::Shape;
use verdict_text::put_verdict;

/// How many bytes an answer's file may have.
pub(crate) const ANSWER_LIMIT: u64 = 268435456;

/// Reads the answer of the file that word 2 names.
fn answer_of(alloc: Global, shape: &Shape, bytes: &[u8]) -> Result<Answer, Status>
    requires { length bytes.now ≤ 268435456 }
    ensures ok { IfOk result (λ answer. IsTextOf shape.now bytes.now
        (answer_value shape.now answer)) }
    ensures readable { IfOk result (IsReadable shape.now) }
    ensures err { IfErr result (IsRefusal (RefusesAnswer shape.now bytes.now)) }
{
    match read_answer(alloc, shape, bytes) {
        Ok(answer) => Ok(answer),
        Err(AnswerErr::At { line, cause }) => Err(Status::AnswerRefused {
            word: 2,
            line,
            cause,
        }),
        Err(AnswerErr::NoMemory) => Err(Status::NoMemory),
    }
}

/// The status with which writing the verdict No ends.
fn no_status(written: Result<(), WriteErr>) -> Status
    ensures { result ≡ no_end_of written }
{
    match written {
        Ok(()) => Status::No,
        Err(WriteErr::Failed) => Status::WriteFault,
        Err(WriteErr::NoMemory) => Status::NoMemory,
    }
}

/// The status with which writing a verdict ends.
fn verdict_status(verdict: &Verdict, written: Result<(), WriteErr>) -> Status
    ensures { result ≡ verdict_end verdict.now written }
{
    match verdict {
        Verdict::Yes => write_status(written),
        Verdict::No(_) => no_status(written),
    }
}

/// Checks the answer that bytes are read as, and writes the verdict.
fn judge<O: Sink>(alloc: Global, grammar: &Grammar, bytes: &[u8], sink: &mut O) -> Status
    requires { length bytes.now ≤ 268435456 }
    ensures step { IsCheckStep (value_of grammar.now) bytes.now
        (taking_of O.Sink sink.old sink.new) result }
    ensures never_falls { O.faults sink.old ≤ O.faults sink.new }
{
    let shape = match shape(alloc, grammar) {
        Ok(shape) => shape,
        Err(_) => return Status::NoMemory,
    };
    let answer = match answer_of(alloc, &shape, bytes) {
        Ok(answer) => answer,
        Err(status) => return status,
    };
    match cert_check::check(alloc, grammar, &answer) {
        Ok(verdict) => verdict_status(&verdict, put_verdict(sink, &shape, &verdict)),
        Err(_) => Status::NoMemory,
    }
}

/// Checks the answer of a file, and writes the verdict.
pub(crate) fn check<F: Shelf, O: Sink>(
    alloc: Global,
    grammar: &Grammar,
    answer: &str,
    shelf: &mut F,
    sink: &mut O,
) -> Status
    ensures work { IsCheckWork (value_of grammar.now) answer.now
        (change_of F.Shelf O.Sink shelf.old shelf.new sink.old sink.new) result }
    ensures held { (other : List ℕ) → F.held shelf.new other ≡ F.held shelf.old other }
    ensures never_falls { (other : List ℕ) → F.faults shelf.old other ≤ F.faults shelf.new other }
    ensures others { (other : List ℕ) → other ≢ answer.now
        → F.faults shelf.new other ≡ F.faults shelf.old other }
    ensures sink_never_falls { O.faults sink.old ≤ O.faults sink.new }
{
    match load_second(alloc, shelf, 2, answer, ANSWER_LIMIT) {
        Ok(bytes) => judge(alloc, grammar, &bytes, sink),
        Err(status) => status,
    }
}
