ghost use Rattle.std.specs.Prelude.{◌≡◌, ◌≤◌};
ghost use Rattle.grammar_reader.specs.Canonical.{canonical};
ghost use Rattle.grammar_reader.specs.Grammars.{value_of};
ghost use Rattle.otp_tool.specs.Findings.{FindsForAnswer, FindsForCanon, FindsForScore};
ghost use Rattle.otp_tool.specs.Results.{IsGeneratedText, IsOfRightAnswer, IsScoreText, short_text};
ghost use Rattle.otp_tool.specs.Steps.{IsStep, write_status, taking_of};

use crate::answer::make_answer;
use crate::scored::read_scored;
use answer_text::{put_answer, put_counts, put_shown};
use command_line::Status;
use grammar_reader::{Grammar, put_grammar, shape};
use outside::{Sink, WriteErr};
use std::alloc::Global;
use timeline_text::FormErr;
use violation::vector;

/// The status with which writing a text ends.
pub(crate) fn write_status(written: Result<(), WriteErr>) -> Status
    ensures { result ≡ write_status written }
{
    match written {
        Ok(()) => Status::Done,
        Err(WriteErr::Failed) => Status::WriteFault,
        Err(WriteErr::NoMemory) => Status::NoMemory,
    }
}

/// Writes the canonical text of a grammar.
pub(crate) fn canon<O: Sink>(grammar: &Grammar, sink: &mut O) -> Status
    ensures step { IsStep FindsForCanon (λ text. text ≡ canonical (value_of grammar.now))
        (taking_of O.Sink sink.old sink.new) result }
    ensures never_falls { O.faults sink.old ≤ O.faults sink.new }
{
    write_status(put_grammar(sink, grammar))
}

/// Counts the violations of the timeline that a word is read as, and writes the line of the counts.
pub(crate) fn score<O: Sink>(alloc: Global, grammar: &Grammar, word: &str, sink: &mut O) -> Status
    ensures step { IsStep (FindsForScore (value_of grammar.now) word.now)
        (IsScoreText (value_of grammar.now) word.now)
        (taking_of O.Sink sink.old sink.new) result }
    ensures never_falls { O.faults sink.old ≤ O.faults sink.new }
{
    let timeline = match read_scored(alloc, grammar, word.as_bytes()) {
        Ok(timeline) => timeline,
        Err(FormErr::NoMemory) => return Status::NoMemory,
        Err(cause) => return Status::FormRefused { word: 2, cause },
    };
    match vector(alloc, &grammar.constraints, &timeline) {
        Ok(counts) => write_status(put_counts(sink, &counts)),
        Err(_) => Status::NoMemory,
    }
}

/// Generates the answer for a grammar and a form's word, and writes it. What it writes gets Yes.
pub(crate) fn generate<O: Sink>(
    alloc: Global,
    grammar: &Grammar,
    form: &str,
    budget: u32,
    sink: &mut O,
) -> Status
    requires some { 1 ≤ budget }
    requires few { budget ≤ 65536 }
    ensures step { IsStep (FindsForAnswer (value_of grammar.now) form.now budget)
        (IsGeneratedText (value_of grammar.now) form.now)
        (taking_of O.Sink sink.old sink.new) result }
    ensures never_falls { O.faults sink.old ≤ O.faults sink.new }
{
    let answer = match make_answer(alloc, grammar, form, budget) {
        Ok(answer) => answer,
        Err(status) => return status,
    };
    match shape(alloc, grammar) {
        Ok(shape) => write_status(put_answer(sink, &shape, &answer)),
        Err(_) => Status::NoMemory,
    }
}

/// Generates the answer for a grammar and a form's word, and writes its counts and its example.
pub(crate) fn show<O: Sink>(
    alloc: Global,
    grammar: &Grammar,
    form: &str,
    budget: u32,
    sink: &mut O,
) -> Status
    requires some { 1 ≤ budget }
    requires few { budget ≤ 65536 }
    ensures step { IsStep (FindsForAnswer (value_of grammar.now) form.now budget)
        (IsOfRightAnswer short_text (value_of grammar.now) form.now)
        (taking_of O.Sink sink.old sink.new) result }
    ensures never_falls { O.faults sink.old ≤ O.faults sink.new }
{
    match make_answer(alloc, grammar, form, budget) {
        Ok(answer) => write_status(put_shown(sink, &answer)),
        Err(status) => status,
    }
}
