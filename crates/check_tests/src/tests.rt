ghost use Rattle.std.specs.Prelude.{◌≡◌, ◌<◌, ◌≤◌, [], ◌∷◌, length, IfOk};
ghost use Rattle.tier_core.specs.Timelines.{column_at};
ghost use Rattle.answer_text.specs.Readable.{IsReadable};
ghost use Rattle.grammar_reader.specs.ShapeOf.{IsShapeOf};

use answer_reader::read_answer;
use answer_text::Answer;
use cert_check::{Fault, Verdict, check};
use grammar_reader::{Grammar, read_grammar, shape};
use std::alloc::{AllocError, Global};
use std::test::Fail;
use tier_core::{Shape, Timeline};

// One input tier and an overt one, without constraints.
const BASE: &[u8] = b"otp 1\ntier A input\ntier a overt\n";

// The right answer for the empty form.
const LINES: [&[u8]; 14] = [
    b"answer 1",
    b"form empty",
    b"counts",
    b"example empty",
    b"stage 0 2",
    b"node 0/-/ 0",
    b"node 0/+/ 0",
    b"automaton 2",
    b"state 0 final",
    b"arc 1 -[",
    b"state 1",
    b"arc 0 -]",
    b"arc 1 -|",
    b"end",
];

// The text of the answer, with another line in place of the one with this number.
fn altered(alloc: Global, number: usize, line: &[u8]) -> Result<Vec<u8>, AllocError> {
    let mut text = Vec::new(alloc);
    for (place, each) in LINES.iter().enumerate() {
        let shown: &[u8] = if place + 1 == number { line } else { each };
        text.extend_from_slice(shown)?;
        text.push(b'\n')?;
    }
    Ok(text)
}

// What the checker says of the text of an answer.
fn verdict_of(alloc: Global, grammar: &Grammar, text: &[u8]) -> Result<Verdict, Fail>
    requires { length text.now ≤ 268435456 }
{
    let Ok(shape) = shape(alloc, grammar) else {
        return Err(Fail::new("no memory"));
    };
    let Ok(answer) = read_answer(alloc, &shape, text) else {
        return Err(Fail::new("not readable"));
    };
    match check(alloc, grammar, &answer) {
        Ok(verdict) => Ok(verdict),
        Err(_) => Err(Fail::new("no memory")),
    }
}

// A verdict in a word.
fn word_of(verdict: &Verdict) -> &'static str {
    match verdict {
        Verdict::Yes => "yes",
        Verdict::No(Fault::ExampleWrong) => "example",
        Verdict::No(Fault::FinalPotential { .. }) => "final potential",
        Verdict::No(Fault::Potential { .. }) => "potential",
        Verdict::No(Fault::FinalsDiffer { .. }) => "mark",
        Verdict::No(Fault::ArcsTwice { .. }) => "twice",
        Verdict::No(Fault::ArcsDiffer { .. }) => "arcs",
        Verdict::No(_) => "another fault",
    }
}

// A line that is altered, what stands there, and the verdict. With no line altered the answer is right.
#[test]
fn altered_answers_get_their_first_fault(rt: HostRuntime) -> Result<(), Fail> {
    let alloc = rt.alloc();
    let grammar = read_grammar(alloc, BASE)?;
    let cases: [(usize, &[u8], &str); 9] = [
        (0, b"", "yes"),
        (2, b"form [ ]", "example"),
        (4, b"example [- ]-", "example"),
        (6, b"node 0/-/ 1", "final potential"),
        (7, b"node 0/+/ 1", "potential"),
        (9, b"state 0", "mark"),
        (10, b"arc 0 -[", "arcs"),
        (11, b"state 1 final", "mark"),
        (12, b"arc 0 -|", "twice"),
    ];
    for (number, line, due) in cases {
        let text = altered(alloc, number, line)?;
        if text.len() > 268_435_456 {
            return Err(Fail::new("the text is too long"));
        }
        let verdict = verdict_of(alloc, &grammar, &text)?;
        assert_eq!(rt; word_of(&verdict), due, "{number}");
    }
    Ok(())
}

// The second column of a form, as a form.
fn second_column(alloc: Global, form: &Timeline) -> Result<Timeline, Fail>
    requires { 1 < length form.now }
    ensures { IfOk result (λ second. second ≡ column_at form.now 1 ∷ []) }
{
    let mut second = Timeline::new(alloc);
    match second.push(form.column(1).copy(alloc)) {
        Ok(()) => Ok(second),
        Err(_) => Err(Fail::new("no memory")),
    }
}

// An answer with another form.
fn with_form(answer: Answer, form: Timeline) -> Answer
    ensures form { result.form ≡ form }
    ensures counts { result.counts ≡ answer.counts }
    ensures example { result.example ≡ answer.example }
    ensures stages { result.stages ≡ answer.stages }
    ensures automaton { result.automaton ≡ answer.automaton }
{
    Answer {
        form,
        counts: answer.counts,
        example: answer.example,
        stages: answer.stages,
        automaton: answer.automaton,
    }
}

// What the checker says of an answer if its form is the second column of the form that it has.
fn verdict_by_second_column(
    alloc: Global,
    grammar: &Grammar,
    shape: &Shape,
    answer: Answer,
) -> Result<Verdict, Fail>
    requires shape { IsShapeOf grammar.now shape.now }
    requires readable { IsReadable shape.now answer }
{
    if answer.form.len() < 2 {
        return Err(Fail::new("the form is too short"));
    }
    let form = second_column(alloc, &answer.form)?;
    let other = with_form(answer, form);
    match check(alloc, grammar, &other) {
        Ok(verdict) => Ok(verdict),
        Err(_) => Err(Fail::new("no memory")),
    }
}

// No text has the form `]`, since it ends what it does not begin; a value may have it.
#[test]
fn a_form_that_ends_what_it_does_not_begin_is_wrong(rt: HostRuntime) -> Result<(), Fail> {
    let alloc = rt.alloc();
    let grammar = read_grammar(alloc, BASE)?;
    let text = altered(alloc, 2, b"form [ ]")?;
    if text.len() > 268_435_456 {
        return Err(Fail::new("the text is too long"));
    }
    let Ok(shape) = shape(alloc, &grammar) else {
        return Err(Fail::new("no memory"));
    };
    let Ok(answer) = read_answer(alloc, &shape, &text) else {
        return Err(Fail::new("not readable"));
    };
    let verdict = verdict_by_second_column(alloc, &grammar, &shape, answer)?;
    assert!(rt; matches!(verdict, Verdict::No(Fault::FormWrong)));
    Ok(())
}
