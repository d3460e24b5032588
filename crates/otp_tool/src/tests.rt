use crate::{Status, run};
use answer_reader::AnswerCause;
use lexicon::LexErr;
use outside::{MemShelf, MemSink, SafeSink};
use std::alloc::{AllocError, Global};
use std::test::Fail;
use tableau::RowsCause;
use timeline_text::FormErr;

/// No a at best; then each A has an a, and each a an A.
const LEAST: &str = "otp 1
tier A input
tier a overt
constraint One a # a
constraint Max A -> a
constraint Dep a -> A
";

/// Each a has an A.
const ADDED: &str = "otp 1
tier A input
tier a overt
constraint Dep a -> A
";

const ROWS: &str = "[- ]-\n\n-[ [| ]]\n";

const ENTRIES: &str =
    "entry = [{name = 'none', form = 'empty'}, {name = 'one', form = '[ ]', gloss = 1},
{name = 'two', form = '[ | ]'}]";

const STAGES: &str = "answer 1
form empty
counts 0
example empty
stage 0 2
node 0/-/ 0
node 0/+/ 0
stage 1 2
node 0/-/. 0
node 0/+/u 1
automaton 1
state 0 final
end
";

/// An answer that lacks stages, with another count.
const ALTERED: &str = "answer 1
form [ ]
counts 1 1 0
example [- ]-
stage 0 0
automaton 0
end
";

const SINGLE_PASS: &str = "once 1
form [ ]
counts 0 1 0
example [- ]-
nodes 8
node 0/-/.. 0 1 0
node 0/+/.u 1 0 0
node 1/-/u. 0 1 0
node 1/-/m. 0 0 0
node 1/+/mm 1 0 0
node 2/-/.. 0 0 0
node 2/+/.u 1 0 1
node 2/+/.m 1 0 0
automaton 3
state 0
arc 2 [-
state 2
arc 5 ]-
state 5 final
end
";

const TABLEAU: &str = "  [ ]      One Max Dep
> [- ]-      0   1   0
> [- ]-      0   1   0
  -[ [| ]]  2!   0   1
";

const TWO_OF_ONE: &str = "hits 2\nentry one\nexample [[ +| ]]\nentry two\nexample [[ || ]]\n";

const HITS: &str = "hits 2\nentry one\nexample [[ ]]\nentry two\nexample [- |[ ]]\n";

const SAMPLE_OF_ONE: &str = "form =t
counts 0 0 0 0 0 0 0 0 0 0 0 1 0
example [-[-[ ]-]-]
states 5
pairs 6
check Yes
";

/// The words of a command, from one text with a slash between two words.
fn words(alloc: Global, text: &str) -> Result<Vec<String>, AllocError> {
    let mut words = Vec::new(alloc);
    for word in text.split('/') {
        words.push(String::from_str(alloc, word)?)?;
    }
    Ok(words)
}

/// A shelf with the file `g` of a grammar, the files `r` and `l` of rows and entries, the files `a` and
/// `b` of an answer and an altered one, and loads that fail.
fn shelf(alloc: Global, grammar: &str, failing: Vec<u64>) -> Result<MemShelf, AllocError> {
    let mut files = Vec::new(alloc);
    for (name, text) in [
        ("g", grammar),
        ("r", ROWS),
        ("l", ENTRIES),
        ("a", STAGES),
        ("b", ALTERED),
    ] {
        files.push((
            String::from_str(alloc, name)?,
            text.as_bytes().to_vec(alloc)?,
        ))?;
    }
    Ok(MemShelf::new(alloc, files, failing))
}

/// Runs words over such a shelf, and answers the status and what was written.
fn outcome(alloc: Global, grammar: &str, text: &str) -> Result<(Status, String), AllocError> {
    let mut shelf = shelf(alloc, grammar, Vec::new(alloc))?;
    let mut sink = SafeSink::new(alloc);
    let status = run(alloc, &words(alloc, text)?, &mut shelf, &mut sink);
    let written = String::from_utf8_lossy(alloc, sink.bytes())?;
    Ok((status, written))
}

#[test]
fn each_command_writes_its_text(rt: HostRuntime) -> Result<(), Fail> {
    let cases = [
        (LEAST, "canon/g", LEAST),
        (LEAST, "score/g/-[ [| ]]", "counts 2 0 1\n"),
        (ADDED, "generate/g/empty/2", STAGES),
        (LEAST, "show/g/[ ]/6", "counts 0 1 0\nexample [- ]-\n"),
        (LEAST, "once/g/[ ]/8", SINGLE_PASS),
        (LEAST, "tableau/g/[ ]/r/6", TABLEAU),
        (ADDED, "comprehend/g/l/[ ]", HITS),
        (ADDED, "comprehend/g/l/[ | ]/20", TWO_OF_ONE),
        (LEAST, "comprehend/g/l/[ ]/20", "hits 0\n"),
        (ADDED, "check/g/a", "Yes\n"),
        (LEAST, "sample/1", SAMPLE_OF_ONE),
    ];
    for (grammar, words, text) in cases {
        let (status, written) = outcome(rt.alloc(), grammar, words)?;
        assert_eq!(rt; status, Status::Done, "{words}");
        assert_eq!(rt; written.as_str(), text, "{words}");
    }
    Ok(())
}

// Too few stages, and an answer for another grammar.
#[test]
fn verdict_on_an_altered_answer(rt: HostRuntime) -> Result<(), Fail> {
    let (status, written) = outcome(rt.alloc(), LEAST, "check/g/b")?;
    assert_eq!(rt; status, Status::No);
    assert_eq!(rt; written.as_str(), "No stages 1 4\n");
    let (status, written) = outcome(rt.alloc(), LEAST, "check/g/a")?;
    let cause = AnswerCause::BadLine;
    let (word, line) = (2, 3);
    assert_eq!(rt; status, Status::AnswerRefused { word, line, cause });
    assert!(rt; written.is_empty());
    Ok(())
}

fn refused(word: u32, cause: FormErr) -> Status {
    Status::FormRefused { word, cause }
}

fn no_rows(row: u32, cause: RowsCause) -> Status {
    Status::RowsRefused {
        word: 3,
        row,
        cause,
    }
}

// The form or surface, then the second file, then what is in it, then the budget.
#[test]
fn refusals_have_an_order(rt: HostRuntime) -> Result<(), Fail> {
    let broken = FormErr::NotWellFormed { tier: 0 };
    let no_toml = Status::LexiconRefused {
        word: 2,
        cause: LexErr::NotToml,
    };
    let cases = [
        ("show/g", Status::Usage),
        ("once/h/[", Status::ReadFault { word: 1 }),
        ("once/g/[/1", refused(2, broken)),
        ("once/g/[ ]/7", Status::Budget { entry: 0, stage: 3 }),
        ("generate/g/[ ]/5", Status::Budget { entry: 0, stage: 0 }),
        ("tableau/g/[/s", refused(2, broken)),
        ("tableau/g/[ ]/s", Status::ReadFault { word: 3 }),
        ("tableau/g/[ | ]/r/1", no_rows(1, RowsCause::NotCandidate)),
        ("tableau/g/[ ]/r/5", Status::Budget { entry: 0, stage: 0 }),
        ("comprehend/g/s/[", refused(3, broken)),
        ("comprehend/g/s/[ ]", Status::ReadFault { word: 2 }),
        ("comprehend/g/r/[ ]/1", no_toml),
        ("check/g/s", Status::ReadFault { word: 2 }),
        ("check/h/s", Status::ReadFault { word: 1 }),
        ("sample/64", Status::Usage),
        (
            "comprehend/g/l/[ ]/5",
            Status::Budget { entry: 1, stage: 0 },
        ),
    ];
    for (words, due) in cases {
        let (status, written) = outcome(rt.alloc(), LEAST, words)?;
        assert_eq!(rt; status, due, "{words}");
        assert!(rt; written.is_empty(), "{words}");
    }
    Ok(())
}

// A load that fails once: the first, and for commands with two files the second.
#[test]
fn failing_loads_are_read_faults(rt: HostRuntime) -> Result<(), Fail> {
    let alloc = rt.alloc();
    for (text, load, word) in [
        ("once/g/[ ]", 1, 1),
        ("tableau/g/[ ]/r", 2, 3),
        ("comprehend/g/l/[ ]", 2, 2),
        ("check/g/a", 2, 2),
    ] {
        let mut shelf = shelf(alloc, ADDED, [load].to_vec(alloc)?)?;
        let mut sink = SafeSink::new(alloc);
        let words = words(alloc, text)?;
        let fault = Status::ReadFault { word };
        assert_eq!(rt; run(alloc, &words, &mut shelf, &mut sink), fault, "{text}");
        assert_eq!(rt; sink.bytes(), b"".as_slice());
        assert_eq!(rt;
            run(alloc, &words, &mut shelf, &mut sink),
            Status::Done,
            "{text}"
        );
    }
    Ok(())
}

// The grammar's file is loaded once: the second load of the shelf, which fails, is that of the next run.
#[test]
fn a_grammar_is_loaded_once(rt: HostRuntime) -> Result<(), Fail> {
    let alloc = rt.alloc();
    for text in ["canon/g", "generate/g/[ ]"] {
        let mut shelf = shelf(alloc, LEAST, [2].to_vec(alloc)?)?;
        let words = words(alloc, text)?;
        let mut sink = SafeSink::new(alloc);
        let fault = Status::ReadFault { word: 1 };
        assert_eq!(rt;
            run(alloc, &words, &mut shelf, &mut sink),
            Status::Done,
            "{text}"
        );
        assert_eq!(rt; run(alloc, &words, &mut shelf, &mut sink), fault, "{text}");
    }
    Ok(())
}

// A sink that takes 16 bytes a write, of which the third fails, has taken the first 32.
#[test]
fn a_third_write_that_fails_leaves_two(rt: HostRuntime) -> Result<(), Fail> {
    let alloc = rt.alloc();
    let mut shelf = shelf(alloc, LEAST, Vec::new(alloc))?;
    let mut sink = MemSink::new(alloc, 16, [3].to_vec(alloc)?);
    let status = run(
        alloc,
        &words(alloc, "generate/g/[ ]")?,
        &mut shelf,
        &mut sink,
    );
    assert_eq!(rt; status, Status::WriteFault);
    assert_eq!(rt;
        sink.bytes(),
        b"answer 1\nform [ ]\ncounts 0 1 0\ne".as_slice()
    );
    Ok(())
}

// A sink that takes 5 bytes a write, of which the third fails, has taken the first 10.
#[test]
fn failing_writes_are_write_faults(rt: HostRuntime) -> Result<(), Fail> {
    let alloc = rt.alloc();
    for (text, front) in [
        ("canon/g", "otp 1\ntier"),
        ("once/g/[ ]", "once 1\nfor"),
        ("comprehend/g/l/empty", "hits 3\nent"),
        ("check/g/b", "No stages "),
        ("sample/1", "form =t\n"),
    ] {
        let mut shelf = shelf(alloc, LEAST, Vec::new(alloc))?;
        let mut sink = MemSink::new(alloc, 5, [3].to_vec(alloc)?);
        let status = run(alloc, &words(alloc, text)?, &mut shelf, &mut sink);
        assert_eq!(rt; status, Status::WriteFault, "{text}");
        assert_eq!(rt; sink.bytes(), front.as_bytes(), "{text}");
    }
    Ok(())
}

#[test]
fn sample_of_the_longest_form(rt: HostRuntime) -> Result<(), Fail> {
    let (status, written) = outcome(rt.alloc(), LEAST, "sample/63")?;
    assert_eq!(rt; status, Status::Done);
    assert!(rt; written.as_str().starts_with("form ="));
    assert!(rt; written.as_str().ends_with("\ncheck Yes\n"));
    Ok(())
}
