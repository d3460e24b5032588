use crate::{Status, put_status};
use answer_reader::AnswerCause;
use grammar_reader::GrammarCause;
use lexicon::LexErr;
use outside::{MemSink, SafeSink, Sink, WriteErr};
use std::test::Fail;
use tableau::RowsCause;
use timeline_text::FormErr;

fn no_grammar(line: u32, cause: GrammarCause) -> Status {
    Status::GrammarRefused {
        word: 1,
        line,
        cause,
    }
}

fn no_rows(cause: RowsCause) -> Status {
    Status::RowsRefused {
        word: 3,
        row: 2,
        cause,
    }
}

fn no_form(cause: FormErr) -> Status {
    Status::FormRefused { word: 2, cause }
}

fn no_lexicon(cause: LexErr) -> Status {
    Status::LexiconRefused { word: 2, cause }
}

#[test]
fn numbers_and_lines(rt: HostRuntime) -> Result<(), Fail> {
    let cases = [
        (Status::Done, 0, ""),
        (Status::No, 1, "no\n"),
        (Status::Usage, 2, "usage\n"),
        (
            Status::AnswerRefused {
                word: 2,
                line: 9,
                cause: AnswerCause::BadOrder,
            },
            6,
            "answer word 2 line 9: BadOrder\n",
        ),
        (
            Status::Budget { entry: 0, stage: 7 },
            7,
            "budget entry 0 stage 7\n",
        ),
        (
            Status::Budget {
                entry: 4294967295,
                stage: 64,
            },
            7,
            "budget entry 4294967295 stage 64\n",
        ),
        (Status::ReadFault { word: 1 }, 8, "read fault word 1\n"),
        (Status::WriteFault, 9, "write fault\n"),
        (Status::NoMemory, 10, "no memory\n"),
        (Status::TooLong { word: 1 }, 12, "too long word 1\n"),
    ];
    for (status, number, line) in cases {
        let mut sink = SafeSink::new(rt.alloc());
        put_status(&mut sink, &status)?;
        assert_eq!(rt; sink.bytes(), line.as_bytes(), "{line}");
        assert_eq!(rt; status.number(), number, "{line}");
    }
    Ok(())
}

// Causes of a grammar's lines, of its names and limits, and of the kinds of tiers that it must have.
#[test]
fn causes_of_a_grammar(rt: HostRuntime) -> Result<(), Fail> {
    let cases = [
        (
            no_grammar(1, GrammarCause::BadByte),
            "grammar word 1 line 1: BadByte\n",
        ),
        (
            no_grammar(99, GrammarCause::UnknownTier),
            "grammar word 1 line 99: UnknownTier\n",
        ),
        (
            no_grammar(65536, GrammarCause::TooManyConstraints),
            "grammar word 1 line 65536: TooManyConstraints\n",
        ),
        (
            no_grammar(0, GrammarCause::NoOvert),
            "grammar word 1 line 0: NoOvert\n",
        ),
    ];
    for (status, line) in cases {
        let mut sink = SafeSink::new(rt.alloc());
        put_status(&mut sink, &status)?;
        assert_eq!(rt; sink.bytes(), line.as_bytes(), "{line}");
        assert_eq!(rt; status.number(), 3, "{line}");
    }
    Ok(())
}

#[test]
fn each_cause_of_a_form(rt: HostRuntime) -> Result<(), Fail> {
    let cases = [
        (
            no_form(FormErr::BadSymbol { at: 20 }),
            "form word 2: BadSymbol 20\n",
        ),
        (
            no_form(FormErr::WrongWidth { column: 0 }),
            "form word 2: WrongWidth 0\n",
        ),
        (no_form(FormErr::TooLong), "form word 2: TooLong\n"),
        (
            no_form(FormErr::NotWellFormed { tier: 3 }),
            "form word 2: NotWellFormed 3\n",
        ),
        (
            no_form(FormErr::NotReduced { column: 1 }),
            "form word 2: NotReduced 1\n",
        ),
        (
            no_form(FormErr::UnknownLetter { at: 1 }),
            "form word 2: UnknownLetter 1\n",
        ),
        (no_form(FormErr::NoMemory), "form word 2: NoMemory\n"),
    ];
    for (status, line) in cases {
        let mut sink = SafeSink::new(rt.alloc());
        put_status(&mut sink, &status)?;
        assert_eq!(rt; sink.bytes(), line.as_bytes(), "{line}");
        assert_eq!(rt; status.number(), 4, "{line}");
    }
    Ok(())
}

#[test]
fn causes_of_a_lexicon(rt: HostRuntime) -> Result<(), Fail> {
    let bad_form = LexErr::BadForm {
        index: 0,
        cause: FormErr::NotWellFormed { tier: 0 },
    };
    let cases = [
        (no_lexicon(LexErr::NotToml), "lexicon word 2: NotToml\n"),
        (
            no_lexicon(LexErr::TwiceNamed { index: 1 }),
            "lexicon word 2: TwiceNamed 1\n",
        ),
        (
            no_lexicon(bad_form),
            "lexicon word 2: BadForm 0 NotWellFormed 0\n",
        ),
    ];
    for (status, line) in cases {
        let mut sink = SafeSink::new(rt.alloc());
        put_status(&mut sink, &status)?;
        assert_eq!(rt; sink.bytes(), line.as_bytes(), "{line}");
        assert_eq!(rt; status.number(), 5, "{line}");
    }
    Ok(())
}

#[test]
fn each_cause_of_a_row(rt: HostRuntime) -> Result<(), Fail> {
    let cases = [
        (
            no_rows(RowsCause::Form(FormErr::NotReduced { column: 1 })),
            "rows word 3 row 2: NotReduced 1\n",
        ),
        (
            no_rows(RowsCause::NotCandidate),
            "rows word 3 row 2: NotCandidate\n",
        ),
        (no_rows(RowsCause::TooMany), "rows word 3 row 2: TooMany\n"),
    ];
    for (status, line) in cases {
        let mut sink = SafeSink::new(rt.alloc());
        put_status(&mut sink, &status)?;
        assert_eq!(rt; sink.bytes(), line.as_bytes(), "{line}");
        assert_eq!(rt; status.number(), 11, "{line}");
    }
    Ok(())
}

// A sink that takes 8 bytes a write, of which the third fails, has taken the first 16.
#[test]
fn a_failing_write_leaves_a_front(rt: HostRuntime) -> Result<(), Fail> {
    let alloc = rt.alloc();
    let mut sink = MemSink::new(alloc, 8, [3].to_vec(alloc)?);
    let status = no_grammar(7, GrammarCause::TooManyConstraints);
    assert_eq!(rt; put_status(&mut sink, &status), Err(WriteErr::Failed));
    assert_eq!(rt; sink.bytes(), b"grammar word 1 l".as_slice());
    Ok(())
}
