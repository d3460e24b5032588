ghost use Rattle.std.specs.Prelude.{◌≡◌, [], ◌∷◌, None, Some, codes};
ghost use Rattle.std.specs.Str.Lines.{lines};
ghost use Rattle.tableau.specs.Layout.{count_texts, laid_out, row_mark};
ghost use Rattle.tableau.specs.Rows.{filled_lines};

use super::*;
use grammar_reader::{Grammar, read_grammar};
use outside::{MemSink, SafeSink, WriteErr};
use std::alloc::{AllocError, Global};
use std::process::Abort;
use std::test::Fail;
use tier_core::Timeline;
use timeline_text::read_timeline;

// The lines of texts, and those that are not passed over, which are proved.
fn lines_of_texts()
    ensures returns { lines (codes "[- ]-\r\n\r\n-[ -]\r")
        ≡ codes "[- ]-" ∷ [] ∷ codes "-[ -]\r" ∷ [] }
    ensures last { lines (codes "[- ]-\n") ≡ codes "[- ]-" ∷ [] }
    ensures filled { filled_lines (lines (codes "\n  \n[- ]-\n x\n"))
        ≡ codes "[- ]-" ∷ codes " x" ∷ [] }
{}

// The text of a form and three rows, which is proved.
fn three_rows_laid_out()
    ensures { laid_out (
        record { mark = codes "  "; first = codes "[ ]"; texts = codes "Max" ∷ codes "Dep" ∷ codes "One" ∷ [] }
        ∷ record {
          mark = row_mark None;
          first = codes "[[ ]]";
          texts = count_texts None 0
              (0 ∷ 0 ∷ 1 ∷ []);
        }
        ∷ record {
          mark = row_mark (Some 0);
          first = codes "[- ]-";
          texts = count_texts (Some 0) 0
              (1 ∷ 0 ∷ 0 ∷ []);
        }
        ∷ record {
          mark = row_mark (Some 1);
          first = codes "-[ [| ]]";
          texts = count_texts
              (Some 1) 0 (0 ∷ 1 ∷ 2 ∷ []);
        } ∷ [])
        ≡ codes "  [ ]      Max Dep One\n> [[ ]]      0   0   1\n  [- ]-     1!   0   0\n  -[ [| ]]   0  1!   2\n" }
{}

#[test]
fn definitions_compute() {
    lines_of_texts();
    three_rows_laid_out();
}

/// An input tier A and an overt tier a, with three constraints.
const GRAMMAR: &[u8] = b"otp 1
tier A input
tier a overt
constraint Max A -> a
constraint Dep a -> A
constraint One a # a
";

fn grammar(alloc: Global) -> Result<Grammar, Fail> {
    let text = GRAMMAR;
    if text.len() > 65536 {
        return Err(Fail::new("the grammar is too long"));
    }
    match read_grammar(alloc, text) {
        Ok(grammar) => Ok(grammar),
        Err(_) => Err(Fail::new("no grammar")),
    }
}

/// How many rows a text gives for the form `[ ]`, as in `Ok(2)`, or its refusal.
fn rows(alloc: Global, text: &[u8]) -> Result<String, Fail> {
    let grammar = grammar(alloc)?;
    let form = read_timeline(alloc, 1, 64, b"[ ]")?;
    if text.len() > 4_194_304 {
        return Err(Fail::new("the rows are too long"));
    }
    let found = read_rows(alloc, &grammar, &form, text).map(|rows| rows.len());
    Ok(format!(in alloc; "{found:?}")?)
}

/// Adds a cell of a table, in which a dollar stands for a line feed.
fn push_cell(text: &mut Vec<u8>, cell: &[u8]) -> Result<(), AllocError> {
    for byte in cell {
        text.push(if *byte == b'$' { b'\n' } else { *byte })?;
    }
    Ok(())
}

/// How many rows, or the first cause, and texts of rows files that give it, with a tilde between any
/// two. Lines that are passed over are counted. A carriage return before a line feed is dropped, and
/// no other; otherwise a line is read as it stands.
const FILES: &[u8] = b"Ok(0)~
Ok(2)~[- ]-$-[ [| ]]$~[- ]-$-[ [| ]]~[- ]-\r$\r$[[ ]]\r$
Ok(1)~$  $[- ]-$$
Err(At { row: 3, cause: Form(WrongWidth { column: 1 }) })~$  $[- ]$
Err(At { row: 1, cause: Form(BadSymbol { at: 5 }) })~[- ]-\r~[- ]-\r\r$~[- ]-\t$
Err(At { row: 1, cause: Form(BadSymbol { at: 0 }) })~\r
Err(At { row: 1, cause: Form(WrongWidth { column: 0 }) })~ [- ]-$
Err(At { row: 2, cause: NotCandidate })~[- +[ ]]$-[ -]$
Err(At { row: 1, cause: NotCandidate })~-[ -]$[- +[ ]]$~empty$
Err(At { row: 2, cause: Form(BadSymbol { at: 0 }) })~[- ]-$x$-[ -]$
Err(At { row: 1, cause: Form(NotReduced { column: 1 }) })~[- +- ]-$";

/// Tries the texts of one row.
fn try_files(rt: &impl Abort, alloc: Global, row: &[u8]) -> Result<(), Fail> {
    let mut cells = row.split(|b| *b == b'~');
    let due = cells.next().ok_or("no cell")?;
    for cell in cells {
        let mut text = Vec::new(alloc);
        push_cell(&mut text, cell)?;
        let found = rows(alloc, &text)?;
        assert_eq!(rt; found.as_bytes(), due, "{cell:?}");
    }
    Ok(())
}

#[test]
fn rows_and_first_causes(rt: HostRuntime) -> Result<(), Fail> {
    for row in FILES.split(|b| *b == b'\n') {
        try_files(&rt, rt.alloc(), row)?;
    }
    Ok(())
}

// The 33rd row is one too many, whatever it says; lines that are passed over are not rows.
#[test]
fn thirty_two_rows(rt: HostRuntime) -> Result<(), Fail> {
    let mut text = Vec::new(rt.alloc());
    for _ in 0..32 {
        text.extend_from_slice(b"[- ]-\n\n")?;
    }
    assert_eq!(rt; rows(rt.alloc(), &text)?.as_str(), "Ok(32)");
    text.extend_from_slice(b"  \nx\n")?;
    let too_many = "Err(At { row: 66, cause: TooMany })";
    assert_eq!(rt; rows(rt.alloc(), &text)?.as_str(), too_many);
    Ok(())
}

// A row of 4,096 columns is read, and one of 4,097 is too long.
#[test]
fn four_thousand_and_ninety_six_columns(rt: HostRuntime) -> Result<(), Fail> {
    let mut text = Vec::new(rt.alloc());
    text.extend_from_slice(b"[- ]-")?;
    for _ in 0..2047 {
        text.extend_from_slice(b" -[ -]")?;
    }
    assert_eq!(rt; rows(rt.alloc(), &text)?.as_str(), "Ok(1)");
    text.truncate(4095 * 3 - 1);
    text.extend_from_slice(b" -| -]")?;
    let too_long = "Err(At { row: 1, cause: Form(TooLong) })";
    assert_eq!(rt; rows(rt.alloc(), &text)?.as_str(), too_long);
    Ok(())
}

/// A row with these counts.
fn row(
    alloc: Global,
    timeline: &[u8],
    counts: &[u32],
    worse: Option<u32>,
) -> Result<TableauRow, Fail> {
    let timeline = read_timeline(alloc, 2, 4096, timeline)?;
    let counts = Vec::from_slice(alloc, counts)?;
    Ok(TableauRow {
        timeline,
        counts,
        worse,
    })
}

fn names(alloc: Global, names: &[&str]) -> Result<Vec<String>, AllocError> {
    let mut list = Vec::new(alloc);
    for name in names {
        list.push(String::from_str(alloc, name)?)?;
    }
    Ok(list)
}

fn three_rows(alloc: Global) -> Result<Tableau, Fail> {
    Ok(Tableau {
        form: read_timeline(alloc, 1, 64, b"[ ]")?,
        names: names(alloc, &["Max", "Dep", "One"])?,
        rows: vec![in alloc;
            row(alloc, b"[[ ]]", &[0, 0, 1], None)?,
            row(alloc, b"[- ]-", &[1, 0, 0], Some(0))?,
            row(alloc, b"-[ [| ]]", &[0, 1, 2], Some(1))?,
        ]?,
    })
}

const THREE_ROWS: &[u8] = b"  [ ]      Max Dep One
> [[ ]]      0   0   1
  [- ]-     1!   0   0
  -[ [| ]]   0  1!   2
";

#[test]
fn three_rows_are_laid_out(rt: HostRuntime) -> Result<(), Fail> {
    let mut sink = SafeSink::new(rt.alloc());
    put_tableau(&mut sink, &three_rows(rt.alloc())?)?;
    assert_eq!(rt; sink.bytes(), THREE_ROWS);
    Ok(())
}

/// Whether a tableau is laid out as this text.
fn has_text(alloc: Global, tableau: &Tableau, text: &str) -> Result<bool, Fail> {
    let mut sink = SafeSink::new(alloc);
    put_tableau(&mut sink, tableau)?;
    Ok(sink.bytes() == text.as_bytes())
}

// Fields are as wide as the widest text, be it the form, a name or a count with its mark.
#[test]
fn fields_are_as_wide_as_a_count_with_its_mark(rt: HostRuntime) -> Result<(), Fail> {
    let alloc = rt.alloc();
    let tableau = Tableau {
        form: read_timeline(alloc, 1, 64, b"[ | ]")?,
        names: names(alloc, &["A", "B"])?,
        rows: vec![in alloc; row(alloc, b"empty", &[12, 4_294_967_295], Some(1))?]?,
    };
    let text = "  [ | ]  A           B\n  empty 12 4294967295!\n";
    assert!(rt; has_text(alloc, &tableau, text)?);
    Ok(())
}

#[test]
fn fields_are_as_wide_as_a_form(rt: HostRuntime) -> Result<(), Fail> {
    let alloc = rt.alloc();
    let tableau = Tableau {
        form: Timeline::new(alloc),
        names: Vec::new(alloc),
        rows: vec![in alloc; row(alloc, b"-[ -| -]", &[], None)?]?,
    };
    assert!(rt; has_text(alloc, &tableau, "  empty   \n> -[ -| -]\n")?);
    Ok(())
}

#[test]
fn fields_are_as_wide_as_a_name(rt: HostRuntime) -> Result<(), Fail> {
    let alloc = rt.alloc();
    let tableau = Tableau {
        form: Timeline::new(alloc),
        names: names(alloc, &["Name"])?,
        rows: Vec::new(alloc),
    };
    assert!(rt; has_text(alloc, &tableau, "  empty Name\n")?);
    Ok(())
}

#[test]
fn a_failing_write_leaves_a_front(rt: HostRuntime) -> Result<(), Fail> {
    let alloc = rt.alloc();
    let tableau = three_rows(alloc)?;
    let mut sink = MemSink::new(alloc, 16, vec![in alloc; 3]?);
    assert_eq!(rt; put_tableau(&mut sink, &tableau), Err(WriteErr::Failed));
    assert_eq!(rt; sink.bytes(), &THREE_ROWS[..32]);
    Ok(())
}
