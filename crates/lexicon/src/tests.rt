use crate::{Entry, LexErr, read_lexicon};
use grammar_reader::{Grammar, read_grammar};
use outside::{SafeSink, put_all};
use std::alloc::{AllocError, Global};
use std::process::Abort;
use std::test::Fail;
use timeline_text::put_timeline;

/// One input tier with a letter, and one overt tier.
const BASE: &[u8] = b"otp 1\ntier A input\ntier a overt\nletter t = A\n";

fn grammar(alloc: Global) -> Result<Grammar, grammar_reader::GrammarErr> {
    read_grammar(alloc, BASE)
}

/// Adds a cell of a table, in which a dollar stands for a line feed.
fn push_cell(text: &mut Vec<u8>, cell: &[u8]) -> Result<(), AllocError> {
    for byte in cell {
        text.push(if *byte == b'$' { b'\n' } else { *byte })?;
    }
    Ok(())
}

/// Files, and the names and forms of their entries, with a tilde between the two.
const FILES: &str = "~
# nothing$~
title = \"none\"$[other]$entry = 1$~
entry = []~
[[entry]]$name = \"none\"$form = \"empty\"$$[[entry]]$name = \"one\"$form = \"[ ]\"$gloss = \"passed over\"$$[[entry]]$name = \"two\"$form = \"[ | ]\"$~none: empty$one: [ ]$two: [ | ]$
entry = [{ form = \"=tt\", name = \"spelled\" }, { name = \"=\", form = \"=\" }]~spelled: [ | ]$=: empty$
[[entry]]$form = '[ ]'$name = 'p\u{e4}t a'$~p\u{e4}t a: [ ]$
[[entry]]$name = \"One\"$form = \"empty\"$[[entry]]$name = \"one\"$form = \"empty\"$~One: empty$one: empty$";

/// The names and the forms of entries, each pair on a line.
fn listed(alloc: Global, entries: &[Entry]) -> Result<SafeSink, Fail> {
    let mut sink = SafeSink::new(alloc);
    for entry in entries {
        put_all(&mut sink, entry.name.as_bytes())?;
        put_all(&mut sink, b": ")?;
        put_timeline(&mut sink, &entry.form)?;
        put_all(&mut sink, b"\n")?;
    }
    Ok(sink)
}

#[test]
fn files_and_their_entries(rt: HostRuntime) -> Result<(), Fail> {
    let grammar = grammar(rt.alloc())?;
    for row in FILES.as_bytes().split(|b| *b == b'\n') {
        let mut cells = row.split(|b| *b == b'~');
        let mut file = Vec::new(rt.alloc());
        push_cell(&mut file, cells.next().ok_or("no file")?)?;
        let mut wanted = Vec::new(rt.alloc());
        push_cell(&mut wanted, cells.next().ok_or("no entries")?)?;
        let entries = read_lexicon(rt.alloc(), &grammar, &file)?;
        let found = listed(rt.alloc(), &entries)?;
        assert_eq!(rt; found.bytes(), wanted.as_slice(), "{row:?}");
    }
    Ok(())
}

/// The cause of a file's refusal, as in `BadEntry { index: 0 }`.
fn refusal(alloc: Global, grammar: &Grammar, file: &[u8]) -> Result<String, AllocError> {
    match read_lexicon(alloc, grammar, file) {
        Ok(_) => String::from_str(alloc, "none"),
        Err(cause) => format!(in alloc; "{cause:?}"),
    }
}

/// Causes, and the files that have them, with a tilde between any two.
const REFUSED: &[u8] = b"NotToml~x = ~\xff~# \xc3~[[entry]$~entry = 1$entry = []$
BadEntry { index: 0 }~entry = 1~entry = \"empty\"~[entry]$name = \"one\"$form = \"[ ]\"~entry.name = \"one\"$entry.form = \"[ ]\"~entry = [1, 2]
BadForm { index: 0, cause: NotWellFormed { tier: 0 } }~entry = [{ name = 'a', form = '[' }, 1]
TwiceNamed { index: 2 }~entry = [{ name = 'a', form = '=' }, { name = 'b', form = '=' }, { name = 'a', form = 'x' }, 1]";

/// An entry, and the head of another.
const FIRST: &[u8] = b"[[entry]]\nname = 'one'\nform = '[ ]'\n[[entry]]\n";

/// Causes, and what second entries say that have them.
const REFUSED_BEHIND: &[u8] =
    b"BadEntry { index: 1 }~form = 'empty'$~name = 'a'$~name = 'one'$~name = 1$form = 'empty'$~name = 'a'$form = []$~name = ''$form = 'empty'$~name = 'a\tb'$form = 'x'$~name = \"\\u007f\"$form = 'x'$~name = \"\\u001f\"$form = 'x'$
TwiceNamed { index: 1 }~name = 'one'$form = 'empty'$~name = 'one'$form = '['$~name = \"\\u006fne\"$form = '['$
BadForm { index: 1, cause: NotWellFormed { tier: 0 } }~name = 'a'$form = '['$
BadForm { index: 1, cause: NotReduced { column: 1 } }~name = 'a'$form = '[ + ]'$
BadForm { index: 1, cause: WrongWidth { column: 0 } }~name = 'a'$form = '[[ ]]'$~name = 'a'$form = ''$
BadForm { index: 1, cause: BadSymbol { at: 2 } }~name = 'a'$form = '[ x'$
BadForm { index: 1, cause: UnknownLetter { at: 2 } }~name = 'a'$form = '=tx'$";

/// Tries the files of a row, which begin with these bytes.
fn try_refused(rt: &impl Abort, alloc: Global, first: &[u8], row: &[u8]) -> Result<(), Fail> {
    let grammar = grammar(alloc)?;
    let mut cells = row.split(|b| *b == b'~');
    let due = cells.next().ok_or("no cause")?;
    for cell in cells {
        let mut file = Vec::from_slice(alloc, first)?;
        push_cell(&mut file, cell)?;
        let found = refusal(alloc, &grammar, &file)?;
        assert_eq!(rt; found.as_bytes(), due, "{cell:?}");
    }
    Ok(())
}

// The first entry with a cause gives it.
#[test]
fn files_and_their_causes(rt: HostRuntime) -> Result<(), Fail> {
    for row in REFUSED.split(|b| *b == b'\n') {
        try_refused(&rt, rt.alloc(), b"", row)?;
    }
    Ok(())
}

#[test]
fn second_entries_and_their_causes(rt: HostRuntime) -> Result<(), Fail> {
    for row in REFUSED_BEHIND.split(|b| *b == b'\n') {
        try_refused(&rt, rt.alloc(), FIRST, row)?;
    }
    Ok(())
}

/// A file of one entry whose name has so many bytes.
fn named(alloc: Global, len: u32) -> Result<String, AllocError> {
    let mut name = String::new(alloc);
    for _ in 0..len {
        name.push('n')?;
    }
    format!(in alloc; "[[entry]]\nname = '{name}'\nform = '='\n")
}

// A name of 64 bytes is read, and one of 65 is refused.
#[test]
fn names_of_sixty_four_bytes(rt: HostRuntime) -> Result<(), Fail> {
    let grammar = grammar(rt.alloc())?;
    for (len, due) in [(64, "none"), (65, "BadEntry { index: 0 }")] {
        let file = named(rt.alloc(), len)?;
        let found = refusal(rt.alloc(), &grammar, file.as_bytes())?;
        assert_eq!(rt; found.as_str(), due);
    }
    Ok(())
}

/// A lexicon of so many entries without columns.
fn many_entries(alloc: Global, count: u32) -> Result<String, AllocError> {
    let mut text = String::new(alloc);
    for number in 0..count {
        let entry = format!(in alloc; "[[entry]]\nname = \"{number}\"\nform = \"empty\"\n")?;
        text.push_str(&entry)?;
    }
    Ok(text)
}

// A thousand entries are read, and one more is too many, whatever they contain.
#[test]
fn a_thousand_entries(rt: HostRuntime) -> Result<(), Fail> {
    let grammar = grammar(rt.alloc())?;
    let file = many_entries(rt.alloc(), 1000)?;
    let entries = read_lexicon(rt.alloc(), &grammar, file.as_bytes())?;
    assert_eq!(rt; entries.len(), 1000);
    let mut more = String::from_str(rt.alloc(), "[[entry]]\n")?;
    more.push_str(&file)?;
    let read = read_lexicon(rt.alloc(), &grammar, more.as_bytes());
    assert_eq!(rt; read.err(), Some(LexErr::TooMany));
    Ok(())
}
