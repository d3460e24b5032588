use crate::{FormErr, Letter, put_timeline, read_spelled, read_timeline};
use outside::{MemSink, SafeSink, WriteErr, put_all};
use std::alloc::{AllocError, Global};
use std::process::Abort;
use std::test::Fail;

// The bytes of a cell of a table, in which a dollar stands for a line feed.
fn cell(alloc: Global, cell: &[u8]) -> Result<Vec<u8>, AllocError> {
    let mut text = Vec::new(alloc);
    for byte in cell {
        text.push(if *byte == b'$' { b'\n' } else { *byte })?;
    }
    Ok(text)
}

fn number(digits: &[u8]) -> u32 {
    let mut number: u32 = 0;
    for byte in digits {
        number = number
            .wrapping_mul(10)
            .wrapping_add(u32::from(byte.wrapping_sub(b'0')));
    }
    number
}

// How many columns a text has, or its cause.
fn told(alloc: Global, width: u32, limit: u32, text: &[u8]) -> Result<String, Fail> {
    if width < 1 || width > 12 {
        return Err(Fail::new("no width"));
    }
    match read_timeline(alloc, width, limit as usize, text) {
        Ok(timeline) => Ok(format!(in alloc; "{}", timeline.len())?),
        Err(cause) => Ok(format!(in alloc; "{cause:?}")?),
    }
}

// Tries rows of a number of tiers, a limit, a text, and how many columns it has or its cause.
fn try_texts(rt: &impl Abort, alloc: Global, rows: &[u8]) -> Result<(), Fail> {
    for row in rows.split(|b| *b == b'\n') {
        let mut cells = row.split(|b| *b == b';');
        let width = number(cells.next().ok_or("no width")?);
        let limit = number(cells.next().ok_or("no limit")?);
        let text = cell(alloc, cells.next().ok_or("no text")?)?;
        let found = told(alloc, width, limit, &text)?;
        assert_eq!(rt;
            found.as_bytes(),
            cells.next().ok_or("no answer")?,
            "{row:?}"
        );
    }
    Ok(())
}

const READ: &[u8] = b"1;64;empty;0
12;0;empty;0
1;64;[ ];2
1;2;[ ];2
1;64;[ | ];3
1;64;[ ] [ ];4
1;64;[ | | ] [ ];6
2;64;[[ ]];2
2;64;[- ]-;2
2;64;-[ [+ ]];3
2;64;[- +[ +] ]-;4
2;64;-[ -];2
5;64;[-[-[ ][][+ [][]| ][][+ -]-]];5
12;64;[[[[[[[[[[[[ ]]]]]]]]]]]];2";

#[test]
fn texts_that_are_read(rt: HostRuntime) -> Result<(), Fail> {
    try_texts(&rt, rt.alloc(), READ)
}

// A text that is read is written again.
#[test]
fn texts_that_are_written_again(rt: HostRuntime) -> Result<(), Fail> {
    for row in READ.split(|b| *b == b'\n') {
        let mut cells = row.split(|b| *b == b';');
        let width = number(cells.next().ok_or("no width")?);
        assert!(rt; 1 <= width && width <= 12);
        let limit = number(cells.next().ok_or("no limit")?) as usize;
        let text = cells.next().ok_or("no text")?;
        let timeline = read_timeline(rt.alloc(), width, limit, text)?;
        let mut sink = SafeSink::new(rt.alloc());
        put_timeline(&mut sink, &timeline)?;
        assert_eq!(rt; sink.bytes(), text);
    }
    Ok(())
}

// A byte that is not a symbol, before all other causes.
const NO_SYMBOLS: &[u8] = b"1;64;[ x;BadSymbol { at: 2 }
1;64;x;BadSymbol { at: 0 }
1;64;[ ]$;BadSymbol { at: 3 }
1;64;[\t];BadSymbol { at: 1 }
1;64;empty ;BadSymbol { at: 0 }
1;64;Empty;BadSymbol { at: 0 }
1;64;=t;BadSymbol { at: 0 }
1;64;[ ]]\x00;BadSymbol { at: 4 }
1;1;] [ + x y;BadSymbol { at: 6 }
3;64;[ \xff;BadSymbol { at: 2 }";

// A piece of another width, before the causes that follow.
const WIDTHS: &[u8] = b"1;64;;WrongWidth { column: 0 }
1;64;[[ ]];WrongWidth { column: 0 }
2;64;[ ];WrongWidth { column: 0 }
1;64;[ ]];WrongWidth { column: 1 }
1;64;[  ];WrongWidth { column: 1 }
1;64; [ ];WrongWidth { column: 0 }
1;64;[ ] ;WrongWidth { column: 2 }
1;64; ;WrongWidth { column: 0 }
2;1;]] [[ -;WrongWidth { column: 2 }
1;1;[ ] [[ ]];WrongWidth { column: 2 }";

// Too many columns, before the causes that follow.
const LONG: &[u8] = b"1;1;[ ];TooLong
1;0;[;TooLong
1;2;] + [;TooLong";

// A tier that is not well formed, before a column without an edge.
const BROKEN: &[u8] = b"1;64;] [;NotWellFormed { tier: 0 }
1;64;[;NotWellFormed { tier: 0 }
1;64;[ - ];NotWellFormed { tier: 0 }
1;64;[ [ ];NotWellFormed { tier: 0 }
1;64;+ |;NotWellFormed { tier: 0 }
2;64;[- ]+;NotWellFormed { tier: 1 }
2;64;-- [|;NotWellFormed { tier: 0 }
3;64;[-[ +[+ ]+];NotWellFormed { tier: 1 }";

// A column without an edge.
const STILL: &[u8] = b"1;64;[ + ];NotReduced { column: 1 }
1;64;-;NotReduced { column: 0 }
2;64;[- ]- -- --;NotReduced { column: 2 }";

#[test]
fn texts_that_are_refused(rt: HostRuntime) -> Result<(), Fail> {
    try_texts(&rt, rt.alloc(), NO_SYMBOLS)?;
    try_texts(&rt, rt.alloc(), WIDTHS)?;
    try_texts(&rt, rt.alloc(), LONG)?;
    try_texts(&rt, rt.alloc(), BROKEN)?;
    try_texts(&rt, rt.alloc(), STILL)
}

// A form of 64 columns is read, and one of 65 is too long.
#[test]
fn sixty_four_columns(rt: HostRuntime) -> Result<(), Fail> {
    let mut text = Vec::new(rt.alloc());
    text.push(b'[')?;
    for _ in 0..62 {
        text.extend_from_slice(b" |")?;
    }
    text.extend_from_slice(b" ]")?;
    let read = read_timeline(rt.alloc(), 1, 64, &text).map(|timeline| timeline.len());
    assert_eq!(rt; read, Ok(64));
    text.truncate(125);
    text.extend_from_slice(b" | ]")?;
    let read = read_timeline(rt.alloc(), 1, 64, &text).map(|timeline| timeline.len());
    assert_eq!(rt; read, Err(FormErr::TooLong));
    Ok(())
}

const LETTERS: [Letter; 3] = [
    Letter {
        byte: b't',
        tiers: 1,
    },
    Letter {
        byte: b'a',
        tiers: 2,
    },
    Letter {
        byte: b'b',
        tiers: 3,
    },
];

// Words of letters: the form that each spells, or its cause.
const SPELLED: &[u8] = b"=;empty
=t;[- ]-
=b;[[ ]]
=tat;[- ][ [] ]-
=tata;[- ][ [] ][ -]
=tt;[- |- ]-
=tba;[- |[ ]| -]
=x;UnknownLetter { at: 1 }
=tax;UnknownLetter { at: 3 }
==;UnknownLetter { at: 1 }
=t a;UnknownLetter { at: 2 }";

// The form that a word spells, or its cause.
fn spelled(alloc: Global, word: &[u8]) -> Result<SafeSink, Fail> {
    if !word.starts_with(b"=") {
        return Err(Fail::new("no word"));
    }
    let mut sink = SafeSink::new(alloc);
    match read_spelled(alloc, &LETTERS, 2, word) {
        Ok(timeline) => put_timeline(&mut sink, &timeline)?,
        Err(cause) => put_all(&mut sink, format!(in alloc; "{cause:?}")?.as_bytes())?,
    }
    Ok(sink)
}

#[test]
fn words_and_their_forms(rt: HostRuntime) -> Result<(), Fail> {
    for row in SPELLED.split(|b| *b == b'\n') {
        let mut cells = row.split(|b| *b == b';');
        let word = cells.next().ok_or("no word")?;
        let found = spelled(rt.alloc(), word)?;
        assert_eq!(rt; found.bytes(), cells.next().ok_or("no form")?, "{word:?}");
    }
    Ok(())
}

// A sink that fails at its second write has taken a prefix of the text.
#[test]
fn a_failing_sink_has_a_front(rt: HostRuntime) -> Result<(), Fail> {
    let text = b"[[ ||";
    let timeline = read_timeline(rt.alloc(), 2, 64, b"[[ || || ]]")?;
    let mut sink = MemSink::new(rt.alloc(), 5, [2].to_vec(rt.alloc())?);
    assert_eq!(rt; put_timeline(&mut sink, &timeline), Err(WriteErr::Failed));
    assert_eq!(rt; sink.bytes(), text.as_slice());
    Ok(())
}
