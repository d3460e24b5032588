ghost use Rattle.std.specs.Prelude.{◌≤◌, length};

use crate::{GrammarErr, Token, put_grammar, read_grammar, shape, tokens};
use outside::{MemSink, SafeSink, WriteErr};
use std::alloc::{AllocError, Global};
use std::process::Abort;
use std::test::Fail;
use tier_core::Shape;

const BASE: &[u8] = b"otp 1\ntier A input\ntier a overt\n";

// That these bytes are those that are due, told with the text at hand.
fn expect(rt: &impl Abort, found: &[u8], due: &[u8], text: &[u8]) {
    assert_eq!(rt; found, due, "{text:?}");
}

// Adds a cell of a table, in which a dollar stands for a line feed.
fn push_cell(text: &mut Vec<u8>, cell: &[u8]) -> Result<(), AllocError> {
    for byte in cell {
        text.push(if *byte == b'$' { b'\n' } else { *byte })?;
    }
    Ok(())
}

// The line and the cause of the refusal of a text, as in `4 BadByte`.
fn refusal_of(alloc: Global, text: &[u8]) -> Result<String, AllocError> {
    if text.len() > 65536 {
        return String::from_str(alloc, "too long");
    }
    match read_grammar(alloc, text) {
        Ok(_) => String::from_str(alloc, "none"),
        Err(GrammarErr::NoMemory) => Err(AllocError),
        Err(GrammarErr::At { line, cause }) => format!(in alloc; "{line} {cause:?}"),
    }
}

// Rows of a refusal and the texts that get it, with a bar between any two.
const REFUSED: &[u8] = b"1 BadHeader||$ $\t$|; otp 1|otp 2|otp 1 1|otp1|tier A input$otp 1
3 BadHeader|$$otp 2
2 BadByte|; one$!$otp 2
1 BadByte|otp\r 1
14 TooManyTiers|otp 1$tier A input$tier B input$tier C input$tier D input$tier E input$tier a overt$tier b overt$tier c overt$tier d overt$tier e overt$tier f overt$tier g overt$tier h overt
8 TooManyTiers|otp 1$tier A input$tier B input$tier C input$tier D input$tier E input$tier F input$tier G input
10 TooManyTiers|otp 1$tier a overt$tier b hidden$tier c overt$tier d hidden$tier e overt$tier f hidden$tier g overt$tier h hidden$tier i hidden
0 NoInput|otp 1|otp 1$tier a overt
0 NoOvert|otp 1$tier A input$|otp 1$tier A input$tier a hidden";

// The same for what follows the base in each text.
const REFUSED_BEHIND: &[u8] =
    b"4 BadByte|constraint X A - a|constraint X A -> a !|- ;|>|constraint X A ->> a|tier b\rhidden|tier b hidden\r $|tier and \xc3\xa9
5 BadByte|tier b hidden$\x00$tier b hidden
4 BadLine|otp 1|rule b|tier b|tier b Input|tier b input overt|tier [ b input|letter t = |letter = A|letter t A|letter t = [ A|constraint|constraint X|constraint X A|constraint X -> a|constraint X A ->|constraint X A -> a or|constraint X A and -> a|constraint X and -> a|constraint X [and -> a|constraint X A or A -> a|constraint X A -> a and a|constraint X A # a or a|constraint X A # a # a|constraint X A -> a # a|constraint X [ -> a|constraint X [[A -> a|constraint X A A -> a|constraint and b ->
4 BadName|constraint and b -> c|tier and hidden|tier or overt|tier 9b overt|tier _b overt|tier abcdefghijklmnopqrstuvwxyzabcdefg hidden|letter tt = A|letter _ = A|letter t = and|letter t = 9 A A
4 TwiceNamed|tier a hidden|tier a hidden$constraint X b -> a|letter t = A A|letter t = b a b
5 TwiceNamed|letter t = A$letter t = b
6 TwiceNamed|constraint X A -> a$$constraint X b -> a
4 UnknownTier|constraint X b -> a|constraint X A -> b$tier b hidden|constraint X 9 -> a|letter t = B a|constraint X A -> b or a or a or a or a or a or a or a or a
4 NotInput|letter t = a|letter t = A a$tier A overt
4 TooManyEvents|constraint X A -> a or a or a or a or a or a or a or a or a|constraint X a and a and a and a and a and a and a and a and a # A
8 TooManyEvents|$$; note$  \t \r$constraint X A # a and a and a and a and a and a and a and a and a";

// The text of a cell that follows a base.
fn text_of(alloc: Global, base: &[u8], cell: &[u8]) -> Result<Vec<u8>, AllocError> {
    let mut text = Vec::from_slice(alloc, base)?;
    push_cell(&mut text, cell)?;
    Ok(text)
}

// Tries one text that is refused.
fn try_refusal(rt: &impl Abort, alloc: Global, text: &[u8], due: &[u8]) -> Result<(), AllocError> {
    expect(rt, refusal_of(alloc, text)?.as_bytes(), due, text);
    Ok(())
}

// Tries the text of one cell that follows a base.
fn try_cell(
    rt: &impl Abort,
    alloc: Global,
    base: &[u8],
    cell: &[u8],
    due: &[u8],
) -> Result<(), AllocError> {
    let text = text_of(alloc, base, cell)?;
    try_refusal(rt, alloc, &text, due)
}

// Tries one row, whose texts follow a base.
fn try_refused(rt: &impl Abort, alloc: Global, base: &[u8], row: &[u8]) -> Result<(), Fail> {
    let mut cells = row.split(|b| *b == b'|');
    let due = cells.next().ok_or("no cell")?;
    for cell in cells {
        try_cell(rt, alloc, base, cell, due)?;
    }
    Ok(())
}

// Tries rows of texts that follow a base.
fn try_rows(rt: &impl Abort, alloc: Global, base: &[u8], rows: &[u8]) -> Result<(), Fail> {
    for row in rows.split(|b| *b == b'\n') {
        try_refused(rt, alloc, base, row)?;
    }
    Ok(())
}

#[test]
fn refusals_have_their_causes(rt: HostRuntime) -> Result<(), Fail> {
    try_rows(&rt, rt.alloc(), b"", REFUSED)?;
    try_rows(&rt, rt.alloc(), BASE, REFUSED_BEHIND)
}

// Rows of a canonical text and texts that have it, with a bar between any two.
const READ: &[u8] =
    b"otp 1$tier A input$tier a overt$|otp 1$tier A input$tier a overt$|otp 1$tier A input$tier a overt|otp 1\r$tier A input\r$tier a overt\r|;\xff\x00;\r;$$\totp\t1 ; $ tier A input;tier$tier a overt
otp 1$tier A input$tier a overt$constraint Max A -> a$|otp 1$tier A input$tier  a overt ; surface$$constraint Max A->a
otp 1$tier A input$tier a overt$constraint X [A and ]a # A and a$constraint A a -> [A or ]A$|otp 1$tier A input$tier a overt$constraint X [ A and]a#A and a$constraint A a->[A or ] A
otp 1$tier x overt$tier V input$tier C input$letter t = V C$letter 0 = C$letter a = V$constraint One x # x$|otp 1$tier x overt$constraint One x # x$tier V input$tier C input$letter t=C V$letter 0 = C$letter a = V
otp 1$tier tier input$tier otp overt$letter l = tier$constraint constraint tier -> otp$|otp 1$tier tier input$tier otp overt$letter l = tier$constraint constraint tier -> otp
otp 1$tier A input$tier abcdefghijklmnopqrstuvwxyzabcdef overt$constraint a_1 A -> abcdefghijklmnopqrstuvwxyzabcdef$|otp 1$tier A input$tier abcdefghijklmnopqrstuvwxyzabcdef overt$constraint a_1 A -> abcdefghijklmnopqrstuvwxyzabcdef
otp 1$tier A input$tier a overt$constraint X A -> a or a or a or a or a or a or a or a$constraint Y A -> a$|otp 1$tier A input$tier a overt$constraint X A -> a or a or a or a or a or a or a or a$constraint Y A -> a";

// The canonical text of a text.
fn canonical_of(alloc: Global, text: &[u8]) -> Result<SafeSink, Fail> {
    if text.len() > 65536 {
        return Err(Fail::new("too long"));
    }
    let mut sink = SafeSink::new(alloc);
    let grammar = read_grammar(alloc, text)?;
    put_grammar(&mut sink, &grammar)?;
    Ok(sink)
}

// Tries one text that is read.
fn try_canonical(rt: &impl Abort, alloc: Global, text: &[u8], due: &[u8]) -> Result<(), Fail> {
    expect(rt, canonical_of(alloc, text)?.bytes(), due, text);
    Ok(())
}

// Tries the text of one cell that is read.
fn try_read_cell(rt: &impl Abort, alloc: Global, cell: &[u8], due: &[u8]) -> Result<(), Fail> {
    let text = text_of(alloc, b"", cell)?;
    try_canonical(rt, alloc, &text, due)
}

// Tries each text of a row, of which the first is the canonical one.
fn try_texts(rt: &impl Abort, alloc: Global, row: &[u8], due: &[u8]) -> Result<(), Fail> {
    for cell in row.split(|b| *b == b'|') {
        try_read_cell(rt, alloc, cell, due)?;
    }
    Ok(())
}

// Tries one row of texts that are read.
fn try_read(rt: &impl Abort, alloc: Global, row: &[u8]) -> Result<(), Fail> {
    let first = row.split(|b| *b == b'|').next().ok_or("no cell")?;
    let due = text_of(alloc, b"", first)?;
    try_texts(rt, alloc, row, &due)
}

#[test]
fn texts_are_canonical(rt: HostRuntime) -> Result<(), Fail> {
    for row in READ.split(|b| *b == b'\n') {
        try_read(&rt, rt.alloc(), row)?;
    }
    Ok(())
}

const SYLLABLES: &[u8] = b"otp 1
tier C input
tier V input
tier c overt
tier v overt
tier S hidden
letter t = C
letter a = V
constraint MaxCl [C -> [c
constraint MaxCr ]C -> ]c
constraint MaxVl [V -> [v
constraint MaxVr ]V -> ]v
constraint DepCl [c -> [C
constraint DepCr ]c -> ]C
constraint DepVl [v -> [V
constraint DepVr ]v -> ]V
constraint ParseC c -> S
constraint ParseV v -> S
constraint Onset [S -> [c
constraint NoCoda ]S -> ]v
constraint NoInner ]v # S
";

#[test]
fn syllables_are_canonical(rt: HostRuntime) -> Result<(), Fail> {
    try_canonical(&rt, rt.alloc(), SYLLABLES, SYLLABLES)
}

// The width, the input tiers and the phases of a grammar's text.
fn shape_of(alloc: Global, text: &[u8]) -> Result<Shape, Fail>
    requires { length text.now ≤ 65536 }
{
    let grammar = read_grammar(alloc, text)?;
    shape(alloc, &grammar).map_err(|_| Fail::new("memory"))
}

fn shape_text(alloc: Global, shape: &Shape) -> Result<String, AllocError> {
    format!(in alloc; "{} {} {:?}", shape.width, shape.inputs, shape.phases)
}

#[test]
fn syllables_have_two_stretches(rt: HostRuntime) -> Result<(), Fail> {
    let shape = shape_of(rt.alloc(), SYLLABLES)?;
    let text = shape_text(rt.alloc(), &shape)?;
    let due = b"5 3 [0, 0, 0, 0, 0, 0, 0, 0, 0, 1, 2, 2, 2, 2]";
    expect(&rt, text.as_bytes(), due, SYLLABLES);
    Ok(())
}

// Adds a line, in which a question mark stands for this letter, and an underscore for what follows the
// first letter in a name of 32 bytes.
fn push_line(text: &mut Vec<u8>, line: &[u8], letter: u8) -> Result<(), AllocError> {
    for byte in line {
        match *byte {
            b'?' => text.push(letter)?,
            b'_' => text.extend_from_slice(b"_234567890123456789012345678901")?,
            other => text.push(other)?,
        }
    }
    Ok(())
}

// Adds such a line for each letter from the first on that is before the last.
fn push_lines(text: &mut Vec<u8>, line: &[u8], first: u8, last: u8) -> Result<(), AllocError> {
    for letter in first..last {
        push_line(text, line, letter)?;
    }
    Ok(())
}

// A text at every limit at once, whose constraints are named by the letters before the last.
fn greatest_text(alloc: Global, last: u8) -> Result<Vec<u8>, AllocError> {
    let mut text = Vec::from_slice(alloc, b"otp 1\n")?;
    push_lines(&mut text, b"tier ?_ input\n", b'a', b'g')?;
    push_lines(&mut text, b"tier ?_ overt\n", b'g', b'm')?;
    push_lines(&mut text, b"letter ? = a_ b_ c_ d_ e_ f_\n", b'a', b'{')?;
    push_lines(&mut text, CONSTRAINT, b'A', last)?;
    Ok(text)
}

const CONSTRAINT: &[u8] =
    b"constraint ?_ [a_ and [b_ and [c_ and [d_ and [e_ and [f_ and [g_ and [h_ -> ]a_ or ]b_ or ]c_ or ]d_ or ]e_ or ]f_ or ]g_ or ]h_\n";

#[test]
fn every_limit_at_once(rt: HostRuntime) -> Result<(), Fail> {
    let text = greatest_text(rt.alloc(), b'Y')?;
    try_canonical(&rt, rt.alloc(), &text, &text)
}

#[test]
fn one_constraint_past_the_limit(rt: HostRuntime) -> Result<(), Fail> {
    let text = greatest_text(rt.alloc(), b'Z')?;
    try_refusal(&rt, rt.alloc(), &text, b"64 TooManyConstraints")?;
    Ok(())
}

// Where each token begins, its line, and its text.
const TOKENS: &[u8] = b"0 1 a
5 2 [
6 2 bc
8 2 ->
11 2 =
12 2 1
13 2 #
14 2 ]
";

// Adds the line of a token.
fn push_token(alloc: Global, text: &mut Vec<u8>, token: Token<'_>) -> Result<(), AllocError> {
    let place = format!(in alloc; "{} {} ", token.at, token.line)?;
    text.extend_from_slice(place.as_bytes())?;
    text.extend_from_slice(token.text)?;
    text.extend_from_slice(b"\n")
}

// The lines of the tokens of a source.
fn tokens_of(alloc: Global, source: &[u8]) -> Result<Vec<u8>, AllocError>
    requires { length source.now ≤ 65536 }
{
    let mut text = Vec::new(alloc);
    for token in tokens(source) {
        push_token(alloc, &mut text, token)?;
    }
    Ok(text)
}

#[test]
fn tokens_borrow_their_source(rt: HostRuntime) -> Result<(), Fail> {
    let source = b"a ;x\n[bc->\t=1#]!d";
    expect(&rt, &tokens_of(rt.alloc(), source)?, TOKENS, source);
    Ok(())
}

// Writes the canonical text of the base to a sink that fails.
fn put_base(rt: &impl Abort, alloc: Global, sink: &mut MemSink) -> Result<(), Fail> {
    let grammar = read_grammar(alloc, BASE)?;
    assert_eq!(rt; put_grammar(sink, &grammar), Err(WriteErr::Failed));
    Ok(())
}

#[test]
fn a_failing_sink_has_a_front(rt: HostRuntime) -> Result<(), Fail> {
    let mut sink = MemSink::new(rt.alloc(), 16, [2].to_vec(rt.alloc())?);
    put_base(&rt, rt.alloc(), &mut sink)?;
    expect(&rt, sink.bytes(), &BASE[..16], BASE);
    Ok(())
}
