ghost use Rattle.std.specs.Prelude.{◌≡◌, ◌≤◌, length, IfOk};
ghost use Rattle.tier_core.specs.Shapes.{NeverFalls};

use crate::{AnswerCause, AnswerErr, read_answer};
use std::alloc::{AllocError, Global};
use std::process::Abort;
use std::test::Fail;
use tier_core::Shape;

// An input tier and a free one, with this many stretch implications at each stage.
fn two_tiers(alloc: Global, phases: &[u32]) -> Result<Shape, AllocError>
    requires some { 1 ≤ length phases.now }
    requires few { length phases.now ≤ 25 }
    requires rising { NeverFalls phases.now }
    ensures { IfOk result (λ shape. length shape.phases.items ≡ length phases.now) }
{
    let phases = Vec::from_slice(alloc, phases)?;
    Ok(Shape {
        width: 2,
        inputs: 1,
        phases,
    })
}

// The answer for a form of one constituent under a clash and two stretch implications.
const ANSWER: &[u8] = b"answer 1
form [ ]
counts 0 1 0
example [- ]-
stage 0 6
node 0/-/ 0
node 0/+/ 0
node 1/-/ 0
node 1/+/ 0
node 2/-/ 0
node 2/+/ 0
stage 1 6
node 0/-/ 0
node 0/+/ 1
node 1/-/ 0
node 1/+/ 1
node 2/-/ 0
node 2/+/ 1
stage 2 3
node 0/-/. 1
node 1/-/u 1
node 2/-/. 0
stage 3 3
node 0/-/.. 0
node 1/-/u. 0
node 2/-/.. 0
automaton 3
state 0
arc 1 [-
state 1
arc 2 ]-
state 2 final
end";

// The text of the answer, with another line in place of the one with this number. In that line a dollar
// stands for a line feed.
fn altered(alloc: Global, number: usize, line: &[u8]) -> Result<Vec<u8>, AllocError> {
    let mut text = Vec::new(alloc);
    for (place, each) in ANSWER.split(|b| *b == b'\n').enumerate() {
        if place.wrapping_add(1) == number {
            push_cell(&mut text, line)?;
        } else {
            text.extend_from_slice(each)?;
        }
        text.push(b'\n')?;
    }
    Ok(text)
}

fn push_cell(text: &mut Vec<u8>, cell: &[u8]) -> Result<(), AllocError> {
    for byte in cell {
        text.push(if *byte == b'$' { b'\n' } else { *byte })?;
    }
    Ok(())
}

// The number with which a row begins.
fn number_of(row: &[u8]) -> usize {
    let mut number: usize = 0;
    for byte in row {
        if !byte.is_ascii_digit() {
            return number;
        }
        number = number
            .wrapping_mul(10)
            .wrapping_add((*byte).wrapping_sub(b'0') as usize);
    }
    number
}

// The first cause of a text and its line, as in `line 3 BadLine`, or `none`.
fn refusal(alloc: Global, shape: &Shape, text: &[u8]) -> Result<String, AllocError>
    requires { length text.now ≤ 268435456 }
{
    match read_answer(alloc, shape, text) {
        Ok(_) => String::from_str(alloc, "none"),
        Err(AnswerErr::NoMemory) => Err(AllocError),
        Err(AnswerErr::At { line, cause }) => format!(in alloc; "line {line} {cause:?}"),
    }
}

// The number of a line of the answer, the refusal if that line is altered, and what it becomes, with a
// semicolon between any two.
const ALTERED: &[u8] = b"1: line 1 BadHeader;answer 2;answer 1 ;;form [ ]
2: line 2 BadLine;form;form ;form ];form [- ]-;form  [ ];form [ \xff
2: line 8 BadNumber;form empty
3: line 3 BadLine;counts 0 1;counts;counts 0 1 0 0;counts 0 1 ;counts 0  1 0;counts 0 x 00;counts 00 1
3: line 3 BadNumber;counts 0 01 0;counts 0 1 1000000001;counts 4294967296 1 0
4: line 4 BadLine;example [- ];example [ ];example 
5: line 5 BadLine;automaton 0;stage 0;stage 0 6 ;stage 1 x
5: line 5 BadNumber;stage 1 6;stage 00 6;stage 0 06;stage 0 65537;stage 0 99999999999
5: line 11 BadLine;stage 0 5
5: line 12 BadLine;stage 0 7
6: line 6 BadLine;node 0/-/0;node 0/--/ 0;node 0/x/ 00
6: line 6 BadNumber;node 00/-/ 0;node 0/-/ 1000000001;node 3/-/ 0
9: line 9 BadOrder;node 1/-/ 0;node 0/+/ 0
9: line 9 BadNumber;node 0/+/ 00;node 3/-/ 0
20: line 20 BadLine;node 0/-/ 1;node 0/-/.. 1;node 0/-/x 1;node 0/-/- 1
21: line 21 BadOrder;node 0/-/. 1
23: line 23 BadNumber;stage 2 3;stage 4 3
26: line 26 BadNumber;node 3/-/.. 0
26: line 26 BadOrder;node 1/-/.u 0
26: line 26 BadLine;node 2/-/..  0
27: line 27 BadNumber;stage 4 0;automaton 4;automaton 03
27: line 27 BadLine;automaton;node 2/+/.. 0
27: line 32 BadLine;automaton 2
28: line 28 BadLine;arc 1 [-;state 0 final final;state 0 
28: line 28 BadNumber;state 3;state 00 final
28: line 30 BadOrder;state 1
29: line 29 BadNumber;arc 3 [-;arc 01 [x;arc 3 [x
29: line 29 BadLine;arc 1
29: line 29 BadClass;arc 1 ;arc 1 {}-;arc 1 {-}[;arc 1 {[-}-;arc 1 [ -;arc 1 [;arc 1 [--;arc 1 \xff-
30: line 30 BadOrder;state 0;arc 1 [-;arc 0 [-
30: line 30 BadClass;arc 0 [x
32: line 32 BadOrder;state 1 final
32: line 32 BadNumber;state 3 final;state 02
32: line 32 BadLine;end
33: line 33 BadLine;end ;state 2
33: line 34 CutShort;arc 2 ||
33: line 34 ExtraBytes;end$;end$end;end$\xff
0: none;
3: none;counts 1000000000 1 0
2: none;form [ | ]
4: none;example empty
6: none;node 0/-/ 1000000000
22: none;node 2/-/m 0
26: none;node 2/+/mm 0
28: none;state 0 final
29: none;arc 0 {-+[]|}{[|}
32: none;state 2
33: none;arc 0 ||$end";

// Tries the texts of one row.
fn try_altered(rt: &impl Abort, alloc: Global, shape: &Shape, row: &[u8]) -> Result<(), Fail> {
    let number = number_of(row);
    let mut cells = row.split(|b| *b == b';');
    let due = cells.next().ok_or("no cell")?;
    for line in cells {
        let text = altered(alloc, number, line)?;
        assert!(rt; text.as_slice().len() < 10_000);
        let refusal = refusal(alloc, shape, &text)?;
        let found = format!(in alloc; "{number}: {refusal}")?;
        assert_eq!(rt; found.as_bytes(), due, "{line:?}");
    }
    Ok(())
}

#[test]
fn each_altered_line_has_its_first_cause(rt: HostRuntime) -> Result<(), Fail> {
    let shape = two_tiers(rt.alloc(), &[0, 0, 1, 2])?;
    for row in ALTERED.split(|b| *b == b'\n') {
        try_altered(&rt, rt.alloc(), &shape, row)?;
    }
    Ok(())
}

// Every proper prefix of the text is cut short, on the line that it ends in.
#[test]
fn a_text_that_is_cut_is_too_short(rt: HostRuntime) -> Result<(), Fail> {
    let alloc = rt.alloc();
    let shape = two_tiers(alloc, &[0, 0, 1, 2])?;
    let text = altered(alloc, 0, b"")?;
    assert!(rt; text.as_slice().len() < 10_000);
    let mut line: u32 = 1;
    for place in 0..text.len() {
        let cause = AnswerCause::CutShort;
        let refusal = read_answer(alloc, &shape, &text[..place]).err();
        assert_eq!(rt; refusal, Some(AnswerErr::At { line, cause }), "{place}");
        if text[place] == b'\n' {
            line = line.wrapping_add(1);
        }
    }
    Ok(())
}
