//! The moves of several frames, compared along all short words of columns with a plain reading.
ghost use Rattle.std.specs.Prelude.{◌≡◌, ◌≤◌, IfOk, length};
ghost use Rattle.tier_core.specs.Tables.{tiers_of_table};
ghost use Rattle.violation.specs.Candidates.{IsForm};
ghost use Rattle.kind_moves.specs.Frames.{constraints_in};
ghost use Rattle.violation.specs.Problems.{last_stage};
ghost use Rattle.kind_moves.specs.Frames.{problem_in};

mod parted;
mod plain;

use crate::Frame;
use grammar_reader::{Grammar, read_grammar};
use std::alloc::Global;
use std::test::Fail;
use tier_core::{Column, Kind, Sym, Timeline};
use timeline_text::read_timeline;

fn read_form(alloc: Global, grammar: &Grammar, text: &[u8]) -> Result<Timeline, Fail>
    ensures form { IfOk result (IsForm (tiers_of_table grammar.now.tiers)) }
    ensures short { IfOk result (λ form. length form ≤ 64) }
{
    let inputs = grammar.tiers.input_count();
    if inputs == 0 || inputs > 12 {
        return Err(Fail::new("no inputs"));
    }
    match read_timeline(alloc, inputs as u32, 64, text) {
        Ok(form) => Ok(form),
        Err(_) => Err(Fail::new("no form")),
    }
}

/// The column of a number: a digit to base 5 for each tier, the first the lowest.
fn column_of(alloc: Global, width: usize, number: u32) -> Column
    requires some { 1 ≤ width }
    requires few { width ≤ 12 }
    ensures { length result ≡ width }
{
    let mut syms = [Sym::Outside; 12];
    let mut rest = number;
    for sym in syms.iter_mut() {
        *sym = match rest % 5 {
            0 => Sym::Outside,
            1 => Sym::Inside,
            2 => Sym::Start,
            3 => Sym::End,
            _ => Sym::Both,
        };
        rest /= 5;
    }
    Column::from_syms(alloc, &syms[..width])
}

/// Whether a kind is that of the plain reading of some columns.
fn is_plain(frame: &Frame<'_>, stage: u32, kind: &Kind, columns: &[Column]) -> bool {
    let kinds = frame.grammar.tiers.kinds.as_slice();
    let (unmet, met) = plain::phases(
        frame.grammar.constraints.as_slice(),
        stage as usize,
        columns,
    );
    kind.place as usize == plain::place_of(kinds, columns)
        && kind.opened == plain::opened(kinds, columns)
        && kind.unmet == unmet
        && kind.met == met
}

/// Whether the moves along the columns that are the digits of a number to base `per` agree with the
/// plain reading: in each kind, and in which column is the first without a move. The pieces at a kind
/// are compared too if all later digits are 0, so once for each word.
fn agrees(
    alloc: Global,
    frame: &Frame<'_>,
    stage: u32,
    number: u32,
    columns: u32,
    per: u32,
) -> Result<bool, Fail>
    requires stage { stage ≤ last_stage (problem_in frame.now) }
    requires per { 1 ≤ per }
{
    let kinds = frame.grammar.tiers.kinds.as_slice();
    let mut seen = Timeline::new(alloc);
    let mut kind = frame.start();
    let mut rest = number;
    for place in 0..columns {
        if !is_plain(frame, stage, &kind, seen.columns()) {
            return Ok(false);
        }
        if rest == 0 && !parted::agree(alloc, frame, stage, stage, &kind, per)? {
            return Ok(false);
        }
        let column = column_of(alloc, kinds.len(), rest % per);
        rest /= per;
        let before = seen.len();
        if seen.push(column.copy(alloc)).is_err() {
            return Err(Fail::new("no memory"));
        }
        let (front, _) = seen.columns().split_at(before);
        let follows = plain::may_follow(kinds, frame.form.columns(), front, seen.columns());
        match frame.moved(stage, &kind, &column) {
            Some(next) => {
                if !follows {
                    return Ok(false);
                }
                kind = next;
            }
            None => return Ok(!follows),
        }
    }
    Ok(true)
}

/// A case: a grammar and a form, how many columns its tiers have, how many columns each word has,
/// and how many words there are.
#[derive(Clone, Copy)]
struct Case {
    grammar: &'static [u8],
    form: &'static [u8],
    per: u32,
    columns: u32,
    words: u32,
}

/// Whether the moves along all words of a case agree with the plain reading, at each stage.
fn all_agree(alloc: Global, case: &Case) -> Result<bool, Fail>
    requires { 1 ≤ case.now.per }
{
    if case.grammar.len() > 65_536 {
        return Err(Fail::new("long grammar"));
    }
    let Ok(grammar) = read_grammar(alloc, case.grammar) else {
        return Err(Fail::new("no grammar"));
    };
    let form = read_form(alloc, &grammar, case.form)?;
    let Ok(frame) = Frame::new(alloc, &grammar, &form) else {
        return Err(Fail::new("no memory"));
    };
    for stage in 0..grammar.constraints.as_slice().len() as u32 + 1 {
        for number in 0..case.words {
            if !agrees(alloc, &frame, stage, number, case.columns, case.per)? {
                return Ok(false);
            }
        }
    }
    Ok(true)
}

#[test]
fn moves_agree_with_a_plain_reading_of_two_tiers(rt: HostRuntime) -> Result<(), Fail> {
    let plain = b"otp 1\ntier A input\ntier a overt\n".as_slice();
    let stretches =
        b"otp 1\ntier A input\ntier a overt\nconstraint Max A -> a\nconstraint Start A -> [a\nconstraint Dep a -> A\nconstraint Both A and a -> ]a or ]A\n".as_slice();
    for (grammar, form) in [
        (plain, b"empty".as_slice()),
        (plain, b"[ ]".as_slice()),
        (stretches, b"[ ]".as_slice()),
        (stretches, b"[ | ]".as_slice()),
    ] {
        let case = Case {
            grammar,
            form,
            per: 25,
            columns: 3,
            words: 15_625,
        };
        assert!(rt; all_agree(rt.alloc(), &case)?);
    }
    Ok(())
}

#[test]
fn moves_agree_with_a_plain_reading_of_three_tiers(rt: HostRuntime) -> Result<(), Fail> {
    let inputs =
        b"otp 1\ntier A input\ntier a overt\ntier B input\nconstraint X A and B -> a\n".as_slice();
    let hidden =
        b"otp 1\ntier A input\ntier h hidden\ntier a overt\nconstraint Y h -> a or ]A\nconstraint Z h # a\n".as_slice();
    for (grammar, form) in [
        (inputs, b"[- +[ ]]".as_slice()),
        (hidden, b"[ ]".as_slice()),
    ] {
        let case = Case {
            grammar,
            form,
            per: 125,
            columns: 2,
            words: 15_625,
        };
        assert!(rt; all_agree(rt.alloc(), &case)?);
    }
    Ok(())
}

#[test]
fn an_empty_form_ends_where_it_starts(rt: HostRuntime) -> Result<(), Fail> {
    let alloc = rt.alloc();
    let Ok(grammar) = read_grammar(alloc, b"otp 1\ntier A input\ntier a overt\n") else {
        return Err(Fail::new("no grammar"));
    };
    for (text, ends) in [(b"empty".as_slice(), true), (b"[ ]".as_slice(), false)] {
        let form = read_form(alloc, &grammar, text)?;
        let Ok(frame) = Frame::new(alloc, &grammar, &form) else {
            return Err(Fail::new("no memory"));
        };
        assert_eq!(rt; frame.at_end(&frame.start()), ends);
    }
    Ok(())
}

/// What it costs under a constraint to go along columns to a final kind. None if there is no such
/// walk.
fn cost_along(frame: &Frame<'_>, constraint: u32, columns: &[Column]) -> Option<u32>
    requires some { 1 ≤ constraint }
    requires within { constraint ≤ last_stage (problem_in frame.now) }
{
    let width = frame.grammar.tiers.kinds.as_slice().len();
    let mut kind = frame.start();
    let mut total: u32 = 0;
    for column in columns {
        if column.width() as usize != width {
            return None;
        }
        total = total.wrapping_add(frame.cost(constraint, constraint, &kind, column));
        match frame.moved(constraint, &kind, column) {
            Some(next) => kind = next,
            None => return None,
        }
    }
    if frame.at_end(&kind) {
        Some(total)
    } else {
        None
    }
}

// Rows of candidates of `[ ]`, and what they cost under `A -> a`, `a -> A`, `A # a` and `]A -> ]a`.
#[test]
fn candidates_cost_what_they_violate(rt: HostRuntime) -> Result<(), Fail> {
    let alloc = rt.alloc();
    let Ok(grammar) = read_grammar(
        alloc,
        b"otp 1\ntier A input\ntier a overt\nconstraint Max A -> a\nconstraint Dep a -> A\nconstraint No A # a\nconstraint End ]A -> ]a\n",
    ) else {
        return Err(Fail::new("no grammar"));
    };
    let form = read_form(alloc, &grammar, b"[ ]")?;
    let Ok(frame) = Frame::new(alloc, &grammar, &form) else {
        return Err(Fail::new("no memory"));
    };
    if grammar.constraints.as_slice().len() != 4 {
        return Err(Fail::new("other constraints"));
    }
    for (text, costs) in [
        (b"[- ]-".as_slice(), [1, 0, 0, 1]),
        (b"[[ ]]".as_slice(), [0, 0, 1, 0]),
        (b"-[ [| ]]".as_slice(), [0, 1, 1, 0]),
        (b"-[ -] [- ]-".as_slice(), [1, 1, 0, 1]),
        (b"[- +[ +] ]-".as_slice(), [0, 0, 1, 1]),
        (b"[[ +| ]]".as_slice(), [0, 0, 2, 0]),
    ] {
        let Ok(timeline) = read_timeline(alloc, 2, 64, text) else {
            return Err(Fail::new("no timeline"));
        };
        for (number, cost) in costs.iter().enumerate() {
            let found = cost_along(&frame, number as u32 + 1, timeline.columns());
            assert_eq!(rt; found, Some(*cost));
        }
    }
    Ok(())
}
