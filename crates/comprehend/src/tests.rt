use crate::{CompErr, comprehend, put_hits, read_surface};
use grammar_reader::read_grammar;
use lexicon::read_lexicon;
use outside::SafeSink;
use std::alloc::Global;
use std::test::Fail;

/// Each a has to meet an A.
const DEP: &[u8] = b"otp 1\ntier A input\ntier a overt\nconstraint Dep a -> A\n";

/// No a is allowed.
const SILENT: &[u8] = b"otp 1\ntier A input\ntier a overt\nconstraint One a # a\n";

/// Everything is optimal, and hidden constituents may follow one another without end.
const FREE: &[u8] = b"otp 1\ntier A input\ntier a overt\ntier b hidden\n";

/// A hidden b starts inside each a.
const INSIDE: &[u8] =
    b"otp 1\ntier A input\ntier a overt\ntier b hidden\nconstraint Start a -> [b\n";

/// Three entries.
const THREE: &[u8] = b"entry = [{name = 'none', form = 'empty'}, {name = 'one', form = '[ ]'},
{name = 'two', form = '[ | ]'}]";

/// Writes what is heard of a surface, and gives the error if the lexicon is not searched to the
/// end.
fn hear(
    alloc: Global,
    sink: &mut SafeSink,
    grammar: &[u8],
    lexicon: &[u8],
    surface: &[u8],
    budget: u32,
) -> Result<Result<(), CompErr>, Fail> {
    if grammar.len() > 65536 || budget < 1 || budget > 65536 {
        return Err(Fail::new("out of range"));
    }
    let grammar = read_grammar(alloc, grammar)?;
    let entries = read_lexicon(alloc, &grammar, lexicon)?;
    let surface = read_surface(alloc, &grammar, surface)?;
    match comprehend(alloc, &grammar, &entries, &surface, budget) {
        Ok(hits) => Ok(Ok(put_hits(sink, &entries, &hits)?)),
        Err(e) => Ok(Err(e)),
    }
}

// Surfaces of the three entries, and the hits of each. The first optimal candidate of no entry has
// the surface `[ ]` under Dep.
#[test]
fn surfaces_and_their_hits(rt: HostRuntime) -> Result<(), Fail> {
    let cases: [(&[u8], &[u8], &[u8], &[u8]); 7] = [
        (
            DEP,
            THREE,
            b"[ ]",
            b"hits 2\nentry one\nexample [[ ]]\nentry two\nexample [- |[ ]]\n",
        ),
        (
            DEP,
            THREE,
            b"empty",
            b"hits 3\nentry none\nexample empty\nentry one\nexample [- ]-\nentry two\nexample [- |- ]-\n",
        ),
        (DEP, b"", b"[ ]", b"hits 0\n"),
        (SILENT, THREE, b"[ ]", b"hits 0\n"),
        (
            FREE,
            THREE,
            b"[ ]",
            b"hits 3\nentry none\nexample -[- -]-\nentry one\nexample [[- ]]-\nentry two\nexample [-- |[- ]]-\n",
        ),
        (
            INSIDE,
            THREE,
            b"[ ]",
            b"hits 3\nentry none\nexample -[- -+[ -]]\nentry one\nexample -[- [+[ ]]]\nentry two\nexample [[- |+[ ]]]\n",
        ),
        (
            DEP,
            b"entry = [{name = 'b', form = '[ ]'}, {name = 'a', form = '[ ]'}]",
            b"[ | ]",
            b"hits 2\nentry b\nexample [[ +| ]]\nentry a\nexample [[ +| ]]\n",
        ),
    ];
    for (grammar, lexicon, surface, text) in cases {
        let mut sink = SafeSink::new(rt.alloc());
        let answer = hear(rt.alloc(), &mut sink, grammar, lexicon, surface, 20_000)?;
        assert_eq!(rt; answer, Ok(()));
        assert_eq!(rt; sink.bytes(), text);
    }
    Ok(())
}

fn over(index: u32, stage: u32) -> Result<(), CompErr> {
    Err(CompErr::Budget { index, stage })
}

// Budgets, and the first entry with its first stage that has more kinds. The entries have 2, 6 and
// 8 kinds at stage 0, and 2, 7 and 9 at stage 1.
#[test]
fn budgets_of_entries(rt: HostRuntime) -> Result<(), Fail> {
    let cases = [
        (1, over(0, 0)),
        (2, over(1, 0)),
        (6, over(1, 1)),
        (7, over(2, 0)),
        (8, over(2, 1)),
        (9, Ok(())),
    ];
    for (budget, wanted) in cases {
        let mut sink = SafeSink::new(rt.alloc());
        let answer = hear(rt.alloc(), &mut sink, DEP, THREE, b"[ ]", budget)?;
        assert_eq!(rt; answer, wanted, "at a budget of {budget}");
    }
    Ok(())
}
