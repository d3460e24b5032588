use crate::put_verdict;
use cert_check::{Fault, Verdict};
use grammar_reader::{read_grammar, shape};
use outside::SafeSink;
use std::test::Fail;
use tier_core::Kind;

/// Verdicts on an answer for a grammar of an input tier and an overt one, and their lines.
#[test]
fn lines_of_faults(rt: HostRuntime) -> Result<(), Fail> {
    let grammar = read_grammar(rt.alloc(), b"otp 1\ntier A input\ntier a overt\n")?;
    let Ok(shape) = shape(rt.alloc(), &grammar) else {
        return Err(Fail::new("no memory"));
    };
    let cases = [
        (Verdict::Yes, "Yes\n"),
        (Verdict::No(Fault::FormWrong), "No form\n"),
        (
            Verdict::No(Fault::Potential {
                stage: 1,
                node: 1,
                listed: 2,
                allowed: 1,
            }),
            "No potential 1 1 2 1\n",
        ),
        (
            Verdict::No(Fault::NotClosed {
                stage: 0,
                node: 2,
                missing: Kind {
                    place: 2,
                    opened: 1,
                    unmet: 0,
                    met: 0,
                },
            }),
            "No closed 0 2 2/+/\n",
        ),
        (
            Verdict::No(Fault::FinalsDiffer {
                state: 2,
                listed: false,
            }),
            "No final 2 0\n",
        ),
    ];
    for (verdict, line) in cases {
        let mut sink = SafeSink::new(rt.alloc());
        put_verdict(&mut sink, &shape, &verdict)?;
        assert_eq!(rt; sink.bytes(), line.as_bytes(), "{line}");
    }
    Ok(())
}
