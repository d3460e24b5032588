use crate::command_of;
use std::alloc::{AllocError, Global};
use std::process::Abort;
use std::test::Fail;

// The words of a command, from one text with a slash between two words.
fn words(alloc: Global, text: &str) -> Result<Vec<String>, AllocError> {
    let mut words = Vec::new(alloc);
    for word in text.split('/') {
        words.push(String::from_str(alloc, word)?)?;
    }
    Ok(words)
}

// Words, and the command that they are, with a tilde between the two.
const COMMANDS: &str = r#"canon/g~Canon { grammar: "g" }
canon/~Canon { grammar: "" }
canon/canon~Canon { grammar: "canon" }
score/g/[- ]-~Score { grammar: "g", timeline: "[- ]-" }
score/g/~Score { grammar: "g", timeline: "" }
score/score/score~Score { grammar: "score", timeline: "score" }
generate/g/[ ]~Generate { grammar: "g", form: "[ ]", budget: 20000 }
generate/g/empty/1~Generate { grammar: "g", form: "empty", budget: 1 }
generate/g/empty/10~Generate { grammar: "g", form: "empty", budget: 10 }
generate/g/empty/20000~Generate { grammar: "g", form: "empty", budget: 20000 }
generate/g/empty/65535~Generate { grammar: "g", form: "empty", budget: 65535 }
generate/g/empty/65536~Generate { grammar: "g", form: "empty", budget: 65536 }
generate/g/5~Generate { grammar: "g", form: "5", budget: 20000 }
generate/show/generate~Generate { grammar: "show", form: "generate", budget: 20000 }
show/g/=banana~Show { grammar: "g", form: "=banana", budget: 20000 }
show/g/empty/1~Show { grammar: "g", form: "empty", budget: 1 }
show/g/empty/300~Show { grammar: "g", form: "empty", budget: 300 }
show/g/empty/65536~Show { grammar: "g", form: "empty", budget: 65536 }
show//~Show { grammar: "", form: "", budget: 20000 }
tableau/g/[ ]/r~Tableau { grammar: "g", form: "[ ]", rows: "r", budget: 20000 }
tableau/g/=ta/g/8~Tableau { grammar: "g", form: "=ta", rows: "g", budget: 8 }
tableau/g/f/8~Tableau { grammar: "g", form: "f", rows: "8", budget: 20000 }
once/g/[ ]~Once { grammar: "g", form: "[ ]", budget: 20000 }
once/g/=ta/8~Once { grammar: "g", form: "=ta", budget: 8 }
comprehend/g/l/[ ]~Comprehend { grammar: "g", lexicon: "l", surface: "[ ]", budget: 20000 }
comprehend/g/8/9~Comprehend { grammar: "g", lexicon: "8", surface: "9", budget: 20000 }
comprehend/g/l/s/1~Comprehend { grammar: "g", lexicon: "l", surface: "s", budget: 1 }
check/g/a~Check { grammar: "g", answer: "a" }
check/a/~Check { grammar: "a", answer: "" }
sample/1~Sample { letters: 1 }
sample/63~Sample { letters: 63 }"#;

#[test]
fn words_of_a_command_are_read(rt: HostRuntime) -> Result<(), Fail> {
    for row in COMMANDS.split('\n') {
        let (text, due) = row.split_once('~').ok_or("no command")?;
        let words = words(rt.alloc(), text)?;
        let command = command_of(&words).ok_or("no command")?;
        let told = format!(in rt.alloc(); "{command:?}")?;
        assert_eq!(rt; told.as_str(), due, "{text}");
    }
    Ok(())
}

// Tries rows of words that are no command.
fn try_none(rt: &impl Abort, alloc: Global, rows: &str) -> Result<(), Fail> {
    for row in rows.split('\n') {
        let words = words(alloc, row)?;
        assert_eq!(rt; command_of(&words), None, "{row}");
    }
    Ok(())
}

// Other names, too few words and too many.
const NO_COMMANDS: &str = "
canon
Canon/g
CANON/g
canon/g/h
 canon/g
g/canon
score/g
score/g/empty/1
Score/g/empty
generate
generate/g
generate/g/empty/1/1
Generate/g/empty
generates/g/empty
show
show/g
show/g/empty/1/1
SHOW/g/empty
draw/g/empty
tableau/g/empty
tableau/g/empty/r/1/1
tableau/g/empty/r/0
once/g
once/g/empty/1/1
comprehend/g/l
comprehend/g/l/empty/1/1
generate/g/1/empty
check/g
check/g/a/1
sample
sample/0
sample/64
sample/01
sample/+1
sample/
sample/n
sample/1/1";

#[test]
fn other_words_are_no_command(rt: HostRuntime) -> Result<(), Fail> {
    try_none(&rt, rt.alloc(), NO_COMMANDS)
}

// Last words that are not a budget.
const NO_BUDGETS: &str = "generate/g/empty/
generate/g/empty/0
generate/g/empty/00
generate/g/empty/08
generate/g/empty/020000
generate/g/empty/65537
generate/g/empty/100000
generate/g/empty/4294967297
generate/g/empty/123456789012345678901234567890
generate/g/empty/+5
generate/g/empty/-5
generate/g/empty/1a
generate/g/empty/ 1
generate/g/empty/1 
generate/g/empty/0x10
generate/g/empty/1_000
show/g/empty/0
show/g/empty/65537
show/g/empty/08
show/g/empty/many";

#[test]
fn other_budgets_are_no_command(rt: HostRuntime) -> Result<(), Fail> {
    try_none(&rt, rt.alloc(), NO_BUDGETS)
}

#[test]
fn no_words_are_no_command(rt: HostRuntime) {
    assert_eq!(rt; command_of(&[]), None);
}
