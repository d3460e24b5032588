ghost use Rattle.std.specs.Prelude.{◌≡◌, ◌<◌, Some, IfErr, IfOk, string_bytes};
ghost use Rattle.grammar_reader.specs.Grammars.{value_of};
ghost use Rattle.otp_tool.specs.Samples.{sample_letter, next_number, sample_grammar, sample_word};
ghost use Rattle.otp_tool.specs.Steps.{IsLoaded};

use command_line::Status;
use grammar_reader::{Grammar, read_grammar};
use std::alloc::{AllocError, Global};

/// The grammar of samples: syllables over consonants and vowels.
const GRAMMAR: &str = "otp 1
tier C input
tier V input
tier c overt
tier v overt
tier S hidden
letter t = C
letter a = V
constraint MaxCl [C -> [c
constraint MaxCr ]C -> ]c
constraint MaxVl [V -> [v
constraint MaxVr ]V -> ]v
constraint DepCl [c -> [C
constraint DepCr ]c -> ]C
constraint DepVl [v -> [V
constraint DepVr ]v -> ]V
constraint ParseC c -> S
constraint ParseV v -> S
constraint Onset [S -> [c
constraint NoCoda ]S -> ]v
constraint NoInner ]v # S
";

/// Reads the grammar of samples. It has no cause, so that this fails only if memory runs out.
pub(crate) fn sample_grammar(alloc: Global) -> Result<Grammar, Status>
    ensures ok { IfOk result (λ grammar. IsLoaded (Some sample_grammar) (value_of grammar)) }
    ensures err { IfErr result (λ status. status ≡ Status.NoMemory) }
{
    match read_grammar(alloc, GRAMMAR.as_bytes()) {
        Ok(grammar) => Ok(grammar),
        Err(_) => Err(Status::NoMemory),
    }
}

/// The number after another one.
fn next_number(number: u64) -> u64
    requires { number < 4294967296 }
    ensures value { result ≡ next_number number }
    ensures small { result < 4294967296 }
{
    (1_103_515_245 * number + 12_345) % 2_147_483_648
}

/// The letter of a number.
fn sample_letter(number: u64) -> char
    ensures value { result ≡ sample_letter number }
    ensures ascii { result < 128 }
{
    if number / 65_536 % 2 == 0 { 't' } else { 'a' }
}

/// The word of the form that a number makes: as many letters as it says. Fails only if memory runs out.
pub(crate) fn sample_word(alloc: Global, letters: u32) -> Result<String, AllocError>
    ensures { IfOk result (λ word. string_bytes word ≡ sample_word letters) }
{
    let mut word = String::from_str(alloc, "=")?;
    let mut number = u64::from(letters);
    for _ in 0..letters {
        number = next_number(number);
        word.push(sample_letter(number))?;
    }
    Ok(word)
}
