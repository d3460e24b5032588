ghost use Rattle.std.specs.Prelude.{◌≡◌, ◌≢◌, ◌≤◌, ℕ, List, IfOk, IfErr};
ghost use Rattle.grammar_reader.specs.Grammars.{value_of};
ghost use Rattle.otp_tool.specs.Steps.{IsLoadRefusal, IsLoaded};

use command_line::Status;
use grammar_reader::{Grammar, GrammarErr, read_grammar};
use outside::{LoadErr, Shelf};
use std::alloc::Global;

/// How many bytes a grammar's file may have.
const GRAMMAR_LIMIT: u64 = 65536;

/// Loads and reads the grammar that word 1 names.
pub(crate) fn load_grammar<F: Shelf>(
    alloc: Global,
    shelf: &mut F,
    name: &str,
) -> Result<Grammar, Status>
    ensures ok { IfOk result (λ grammar. IsLoaded (F.held shelf.old name.now) (value_of grammar)) }
    ensures err { IfErr result (IsLoadRefusal (F.held shelf.old name.now)
        (F.faults shelf.old name.now) (F.faults shelf.new name.now)) }
    ensures held { (other : List ℕ) → F.held shelf.new other ≡ F.held shelf.old other }
    ensures never_falls { (other : List ℕ) → F.faults shelf.old other ≤ F.faults shelf.new other }
    ensures others { (other : List ℕ) → other ≢ name.now
        → F.faults shelf.new other ≡ F.faults shelf.old other }
{
    let bytes = match shelf.load(alloc, name, GRAMMAR_LIMIT) {
        Ok(bytes) => bytes,
        Err(LoadErr::Failed) => return Err(Status::ReadFault { word: 1 }),
        Err(LoadErr::TooLong) => return Err(Status::TooLong { word: 1 }),
        Err(LoadErr::NoMemory) => return Err(Status::NoMemory),
    };
    match read_grammar(alloc, &bytes) {
        Ok(grammar) => Ok(grammar),
        Err(GrammarErr::At { line, cause }) => Err(Status::GrammarRefused {
            word: 1,
            line,
            cause,
        }),
        Err(GrammarErr::NoMemory) => Err(Status::NoMemory),
    }
}
