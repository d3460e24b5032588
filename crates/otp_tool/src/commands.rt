ghost use Rattle.std.specs.Prelude.{◌≡◌, ◌≢◌, ◌≤◌, ◌⊎◌, ◌↔◌, ℕ, List, None, Some, IfErr, IfOk, MatchOption};
ghost use Rattle.outside.specs.Faults.{Rose};
ghost use Rattle.outside.specs.Sent.{append_if_seen, HasSentPart};
ghost use Rattle.timeline_text.specs.declared.form_err.FormErr.{FormErr};
ghost use Rattle.grammar_reader.specs.declared.grammar_err.GrammarCause.{GrammarCause};
ghost use Rattle.grammar_reader.specs.Grammars.{value_of};
ghost use Rattle.cert_check.specs.declared.fault.Verdict.{Verdict};
ghost use Rattle.command_line.specs.Commands.{IsCommand, IsNoCommand, named_grammar};
ghost use Rattle.command_line.specs.Words.{words_of};
ghost use Rattle.command_line.specs.Seen.{command_seen};
ghost use Rattle.otp_tool.specs.Endings.{IsStatusOf};
ghost use Rattle.otp_tool.specs.Findings.{Finding, no_grammar, no_form, no_rows, no_lexicon, no_answer, over_budget, ready};
ghost use Rattle.otp_tool.specs.Outcomes.{HasReadFault, IsBeforeWriting, IsBehind, IsTold, IsToldVerdict, IsTooLong, IsUnnamed, IsWrittenBehind, Stands, answer_to, status_of};
ghost use Rattle.otp_tool.specs.Results.{IsNoResult, IsResult, IsAnyResult};
ghost use Rattle.otp_tool.specs.Steps.{HasFitBudget, IsLoadRefusal, IsLoaded, IsOutcome, IsWorkOf, change_of};
ghost use Rattle.otp_tool.specs.Files.{NamedFile, faults_of, grammar_told, second_file};
ghost use Rattle.tableau.specs.declared.rows_err.RowsCause.{RowsCause};
ghost use Rattle.answer_reader.specs.declared.answer_err.AnswerCause.{AnswerCause};
ghost use Rattle.lexicon.specs.declared.lex_err.LexErr.{LexErr};

use crate::checking::check;
use crate::grammar::load_grammar;
use crate::hearing::listen;
use crate::results::{canon, generate, score, show};
use crate::sample_form::sample_grammar;
use crate::sampling::sample;
use crate::single_pass::once;
use crate::tableaux::tabulate;
use command_line::{Command, Status, command_of};
use grammar_reader::Grammar;
use outside::{Shelf, Sink};
use std::alloc::Global;

/// The name of the file of a command's grammar. `sample` names none.
fn grammar_name<'a>(command: &Command<'a>) -> Option<&'a str>
    ensures { MatchOption result (named_grammar (command_seen command.now) ≡ None)
        (λ name. named_grammar (command_seen command.now) ≡ Some name.now) }
{
    match *command {
        Command::Canon { grammar } => Some(grammar),
        Command::Score { grammar, .. } => Some(grammar),
        Command::Generate { grammar, .. } => Some(grammar),
        Command::Show { grammar, .. } => Some(grammar),
        Command::Tableau { grammar, .. } => Some(grammar),
        Command::Once { grammar, .. } => Some(grammar),
        Command::Comprehend { grammar, .. } => Some(grammar),
        Command::Check { grammar, .. } => Some(grammar),
        Command::Sample { .. } => None,
    }
}

/// The grammar of a command: that of the file that word 1 names, or the one of samples.
fn grammar_of<F: Shelf>(
    alloc: Global,
    command: &Command<'_>,
    shelf: &mut F,
) -> Result<Grammar, Status>
    ensures ok { IfOk result
        (λ grammar.
        IsLoaded (grammar_told (F.held shelf.old) (named_grammar (command_seen command.now)))
        (value_of grammar)) }
    ensures err { IfErr result
        (IsLoadRefusal (grammar_told (F.held shelf.old) (named_grammar (command_seen command.now)))
        (faults_of (F.faults shelf.old) (named_grammar (command_seen command.now)))
        (faults_of (F.faults shelf.new) (named_grammar (command_seen command.now)))) }
    ensures held { (other : List ℕ) → F.held shelf.new other ≡ F.held shelf.old other }
    ensures never_falls { (other : List ℕ) → F.faults shelf.old other ≤ F.faults shelf.new other }
    ensures others { (other : List ℕ) → ¬ (named_grammar (command_seen command.now) ≡ Some other)
        → F.faults shelf.new other ≡ F.faults shelf.old other }
{
    match grammar_name(command) {
        Some(name) => load_grammar(alloc, shelf, name),
        None => sample_grammar(alloc),
    }
}

/// Does what a command asks of its grammar, and of its second file if it has one.
fn perform<F: Shelf, O: Sink>(
    alloc: Global,
    command: &Command<'_>,
    grammar: &Grammar,
    shelf: &mut F,
    sink: &mut O,
) -> Status
    requires { HasFitBudget (command_seen command.now) }
    ensures work { IsWorkOf (command_seen command.now) (value_of grammar.now)
        (change_of F.Shelf O.Sink shelf.old shelf.new sink.old sink.new) result }
    ensures held { (other : List ℕ) → F.held shelf.new other ≡ F.held shelf.old other }
    ensures never_falls { (other : List ℕ) → F.faults shelf.old other ≤ F.faults shelf.new other }
    ensures others { (other : List ℕ)
        → ((file : NamedFile) → second_file (command_seen command.now) ≡ Some file
        → ¬ (file.name ≡ other))
        → F.faults shelf.new other ≡ F.faults shelf.old other }
    ensures sink_never_falls { O.faults sink.old ≤ O.faults sink.new }
{
    match *command {
        Command::Canon { .. } => canon(grammar, sink),
        Command::Score { timeline, .. } => score(alloc, grammar, timeline, sink),
        Command::Generate { form, budget, .. } => generate(alloc, grammar, form, budget, sink),
        Command::Show { form, budget, .. } => show(alloc, grammar, form, budget, sink),
        Command::Tableau {
            form,
            rows,
            budget,
            ..
        } => tabulate(alloc, grammar, form, rows, budget, shelf, sink),
        Command::Once { form, budget, .. } => once(alloc, grammar, form, budget, sink),
        Command::Comprehend {
            lexicon,
            surface,
            budget,
            ..
        } => listen(alloc, grammar, lexicon, surface, budget, shelf, sink),
        Command::Check { answer, .. } => check(alloc, grammar, answer, shelf, sink),
        Command::Sample { letters } => sample(alloc, grammar, letters, sink),
    }
}

/// Loads and reads the grammar of a command, and does what the command asks of it.
fn execute<F: Shelf, O: Sink>(
    alloc: Global,
    command: &Command<'_>,
    shelf: &mut F,
    sink: &mut O,
) -> Status
    requires { HasFitBudget (command_seen command.now) }
    ensures outcome { (words : List (List ℕ)) → IsCommand words (command_seen command.now)
        → IsOutcome words
        (change_of F.Shelf O.Sink shelf.old shelf.new sink.old sink.new) result }
    ensures held { (other : List ℕ) → F.held shelf.new other ≡ F.held shelf.old other }
    ensures never_falls { (other : List ℕ) → F.faults shelf.old other ≤ F.faults shelf.new other }
    ensures others { (other : List ℕ) → ¬ (named_grammar (command_seen command.now) ≡ Some other)
        → ((file : NamedFile) → second_file (command_seen command.now) ≡ Some file
        → ¬ (file.name ≡ other))
        → F.faults shelf.new other ≡ F.faults shelf.old other }
    ensures sink_never_falls { O.faults sink.old ≤ O.faults sink.new }
{
    match grammar_of(alloc, command, shelf) {
        Ok(grammar) => perform(alloc, command, &grammar, shelf, sink),
        Err(status) => status,
    }
}

/// Does what words ask for. All that `run` promises of its status is one fact here.
pub(crate) fn respond<F: Shelf, O: Sink>(
    alloc: Global,
    words: &[String],
    shelf: &mut F,
    sink: &mut O,
) -> Status
    ensures status { IsStatusOf (words_of words.now)
        (change_of F.Shelf O.Sink shelf.old shelf.new sink.old sink.new) result }
    ensures held { (other : List ℕ) → F.held shelf.new other ≡ F.held shelf.old other }
    ensures never_falls { (other : List ℕ) → F.faults shelf.old other ≤ F.faults shelf.new other }
    ensures others { (other : List ℕ) → IsUnnamed (words_of words.now) other
        → F.faults shelf.new other ≡ F.faults shelf.old other }
    ensures sink_never_falls { O.faults sink.old ≤ O.faults sink.new }
{
    match command_of(words) {
        Some(command) => execute(alloc, &command, shelf, sink),
        None => Status::Usage,
    }
}

/// Runs the words of a command.
///
/// | Words | What is written |
/// |---|---|
/// | `canon G` | the canonical text of the grammar |
/// | `score G TIMELINE` | the line of the counts of that timeline |
/// | `generate G FORM [BUDGET]` | the text of a right answer |
/// | `show G FORM [BUDGET]` | the lines `counts` and `example` of that answer |
/// | `tableau G FORM ROWSFILE [BUDGET]` | the tableau: the example, and then the rows |
/// | `once G FORM [BUDGET]` | the text of an answer that a single pass finds |
/// | `comprehend G LEXFILE SURFACE [BUDGET]` | the entries of the lexicon that are heard |
/// | `check G ANSWERFILE` | the verdict on an answer: `Yes`, or `No` with its first fault |
/// | `sample N` | the summary of a right answer to the form that the number N makes |
///
/// `G` is the name of a grammar's file, of at most 65,536 bytes. ROWSFILE and LEXFILE are the names
/// of a rows file and a lexicon file, of at most 4,194,304 bytes. TIMELINE is a timeline over all
/// tiers, of at most 4,096 columns. FORM is a timeline over the input tiers, of at most 64 columns,
/// or `=` and letters. SURFACE is a timeline over the overt tiers, of at most 64 columns. BUDGET is
/// the number of kinds of prefix that a stage may have, and for `once` the number of kinds under all
/// constraints: a decimal from 1 to 65,536, with no sign and no leading zero. If it is left out it
/// is 20,000. N is such a decimal from 1 to 63. The grammar of `sample` is one that the program has.
///
/// Each command makes its whole result before it writes. The refusals come in this order: `Usage`;
/// `ReadFault` and `TooLong` for word 1; `GrammarRefused`; `FormRefused` for the word of the form,
/// timeline or surface; `ReadFault` and `TooLong` for the word of the second file; `RowsRefused`,
/// `LexiconRefused` or `AnswerRefused`; `Budget`; `WriteFault`. If the verdict is No, the status `No` comes
/// in place of `Done`. `NoMemory` may occur in place of any status but `Usage`.
pub fn run<F: Shelf, O: Sink>(
    alloc: Global,
    words: &[String],
    shelf: &mut F,
    sink: &mut O,
) -> Status
    // Done: exactly the text that the command asks for was written. For `generate` it is the text of
    // a right answer with joined arcs; what `generate` writes, `check` answers with `Yes`, if it has at
    // most 268,435,456 bytes. For `once` it is the text of an answer that is right once, for `tableau`
    // that of the tableau with the rows of the file, for `comprehend` that of the entries that are
    // heard, for `check` the line `Yes`: no fault is in the answer, whatever answer its bytes are
    // read as, and it is sound; and for `sample` the summary of a right answer.
    ensures done { result ≡ Status.Done
        → IsWrittenBehind (words_of words.now) (F.held shelf.old) IsResult
        (λ text. O.taken sink.new ≡ append_if_seen (O.taken sink.old) text) }
    // No: exactly the line of the fault that comes first in the answer was written, whatever answer
    // its bytes are read as.
    ensures no { result ≡ Status.No
        → IsWrittenBehind (words_of words.now) (F.held shelf.old) IsNoResult
        (λ text. O.taken sink.new ≡ append_if_seen (O.taken sink.old) text) }
    // Either way nothing was refused.
    ensures nothing_refused { (result ≡ Status.Done) ⊎ (result ≡ Status.No)
        → IsBehind (words_of words.now) (F.held shelf.old) ready }
    // If nothing is refused in any bytes that the shelf may hold, it is the one or the other.
    ensures complete { IsTold (words_of words.now) (F.held shelf.old) ready
        → ((word : ℕ) → ¬ HasReadFault (words_of words.now) (F.held shelf.old)
        (F.faults shelf.old) (F.faults shelf.new) word)
        → ¬ Rose (O.faults sink.old) (O.faults sink.new)
        → (result ≡ Status.Done) ⊎ ((result ≡ Status.No) ⊎ (result ≡ Status.NoMemory)) }
    // The bytes of the grammar and of an answer settle the verdict: if they have none but those with
    // the status of this one, that is the status.
    ensures settled { (verdict : Verdict)
        → IsToldVerdict (words_of words.now) (F.held shelf.old) verdict
        → ((word : ℕ) → ¬ HasReadFault (words_of words.now) (F.held shelf.old)
        (F.faults shelf.old) (F.faults shelf.new) word)
        → ¬ Rose (O.faults sink.old) (O.faults sink.new)
        → (result ≡ status_of verdict) ⊎ (result ≡ Status.NoMemory) }

    // Each refusal has its cause.
    ensures usage { (result ≡ Status.Usage) ↔ IsNoCommand (words_of words.now) }
    ensures read_fault { (word : ℕ) → result ≡ Status.ReadFault word
        → HasReadFault (words_of words.now) (F.held shelf.old)
        (F.faults shelf.old) (F.faults shelf.new) word }
    ensures too_long { (word : ℕ) → result ≡ Status.TooLong word
        → IsTooLong (words_of words.now) (F.held shelf.old) word }
    ensures grammar_refused { (word line : ℕ) (cause : GrammarCause)
        → result ≡ Status.GrammarRefused word line cause
        → (word ≡ 1) × IsBehind (words_of words.now) (F.held shelf.old) (no_grammar line cause) }
    ensures form_refused { (word : ℕ) (cause : FormErr) → result ≡ Status.FormRefused word cause
        → IsBehind (words_of words.now) (F.held shelf.old) (no_form word cause) }
    ensures rows_refused { (word row : ℕ) (cause : RowsCause)
        → result ≡ Status.RowsRefused word row cause
        → (word ≡ 3) × IsBehind (words_of words.now) (F.held shelf.old) (no_rows row cause) }
    ensures lexicon_refused { (word : ℕ) (cause : LexErr)
        → result ≡ Status.LexiconRefused word cause
        → (word ≡ 2) × IsBehind (words_of words.now) (F.held shelf.old) (no_lexicon cause) }
    ensures answer_refused { (word line : ℕ) (cause : AnswerCause)
        → result ≡ Status.AnswerRefused word line cause
        → (word ≡ 2) × IsBehind (words_of words.now) (F.held shelf.old) (no_answer line cause) }
    ensures budget { (entry stage : ℕ) → result ≡ Status.Budget entry stage
        → IsBehind (words_of words.now) (F.held shelf.old) (over_budget entry stage) }
    ensures write_fault { result ≡ Status.WriteFault
        → IsBehind (words_of words.now) (F.held shelf.old) ready
        × Rose (O.faults sink.old) (O.faults sink.new) }

    // If nothing but one refusal is found in any bytes that the shelf may hold, it is the status.
    ensures due { (finding : Finding) → finding ≢ ready
        → IsTold (words_of words.now) (F.held shelf.old) finding
        → Stands (answer_to finding) result }

    // What was written if not everything was done.
    ensures untouched { IsBeforeWriting result → O.taken sink.new ≡ O.taken sink.old }
    ensures no_fault_counted { IsBeforeWriting result → O.faults sink.new ≡ O.faults sink.old }
    ensures begun { result ≡ Status.WriteFault
        → IsWrittenBehind (words_of words.now) (F.held shelf.old) IsAnyResult
        (λ text. HasSentPart (O.taken sink.old) text (O.taken sink.new)) }
    ensures no_memory { result ≡ Status.NoMemory
        → (O.taken sink.new ≡ O.taken sink.old)
        ⊎ IsWrittenBehind (words_of words.now) (F.held shelf.old) IsAnyResult
        (λ text. HasSentPart (O.taken sink.old) text (O.taken sink.new)) }

    // What the shelf holds stays. No count of faults falls, and only those of files that the command
    // names change.
    ensures held { (other : List ℕ) → F.held shelf.new other ≡ F.held shelf.old other }
    ensures never_falls { (other : List ℕ) → F.faults shelf.old other ≤ F.faults shelf.new other }
    ensures others { (other : List ℕ) → IsUnnamed (words_of words.now) other
        → F.faults shelf.new other ≡ F.faults shelf.old other }
    ensures sink_never_falls { O.faults sink.old ≤ O.faults sink.new }
{
    respond(alloc, words, shelf, sink)
}
