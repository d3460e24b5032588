ghost use Rattle.std.specs.Prelude.{◌≡◌, ◌≢◌, ◌<◌, ◌≤◌, ℕ, All, List, length, IfOk, IfErr};
ghost use Rattle.tier_core.specs.Tables.{tiers_of_table};
ghost use Rattle.violation.specs.Candidates.{IsForm};
ghost use Rattle.violation.specs.Problems.{problem_from};
ghost use Rattle.lexicon.specs.Seen.{entries_seen};
ghost use Rattle.comprehend.specs.Hears.{AreEntriesWithin, Hears, forms_of};
ghost use Rattle.comprehend.specs.Surfaces.{IsSurface};
ghost use Rattle.grammar_reader.specs.Grammars.{value_of};
ghost use Rattle.otp_tool.specs.Lexicons.{IsLexiconFile, IsSurfaceOf};
ghost use Rattle.otp_tool.specs.Steps.{IsHearingWork, IsRefusal, RefusesEntry, RefusesLexicon, RefusesSurface, change_of};

use crate::results::write_status;
use crate::second::load_second;
use command_line::Status;
use comprehend::{CompErr, Hit, comprehend, put_hits, read_surface};
use grammar_reader::Grammar;
use lexicon::{Entry, LexErr, read_lexicon};
use outside::{Shelf, Sink};
use std::alloc::Global;
use tier_core::Timeline;
use timeline_text::FormErr;

/// How many bytes a lexicon file may have.
const LEXICON_LIMIT: u64 = 4194304;

/// Reads the surface that word 3 is.
fn surface_of(alloc: Global, grammar: &Grammar, word: &str) -> Result<Timeline, Status>
    ensures ok { IfOk result (IsSurfaceOf (value_of grammar.now) word.now) }
    ensures surface { IfOk result (IsSurface (tiers_of_table grammar.now.tiers)) }
    ensures short { IfOk result (λ surface. length surface ≤ 64) }
    ensures err { IfErr result (IsRefusal (RefusesSurface (value_of grammar.now) word.now)) }
{
    match read_surface(alloc, grammar, word.as_bytes()) {
        Ok(surface) => Ok(surface),
        Err(FormErr::NoMemory) => Err(Status::NoMemory),
        Err(cause) => Err(Status::FormRefused { word: 3, cause }),
    }
}

/// Reads the lexicon of the file that word 2 names.
fn lexicon_of(alloc: Global, grammar: &Grammar, bytes: &[u8]) -> Result<Vec<Entry>, Status>
    requires { length bytes.now ≤ 4194304 }
    ensures ok { IfOk result (λ entries. IsLexiconFile (value_of grammar.now) bytes.now
        (entries_seen entries.items)) }
    ensures few { IfOk result (λ entries. length entries.items ≤ 1000) }
    ensures forms { IfOk result
        (λ entries.
        All (λ entry. IsForm (tiers_of_table grammar.now.tiers) entry.form) entries.items) }
    ensures short { IfOk result (λ entries. All (λ entry. length entry.form ≤ 64) entries.items) }
    ensures err { IfErr result (IsRefusal (RefusesLexicon (value_of grammar.now) bytes.now)) }
{
    match read_lexicon(alloc, grammar, bytes) {
        Ok(entries) => Ok(entries),
        Err(LexErr::NoMemory) => Err(Status::NoMemory),
        Err(cause) => Err(Status::LexiconRefused { word: 2, cause }),
    }
}

/// Finds the entries of a lexicon that are heard.
fn heard(
    alloc: Global,
    grammar: &Grammar,
    entries: &[Entry],
    surface: &Timeline,
    budget: u32,
) -> Result<Vec<Hit>, Status>
    requires forms { All
        (λ entry. IsForm (tiers_of_table grammar.now.tiers) entry.form) entries.now }
    requires short_forms { All (λ entry. length entry.form ≤ 64) entries.now }
    requires few_entries { length entries.now ≤ 1000 }
    requires surface { IsSurface (tiers_of_table grammar.now.tiers) surface.now }
    requires short_surface { length surface.now ≤ 64 }
    requires some { 1 ≤ budget }
    requires few { budget ≤ 65536 }
    ensures hears { IfOk result (λ hits. Hears
        (problem_from grammar.now.tiers grammar.now.constraints.items)
        (forms_of entries.now) surface.now hits.items) }
    ensures within { IfOk result (λ hits. AreEntriesWithin
        (problem_from grammar.now.tiers grammar.now.constraints.items)
        (forms_of entries.now) budget) }
    ensures entries { IfOk result
        (λ hits. All (λ hit. hit.index < length entries.now) hits.items) }
    ensures err { IfErr result (IsRefusal (RefusesEntry
        (problem_from grammar.now.tiers grammar.now.constraints.items)
        (forms_of entries.now) budget)) }
{
    match comprehend(alloc, grammar, entries, surface, budget) {
        Ok(hits) => Ok(hits),
        Err(CompErr::Budget { index, stage }) => Err(Status::Budget {
            entry: index,
            stage,
        }),
        Err(CompErr::NoMemory) => Err(Status::NoMemory),
    }
}

/// Finds the entries of a lexicon file that are heard as a surface, and writes them.
pub(crate) fn listen<F: Shelf, O: Sink>(
    alloc: Global,
    grammar: &Grammar,
    lexicon: &str,
    surface: &str,
    budget: u32,
    shelf: &mut F,
    sink: &mut O,
) -> Status
    requires some { 1 ≤ budget }
    requires few { budget ≤ 65536 }
    ensures work { IsHearingWork (value_of grammar.now) lexicon.now surface.now budget
        (change_of F.Shelf O.Sink shelf.old shelf.new sink.old sink.new) result }
    ensures held { (other : List ℕ) → F.held shelf.new other ≡ F.held shelf.old other }
    ensures never_falls { (other : List ℕ) → F.faults shelf.old other ≤ F.faults shelf.new other }
    ensures others { (other : List ℕ) → other ≢ lexicon.now
        → F.faults shelf.new other ≡ F.faults shelf.old other }
    ensures sink_never_falls { O.faults sink.old ≤ O.faults sink.new }
{
    let surface = match surface_of(alloc, grammar, surface) {
        Ok(surface) => surface,
        Err(status) => return status,
    };
    let bytes = match load_second(alloc, shelf, 2, lexicon, LEXICON_LIMIT) {
        Ok(bytes) => bytes,
        Err(status) => return status,
    };
    let entries = match lexicon_of(alloc, grammar, &bytes) {
        Ok(entries) => entries,
        Err(status) => return status,
    };
    match heard(alloc, grammar, &entries, &surface, budget) {
        Ok(hits) => write_status(put_hits(sink, &entries, &hits)),
        Err(status) => status,
    }
}
