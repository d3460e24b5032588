ghost use Rattle.std.specs.Prelude.{◌≡◌, ◌≢◌, ◌≤◌, [], false, codes, length, map, option_map, All, IfOk, IfErr};
ghost use Rattle.tier_core.specs.Tables.{tiers_of_table};
ghost use Rattle.toml.specs.Data.{get_member};
ghost use Rattle.toml.specs.View.{view, table_view};
ghost use Rattle.grammar_reader.specs.Names.{has_twice};
ghost use Rattle.violation.specs.Candidates.{IsForm};
ghost use Rattle.form_reader.specs.Forms.{IsReadAs, IsRefusedFor};
ghost use Rattle.lexicon.specs.Entries.{AreEntries, IsFirstEntryFault, names_of};
ghost use Rattle.lexicon.specs.Seen.{entries_seen};
ghost use Rattle.lexicon.specs.Lexicons.{IsLexicon, IsLexiconCause, IsNoToml, IsToml};

use crate::element::entry_words;
use crate::entry::Entry;
use crate::lex_err::LexErr;
use form_reader::read_form;
use grammar_reader::Grammar;
use indexmap::IndexSet;
use std::alloc::Global;
use tier_core::Timeline;
use timeline_text::FormErr;
use toml::{Table, Value};

/// How many entries a lexicon may have.
const ENTRY_LIMIT: usize = 1000;

/// The table that a text of TOML denotes.
fn table_of(alloc: Global, bytes: &[u8]) -> Result<Table, LexErr>
    ensures ok { IfOk result (λ table. IsToml bytes.now (table_view table)) }
    ensures err { IfErr result
        (λ e. e ≢ LexErr.NoMemory → (e ≡ LexErr.NotToml) × IsNoToml bytes.now) }
{
    let Ok(text) = std::str::from_utf8(bytes) else {
        return Err(LexErr::NotToml);
    };
    match toml::table_from_str(alloc, text) {
        Ok(table) => Ok(table),
        Err(error) if error.is_memory() => Err(LexErr::NoMemory),
        Err(_) => Err(LexErr::NotToml),
    }
}

/// The value under the key `entry`.
fn entry_value(table: &Table) -> Option<&Value>
    ensures { option_map (λ value. view value.now) result
        ≡ get_member (codes "entry") (table_view table.entry.now) }
{
    table.get("entry")
}

/// Reads the form of the entry with that index.
fn read_word(alloc: Global, grammar: &Grammar, index: u32, word: &str) -> Result<Timeline, LexErr>
    ensures ok { IfOk result
        (IsReadAs
        (length (tiers_of_table grammar.now.tiers).input) grammar.now.letters.items word.now) }
    ensures form { IfOk result (IsForm (tiers_of_table grammar.now.tiers)) }
    ensures short { IfOk result (λ form. length form ≤ 64) }
    ensures err { IfErr result
        (λ e. e ≢ LexErr.NoMemory
        → (cause : FormErr) × (e ≡ LexErr.BadForm index cause)
        × IsRefusedFor
        (length
        (tiers_of_table grammar.now.tiers).input) grammar.now.letters.items word.now cause) }
{
    match read_form(alloc, grammar, word.as_bytes()) {
        Ok(form) => Ok(form),
        Err(FormErr::NoMemory) => Err(LexErr::NoMemory),
        Err(cause) => Err(LexErr::BadForm { index, cause }),
    }
}

/// Reads the elements one by one into entries, with the names so far in a set.
fn push_elements<'a>(
    alloc: Global,
    grammar: &Grammar,
    elements: &'a [Value],
    names: &mut IndexSet<&'a [u8]>,
    entries: &mut Vec<Entry>,
) -> Result<(), LexErr>
    requires few { length elements.now ≤ 1000 }
    requires no_names { names.old.keys ≡ [] }
    requires no_entries { entries.old.items ≡ [] }
    ensures ok { IfOk result
        (λ _.
        AreEntries (length (tiers_of_table grammar.now.tiers).input) grammar.now.letters.items
        (map view elements.entry.now) (entries_seen entries.new.items)) }
    ensures forms { IfOk result
        (λ _.
        All (λ entry. IsForm (tiers_of_table grammar.now.tiers) entry.form) entries.new.items) }
    ensures short { IfOk result (λ _. All (λ entry. length entry.form ≤ 64) entries.new.items) }
    ensures err { IfErr result
        (λ e. e ≢ LexErr.NoMemory
        → IsFirstEntryFault
        (length (tiers_of_table grammar.now.tiers).input) grammar.now.letters.items
        (map view elements.entry.now) e) }
{
    for (place, element) in elements.iter().enumerate() {
        let index = place as u32;
        let Some((name, word)) = entry_words(element) else {
            return Err(LexErr::BadEntry { index });
        };
        if names.contains(name.as_bytes()) {
            return Err(LexErr::TwiceNamed { index });
        }
        let form = read_word(alloc, grammar, index, word)?;
        names.insert(name.as_bytes())?;
        let name = String::from_str(alloc, name)?;
        entries.push(Entry { name, form })?;
    }
    Ok(())
}

/// The entries that elements give.
fn read_elements(alloc: Global, grammar: &Grammar, elements: &[Value]) -> Result<Vec<Entry>, LexErr>
    requires { length elements.now ≤ 1000 }
    ensures ok { IfOk result
        (λ entries.
        AreEntries (length (tiers_of_table grammar.now.tiers).input) grammar.now.letters.items
        (map view elements.now) (entries_seen entries.items)) }
    ensures forms { IfOk result
        (λ entries.
        All (λ entry. IsForm (tiers_of_table grammar.now.tiers) entry.form) entries.items) }
    ensures short { IfOk result (λ entries. All (λ entry. length entry.form ≤ 64) entries.items) }
    ensures err { IfErr result
        (λ e. e ≢ LexErr.NoMemory
        → IsFirstEntryFault
        (length (tiers_of_table grammar.now.tiers).input) grammar.now.letters.items
        (map view elements.now) e) }
{
    let mut names = IndexSet::new(alloc);
    let mut entries = Vec::new(alloc);
    push_elements(alloc, grammar, elements, &mut names, &mut entries)?;
    Ok(entries)
}

/// Reads the bytes of a lexicon file, whose forms are over the input tiers of the grammar.
///
/// The causes that concern the whole file are tried first, in this order.
///
/// - `NotToml`: the bytes are not UTF-8, or the text is not TOML.
/// - `BadEntry` with index 0: the key `entry` is present, and is not an array.
/// - `TooMany`: the array has more than 1,000 elements.
///
/// Then the first entry with a cause gives it. For one entry they are tried in this order.
///
/// - `BadEntry`: it is not a table, or `name` or `form` is absent or not a string, or the name is
///   not 1 to 64 bytes long, or has a byte below 32 or equal to 127.
/// - `TwiceNamed`: an earlier entry has its name.
/// - `BadForm`: its form is refused as the word of a form would be, for that cause.
///
/// If `entry` is absent there are no entries, and other keys are ignored. `NoMemory` may occur in
/// place of any answer.
pub fn read_lexicon(alloc: Global, grammar: &Grammar, bytes: &[u8]) -> Result<Vec<Entry>, LexErr>
    ensures ok { IfOk result
        (λ entries.
        IsLexicon
        (length (tiers_of_table grammar.now.tiers).input) grammar.now.letters.items bytes.now
        (entries_seen entries.items)) }

    // What the entries are fit for: names that distinguish them, and forms that the generator
    // takes.
    ensures few { IfOk result (λ entries. length entries.items ≤ 1000) }
    ensures names { IfOk result
        (λ entries. has_twice (names_of (entries_seen entries.items)) ≡ false) }
    ensures forms { IfOk result
        (λ entries.
        All (λ entry. IsForm (tiers_of_table grammar.now.tiers) entry.form) entries.items) }
    ensures short { IfOk result (λ entries. All (λ entry. length entry.form ≤ 64) entries.items) }

    // Each refusal has its cause.
    ensures err { IfErr result
        (λ e. e ≢ LexErr.NoMemory
        → IsLexiconCause
        (length
        (tiers_of_table grammar.now.tiers).input) grammar.now.letters.items bytes.now e) }
{
    let table = table_of(alloc, bytes)?;
    let Some(value) = entry_value(&table) else {
        return Ok(Vec::new(alloc));
    };
    let Some(elements) = value.as_array() else {
        return Err(LexErr::BadEntry { index: 0 });
    };
    if elements.len() > ENTRY_LIMIT {
        return Err(LexErr::TooMany);
    }
    read_elements(alloc, grammar, elements)
}
