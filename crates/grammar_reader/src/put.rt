ghost use Rattle.std.specs.Prelude.{map};
ghost use Rattle.std.specs.List.{flat_map};
ghost use Rattle.std.specs.String.{string_bytes};
ghost use Rattle.outside.specs.Writers.{Puts, Pushes};
ghost use Rattle.grammar_reader.specs.Canonical.{line_of_words, tier_lines, letter_lines, constraint_lines, canonical};
ghost use Rattle.grammar_reader.specs.Words.{spaced_word, word_text};
ghost use Rattle.grammar_reader.specs.Seen.{constraint_seen};
ghost use Rattle.grammar_reader.specs.Grammars.{value_of};
ghost use Rattle.grammar_reader.specs.NamedTiers.{named_tiers};

use crate::grammar::Grammar;
use crate::lines::{constraint_words, header_words, letter_words, tier_words};
use crate::words::Word;
use outside::{OutBuffer, Sink, WriteErr};
use tier_core::{Constraint, TierTable};
use timeline_text::Letter;

fn push_word<O: Sink>(out: &mut OutBuffer, sink: &mut O, word: &Word<'_>) -> Result<(), WriteErr>
    ensures { Pushes O.Sink sink.old sink.new out.old out.new (word_text word.now) result }
{
    out.push(sink, word.mark)?;
    out.push(sink, word.text)
}

fn push_spaced_word<O: Sink>(
    out: &mut OutBuffer,
    sink: &mut O,
    word: &Word<'_>,
) -> Result<(), WriteErr>
    ensures { Pushes O.Sink sink.old sink.new out.old out.new (spaced_word word.now) result }
{
    out.push(sink, b" ")?;
    push_word(out, sink, word)
}

/// Words, each after a space.
fn push_spaced<O: Sink>(
    out: &mut OutBuffer,
    sink: &mut O,
    words: &[Word<'_>],
) -> Result<(), WriteErr>
    ensures { Pushes O.Sink sink.old sink.new out.old out.new
        (flat_map spaced_word words.now) result }
{
    for word in words {
        push_spaced_word(out, sink, word)?;
    }
    Ok(())
}

/// A line: words with one space between them, and the line's end.
fn push_line<O: Sink>(out: &mut OutBuffer, sink: &mut O, words: &[Word<'_>]) -> Result<(), WriteErr>
    ensures { Pushes O.Sink sink.old sink.new out.old out.new
        (line_of_words (map word_text words.now)) result }
{
    let Some((first, others)) = words.split_first() else {
        return out.push(sink, b"\n");
    };
    push_word(out, sink, first)?;
    push_spaced(out, sink, others)?;
    out.push(sink, b"\n")
}

fn push_tiers<O: Sink>(out: &mut OutBuffer, sink: &mut O, tiers: &TierTable) -> Result<(), WriteErr>
    ensures { Pushes O.Sink sink.old sink.new out.old out.new
        (tier_lines (named_tiers tiers.now)) result }
{
    for (place, kind) in tiers.kinds.iter().enumerate() {
        let words = tier_words(tiers.names[place].as_bytes(), *kind);
        push_line(out, sink, words.as_slice())?;
    }
    Ok(())
}

fn push_letters<O: Sink>(
    out: &mut OutBuffer,
    sink: &mut O,
    tiers: &TierTable,
    letters: &[Letter],
) -> Result<(), WriteErr>
    ensures { Pushes O.Sink sink.old sink.new out.old out.new
        (letter_lines (named_tiers tiers.now) letters.now) result }
{
    for letter in letters {
        push_line(out, sink, letter_words(tiers, letter).as_slice())?;
    }
    Ok(())
}

fn push_constraints<O: Sink>(
    out: &mut OutBuffer,
    sink: &mut O,
    names: &[String],
    constraints: &[Constraint],
) -> Result<(), WriteErr>
    ensures { Pushes O.Sink sink.old sink.new out.old out.new
        (constraint_lines (map string_bytes names.now) (map constraint_seen constraints.now))
        result }
{
    for constraint in constraints {
        push_line(out, sink, constraint_words(names, constraint).as_slice())?;
    }
    Ok(())
}

/// Appends the canonical text of a grammar, as part of a longer text.
pub fn push_grammar<O: Sink>(
    out: &mut OutBuffer,
    sink: &mut O,
    grammar: &Grammar,
) -> Result<(), WriteErr>
    ensures { Pushes O.Sink sink.old sink.new out.old out.new
        (canonical (value_of grammar.now)) result }
{
    push_line(out, sink, header_words().as_slice())?;
    push_tiers(out, sink, &grammar.tiers)?;
    push_letters(out, sink, &grammar.tiers, &grammar.letters)?;
    push_constraints(out, sink, &grammar.tiers.names, &grammar.constraints)
}

/// Writes the canonical text of a grammar.
pub fn put_grammar<O: Sink>(sink: &mut O, grammar: &Grammar) -> Result<(), WriteErr>
    ensures { Puts O.Sink sink.old sink.new (canonical (value_of grammar.now)) result }
{
    let mut out = OutBuffer::new();
    push_grammar(&mut out, sink, grammar)?;
    out.flush(sink)
}
