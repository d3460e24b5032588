ghost use Rattle.std.specs.Prelude.{◌≡◌, ◌≤◌, ◌↔◌, length, Ok};
ghost use Rattle.grammar_reader.specs.declared.grammar.Grammar.{Grammar};
ghost use Rattle.grammar_reader.specs.Canonical.{canonical};
ghost use Rattle.grammar_reader.specs.Grammars.{value_of};
ghost use Rattle.grammar_reader.specs.Reading.{grammar_of};

/// The canonical text of a grammar is read as that grammar again: it is short enough for
/// [`crate::read_grammar`], and none of its lines has a cause. So grammars with the same canonical
/// text have the same value.
pub fn canonical_is_read_again()
    ensures value { (grammar : Grammar)
        → grammar_of (canonical (value_of grammar)) ≡ Ok (value_of grammar) }
    ensures short { (grammar : Grammar) → length (canonical (value_of grammar)) ≤ 65536 }
    ensures alike { (g h : Grammar) → canonical (value_of g) ≡ canonical (value_of h)
        ↔ value_of g ≡ value_of h }
{}
