ghost use Rattle.std.specs.Prelude.{◌≡◌, ℕ, List};
ghost use Rattle.timeline_text.specs.declared.letter.Letter.{Letter};
ghost use Rattle.lexicon.specs.declared.lex_err.LexErr.{LexErr};
ghost use Rattle.lexicon.specs.Entries.{LexicalEntry};
ghost use Rattle.lexicon.specs.Lexicons.{HasLexicon, IsLexicon, IsLexiconCause};

/// Each file has exactly one of a lexicon and a cause.
pub fn each_file_has_one_lexicon()
    ensures some { (inputs : ℕ) (letters : List Letter) (bytes : List ℕ)
        → HasLexicon inputs letters bytes }
    ensures one_lexicon { (inputs : ℕ) (letters : List Letter) (bytes : List ℕ)
        (entries others : List LexicalEntry) → IsLexicon inputs letters bytes entries
        → IsLexicon inputs letters bytes others → entries ≡ others }
    ensures one_cause { (inputs : ℕ) (letters : List Letter) (bytes : List ℕ) (cause other : LexErr)
        → IsLexiconCause inputs letters bytes cause → IsLexiconCause inputs letters bytes other
        → cause ≡ other }
    ensures not_both { (inputs : ℕ) (letters : List Letter) (bytes : List ℕ)
        (entries : List LexicalEntry) (cause : LexErr) → IsLexicon inputs letters bytes entries
        → IsLexiconCause inputs letters bytes cause → ⊥ }
{}
