ghost use Rattle.std.specs.Prelude.{◌≡◌, ℕ, List};
ghost use Rattle.tier_core.specs.declared.sym.Sym.{Sym};
ghost use Rattle.timeline_text.specs.declared.form_err.FormErr.{FormErr};
ghost use Rattle.timeline_text.specs.declared.letter.Letter.{Letter};
ghost use Rattle.timeline_text.specs.Texts.{IsTextOf, text_of};
ghost use Rattle.timeline_text.specs.Causes.{IsCause};
ghost use Rattle.timeline_text.specs.Spelling.{IsSpelledBy, IsSpellingCause};
ghost use Rattle.timeline_text.specs.Readings.{HasReading, HasSpelling};

/// Each text has either a timeline or a cause, and only one of them.
pub fn each_text_has_one_reading()
    ensures some { (width limit : ℕ) (bytes : List ℕ) → HasReading width limit bytes }
    ensures one_value { (width limit : ℕ) (bytes : List ℕ) (T U : List (List Sym))
        → IsTextOf width limit bytes T → IsTextOf width limit bytes U → T ≡ U }
    ensures one_cause { (width limit : ℕ) (bytes : List ℕ) (e f : FormErr)
        → IsCause width limit bytes e → IsCause width limit bytes f → e ≡ f }
    ensures not_both { (width limit : ℕ) (bytes : List ℕ) (T : List (List Sym)) (e : FormErr)
        → IsTextOf width limit bytes T → IsCause width limit bytes e → ⊥ }
{}

/// If no cause is found in the text of a timeline, it is read as the same timeline.
pub fn written_is_read_again()
    ensures { (width limit : ℕ) (T : List (List Sym))
        → ((e : FormErr) → ¬ IsCause width limit (text_of T) e)
        → IsTextOf width limit (text_of T) T }
{}

/// Each word of letters has either a form or a cause, and only one of them.
pub fn each_word_has_one_spelling()
    ensures some { (letters : List Letter) (inputs : ℕ) (bytes : List ℕ)
        → HasSpelling letters inputs bytes }
    ensures one_value { (letters : List Letter) (inputs : ℕ) (bytes : List ℕ)
        (T U : List (List Sym)) → IsSpelledBy letters inputs bytes T
        → IsSpelledBy letters inputs bytes U → T ≡ U }
    ensures one_cause { (letters : List Letter) (bytes : List ℕ) (e f : FormErr)
        → IsSpellingCause letters bytes e → IsSpellingCause letters bytes f → e ≡ f }
    ensures not_both { (letters : List Letter) (inputs : ℕ) (bytes : List ℕ) (T : List (List Sym))
        (e : FormErr) → IsSpelledBy letters inputs bytes T → IsSpellingCause letters bytes e
        → ⊥ }
{}
