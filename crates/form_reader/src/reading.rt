ghost use Rattle.std.specs.Prelude.{◌≡◌, ℕ, List};
ghost use Rattle.tier_core.specs.declared.sym.Sym.{Sym};
ghost use Rattle.timeline_text.specs.declared.form_err.FormErr.{FormErr};
ghost use Rattle.timeline_text.specs.declared.letter.Letter.{Letter};
ghost use Rattle.form_reader.specs.Forms.{HasFormOrCause, IsReadAs, IsRefusedFor};

/// Each word has exactly one of a form and a cause.
pub fn each_word_has_one_form()
    ensures some { (inputs : ℕ) (letters : List Letter) (word : List ℕ)
        → HasFormOrCause inputs letters word }
    ensures one_form { (inputs : ℕ) (letters : List Letter) (word : List ℕ) (u v : List (List Sym))
        → IsReadAs inputs letters word u → IsReadAs inputs letters word v → u ≡ v }
    ensures one_cause { (inputs : ℕ) (letters : List Letter) (word : List ℕ) (e f : FormErr)
        → IsRefusedFor inputs letters word e → IsRefusedFor inputs letters word f → e ≡ f }
    ensures not_both { (inputs : ℕ) (letters : List Letter) (word : List ℕ) (u : List (List Sym))
        (e : FormErr) → IsReadAs inputs letters word u → IsRefusedFor inputs letters word e
        → ⊥ }
{}
