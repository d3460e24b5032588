ghost use Rattle.std.specs.Prelude.{◌≡◌, ℕ, List};
ghost use Rattle.tier_core.specs.declared.shape.Shape.{Shape};
ghost use Rattle.answer_reader.specs.declared.answer_err.AnswerCause.{AnswerCause};
ghost use Rattle.answer_reader.specs.Reading.{HasReading, IsFirstCause, IsTextOf};
ghost use Rattle.answer_text.specs.Values.{AnswerValue, answer_value};
ghost use Rattle.answer_text.specs.declared.answer.Answer.{Answer};
ghost use Rattle.answer_text.specs.Orderly.{IsOrderly};
ghost use Rattle.answer_text.specs.Shape.{widths_of};
ghost use Rattle.answer_text.specs.Text.{answer_text};

/// Each text has exactly one of an answer's value and a first cause, with its line.
pub fn each_text_has_one_reading()
    ensures some { (shape : Shape) (bytes : List ℕ) → HasReading shape bytes }
    ensures one_value { (shape : Shape) (bytes : List ℕ) (v w : AnswerValue)
        → IsTextOf shape bytes v → IsTextOf shape bytes w → v ≡ w }
    ensures one_cause { (shape : Shape) (bytes : List ℕ) (k l : ℕ) (e f : AnswerCause)
        → IsFirstCause shape bytes k e → IsFirstCause shape bytes l f → (k ≡ l) × (e ≡ f) }
    ensures not_both { (shape : Shape) (bytes : List ℕ) (v : AnswerValue) (k : ℕ)
        (e : AnswerCause) → IsTextOf shape bytes v → IsFirstCause shape bytes k e → ⊥ }
{}

/// The text of an orderly answer has no cause, and is read as the answer's value.
pub fn written_is_read_again()
    ensures { (shape : Shape) (answer : Answer) → IsOrderly shape answer
        → IsTextOf shape (answer_text (widths_of shape) answer) (answer_value shape answer) }
{}
