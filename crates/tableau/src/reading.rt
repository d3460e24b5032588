ghost use Rattle.std.specs.Prelude.{◌≡◌, ℕ, List};
ghost use Rattle.std.specs.Str.Lines.{lines};
ghost use Rattle.tier_core.specs.declared.sym.Sym.{Sym};
ghost use Rattle.violation.specs.Problems.{Problem};
ghost use Rattle.tableau.specs.declared.rows_err.RowsCause.{RowsCause};
ghost use Rattle.tableau.specs.Rows.{AreRowsOf, HasRows, IsRefusedAt};

use timeline_text::each_text_has_one_reading;

/// Each text has exactly one of rows and a line with a cause.
pub fn each_rows_text_has_one_reading()
    ensures some { (problem : Problem) (bytes : List ℕ) → HasRows problem (lines bytes) }
    ensures one_value { (problem : Problem) (bytes : List ℕ) (rows others : List (List (List Sym)))
        → AreRowsOf problem (lines bytes) rows → AreRowsOf problem (lines bytes) others
        → rows ≡ others }
    ensures one_cause { (problem : Problem) (bytes : List ℕ) (m n : ℕ) (e f : RowsCause)
        → IsRefusedAt problem (lines bytes) m e → IsRefusedAt problem (lines bytes) n f
        → (m ≡ n) × (e ≡ f) }
    ensures not_both { (problem : Problem) (bytes : List ℕ) (rows : List (List (List Sym))) (n : ℕ)
        (e : RowsCause) → AreRowsOf problem (lines bytes) rows
        → IsRefusedAt problem (lines bytes) n e → ⊥ }
{
    each_text_has_one_reading();
}
