ghost use Rattle.std.specs.Prelude.{◌≡◌, ℕ, List, Option, String};
ghost use Rattle.std.specs.declared.alloc.Global.{Global};
ghost use Rattle.tier_core.specs.declared.sym.Sym.{Sym};
ghost use Rattle.grammar_reader.specs.Values.{GrammarValue};
ghost use Rattle.violation.specs.Problems.{Problem};
ghost use Rattle.cert_check.specs.Seen.{AreAskedAlike};
ghost use Rattle.cert_check.specs.declared.fault.Verdict.{Verdict};
ghost use Rattle.ranked_gen.specs.Budgets.{AreAllWithin, IsFirstOver};
ghost use Rattle.command_line.specs.Commands.{Command, IsCommand, generate, show};
ghost use Rattle.command_line.specs.Words.{words_of};
ghost use Rattle.form_reader.specs.Forms.{IsReadAs};
ghost use Rattle.otp_tool.specs.Answers.{IsJudged};
ghost use Rattle.otp_tool.specs.Asked.{TellsProblem, problem_of};
ghost use Rattle.otp_tool.specs.Findings.{Finding, Finds, over_budget, ready};
ghost use Rattle.otp_tool.specs.Grammars.{AreAsked, IsAsked, OnGrammar, grammar_inputs};
ghost use Rattle.otp_tool.specs.Outcomes.{Checks, IsTold, IsToldVerdict, MayRead};

/// What a grammar asks is told by its value and a form alone: the problem that is made of them is
/// asked, whatever name its constraints are given, and each that is asked is asked alike. The words
/// of a command give some name.
pub fn problems_are_made_of_values()
    ensures asked { (name : String Global) (g : GrammarValue) (word : List ℕ) (u : List (List Sym))
        → IsReadAs (grammar_inputs g) g.letters word u → IsAsked g word (problem_of name g u) }
    ensures with_each_form { (name : String Global) (g : GrammarValue)
        → AreAsked g (problem_of name g) }
    ensures alike { (name : String Global) (g : GrammarValue) (word : List ℕ) (problem : Problem)
        → IsAsked g word problem → AreAskedAlike problem (problem_of name g problem.form) }
    ensures some_name { (words : List (String Global)) (command : Command)
        → IsCommand (words_of words) command → String Global }
{}

/// A command finds one thing in its files. So it is told what it finds, if that is found in any
/// bytes that the shelf may hold.
pub fn one_thing_is_found()
    ensures one { (command : Command) (bytes second : List ℕ) (finding other : Finding)
        → Finds command bytes second finding → Finds command bytes second other → finding ≡ other }
    ensures told { (words : List (List ℕ)) (held : List ℕ → Option (List ℕ)) (command : Command)
        (finding : Finding) → IsCommand words command
        → ((bytes second : List ℕ) → MayRead words held command bytes second
        → Finds command bytes second finding)
        → IsTold words held finding }
{}

/// The bytes of an answer have one status of a verdict. So it is told, if one with this status is
/// the verdict on an answer that they are read as, whatever bytes the shelf may hold.
pub fn one_status_is_settled()
    ensures { (words : List (List ℕ)) (held : List ℕ → Option (List ℕ)) (command : Command)
        (verdict : Verdict) → IsCommand words command → Checks command
        → ((bytes second : List ℕ) → MayRead words held command bytes second
        → OnGrammar (λ g. IsJudged g second verdict) bytes)
        → IsToldVerdict words held verdict }
{}

/// If the shelf tells the bytes of the grammar's file, it is told what `generate` and `show` find
/// for a form: that all is ready if no stage of the problem has more kinds than the budget, and the
/// first stage that has more if there is one. No lists of kinds are needed for the first.
pub fn budgets_are_told()
    ensures generate_ready { (words : List (String Global)) (held : List ℕ → Option (List ℕ))
        (file form : List ℕ) (budget : ℕ) (g : GrammarValue) (u : List (List Sym))
        → IsCommand (words_of words) (generate file form budget) → TellsProblem held file form g u
        → ((name : String Global) → AreAllWithin (problem_of name g u) budget)
        → IsTold (words_of words) held ready }
    ensures generate_over { (words : List (String Global)) (held : List ℕ → Option (List ℕ))
        (file form : List ℕ) (budget stage : ℕ) (g : GrammarValue) (u : List (List Sym))
        → IsCommand (words_of words) (generate file form budget) → TellsProblem held file form g u
        → ((name : String Global) → IsFirstOver (problem_of name g u) budget stage)
        → IsTold (words_of words) held (over_budget 0 stage) }
    ensures show_ready { (words : List (String Global)) (held : List ℕ → Option (List ℕ))
        (file form : List ℕ) (budget : ℕ) (g : GrammarValue) (u : List (List Sym))
        → IsCommand (words_of words) (show file form budget) → TellsProblem held file form g u
        → ((name : String Global) → AreAllWithin (problem_of name g u) budget)
        → IsTold (words_of words) held ready }
    ensures show_over { (words : List (String Global)) (held : List ℕ → Option (List ℕ))
        (file form : List ℕ) (budget stage : ℕ) (g : GrammarValue) (u : List (List Sym))
        → IsCommand (words_of words) (show file form budget) → TellsProblem held file form g u
        → ((name : String Global) → IsFirstOver (problem_of name g u) budget stage)
        → IsTold (words_of words) held (over_budget 0 stage) }
{}
