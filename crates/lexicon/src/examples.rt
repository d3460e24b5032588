//! Worked examples of the definitions. The functions do nothing: each says by its contract what a
//! definition gives on a small text, and the check computes it.

ghost use Rattle.std.specs.Prelude.{◌≡◌, ◌++◌, [], ◌∷◌, Some, None, true, false, codes, option_map, replicate};
ghost use Rattle.toml.specs.Parse.{parse_document};
ghost use Rattle.lexicon.specs.Elements.{elements_of, is_entry_name};
ghost use Rattle.lexicon.specs.Examples.{written_in};

/// Entries write their names and the words of their forms, and other keys are ignored.
pub fn what_entries_write()
    ensures { written_in
        (codes "[[entry]]\nname = 'one'\nform = '[ ]'\ngloss = 'passed over'\n[[entry]]\nform = '=ta'\nname = 'two'\n[other]\n") ≡ Some (Some (codes "one", codes "[ ]") ∷ Some (codes "two", codes "=ta") ∷ []) }
{}

/// Elements that write nothing: one that is not a table, one with no form, one whose name is not a
/// string, and one with no name.
pub fn what_writes_nothing()
    ensures { written_in
        (codes "entry = [1, {name = 'a'}, {name = 1, form = ''}, {name = '', form = ''}]")
        ≡ Some (None ∷ None ∷ None ∷ None ∷ []) }
{}

/// If the key is absent there are no elements, and if it does not hold an array there is no list.
pub fn what_stands_under_the_key()
    ensures absent { written_in (codes "title = 'none'") ≡ Some [] }
    ensures table { option_map elements_of (parse_document (codes "[entry]\nname = 'one'"))
        ≡ Some None }
    ensures refused { parse_document (codes "x = ") ≡ None }
{}

/// Names have 1 to 64 bytes, none of them below 32 or equal to 127.
pub fn names_and_their_limit()
    ensures word { is_entry_name (codes "one two") ≡ true }
    ensures empty { is_entry_name [] ≡ false }
    ensures long { is_entry_name (replicate 64 110) ≡ true }
    ensures too_long { is_entry_name (replicate 65 110) ≡ false }
    ensures tab { is_entry_name (codes "a\tb") ≡ false }
    ensures deleted { is_entry_name (codes "a" ++ 127 ∷ []) ≡ false }
{}
