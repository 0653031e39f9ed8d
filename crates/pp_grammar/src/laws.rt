//! Laws of the functions that `parse` and `read_template` equal.

ghost use Rattle.std.specs.Prelude.{◌≡◌, ◌↔◌, ◌++◌, ℕ, List, Option, None, Ok, Err};
ghost use Rattle.pp_values.specs.declared.fault.Fault.{Fault};
ghost use Rattle.pp_lexer.specs.Seen.{Token};
ghost use Rattle.pp_tree.specs.declared.file.File.{File};
ghost use Rattle.pp_tree.specs.declared.template.Template.{Template};
ghost use Rattle.pp_parser.specs.declared.found.Found.{Found};
ghost use Rattle.pp_parser.specs.Manifest.{file_of};
ghost use Rattle.pp_parser.specs.Templates.{template_told};
ghost use Rattle.pp_grammar.specs.Laws.{Limit, everywhere, max_levels, file_at, a_template, IsFile, IsTree, IsRefused, IsFault, IsTemplateFault};

/// A text has a tree exactly where one stands there by the grammar, and tokens have one at most. The fault of a text stands
/// at the token with which no file goes on, or with which the limit of levels is passed, or where something stands a second
/// time. A text with a fault has no tree, and no other fault.
pub fn reads_the_grammar()
    ensures trees { (path text : List ℕ) (file : File) → (file_of path text ≡ Ok file) ↔ IsTree path text file }
    ensures one_tree { (limit : Limit) (path : List ℕ) (ts : List Token) (one other : Found) (d e : Option ℕ)
        → IsFile limit path ts one d → IsFile limit path ts other e → (one ≡ other) × (d ≡ e) }
    ensures faults { (path text : List ℕ) (fault : Fault) → file_of path text ≡ Err fault → IsFault path text fault }
    ensures no_tree { (path text : List ℕ) (fault : Fault) (file : File)
        → IsFault path text fault → IsTree path text file → Prim.⊥ }
    ensures one_place { (path : List ℕ) (front rest other behind : List Token) → front ++ rest ≡ other ++ behind
        → IsRefused (file_at path) front rest → IsRefused (file_at path) other behind → (front ≡ other) × (rest ≡ behind) }
    ensures one_fault { (path text : List ℕ) (fault other : Fault)
        → IsFault path text fault → IsFault path text other → fault ≡ other }
{}

/// Tokens have a template exactly where one stands there by the grammar with no key twice, and one at most. The fault of
/// tokens stands at the token with which no template goes on, or with which the limit of levels is passed, or at a key that
/// stands a second time. Tokens with a fault have no template, and no other fault.
pub fn reads_the_templates()
    ensures trees { (path : List ℕ) (end : ℕ) (ts : List Token) (t : Template)
        → (template_told path end ts ≡ Ok t) ↔ a_template (everywhere max_levels) ts t None }
    ensures one_tree { (limit : Limit) (ts : List Token) (one other : Template) (d e : Option ℕ)
        → a_template limit ts one d → a_template limit ts other e → (one ≡ other) × (d ≡ e) }
    ensures faults { (path : List ℕ) (end : ℕ) (ts : List Token) (fault : Fault)
        → template_told path end ts ≡ Err fault → IsTemplateFault path end ts fault }
    ensures no_tree { (path : List ℕ) (end : ℕ) (ts : List Token) (fault : Fault) (t : Template)
        → IsTemplateFault path end ts fault → a_template (everywhere max_levels) ts t None → Prim.⊥ }
    ensures one_place { (front rest other behind : List Token) → front ++ rest ≡ other ++ behind
        → IsRefused a_template front rest → IsRefused a_template other behind → (front ≡ other) × (rest ≡ behind) }
    ensures one_fault { (path : List ℕ) (end : ℕ) (ts : List Token) (fault other : Fault)
        → IsTemplateFault path end ts fault → IsTemplateFault path end ts other → fault ≡ other }
{}
