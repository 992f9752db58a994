//! Laws over definitions: functions with empty bodies, whose clauses are the laws.
ghost use Rattle.std.specs.Prelude.{◌≡◌, ℕ, List, [], true, None, Ok, All, length};
ghost use Rattle.lw_laws.specs.Expressions.{Expr};
ghost use Rattle.lw_genlib.specs.declared.token.Token.{Token};
ghost use Rattle.lw_genlib.specs.Functions.{IsText, Says, pins_in, first_fault};
ghost use Rattle.lw_genlib.specs.Grammar.{SpellsSum, go_on};
ghost use Rattle.lw_genlib.specs.Merging.{name_first};
ghost use Rattle.lw_genlib.specs.Spelled.{expression_of, inner_of};
ghost use Rattle.lw_words.specs.Lines.{LogicalLine};
ghost use Rattle.lw_genlib.specs.Cells.{CellParts, IsLibrary, IsWord};
ghost use Rattle.lw_genlib.specs.Libraries.{library_of};
ghost use Rattle.lw_words.specs.Limits.{longest_word};

/// The text of a function in which no token has a fault is the output's name, `=`, tokens and `;`,
/// and by the grammar those tokens spell the expression that is read from them, over the pins in
/// the order in which they first stand.
pub fn functions_say_what_is_read()
    ensures { (tokens : List Token) (lines : List ℕ) → IsText tokens →
        length lines ≡ length tokens → first_fault [] lines tokens ≡ None →
        Says tokens (name_first tokens) (pins_in tokens)
        (expression_of (pins_in tokens) (inner_of tokens)) }
{}

/// Tokens that may stand one after the other spell, by the grammar, the expression that is read
/// from them.
pub fn what_is_read_is_spelled()
    ensures { (pins : List (List ℕ)) (tokens : List Token) → go_on true 0 tokens ≡ true →
        SpellsSum pins tokens (expression_of pins tokens) }
{}

/// Tokens that spell an expression by the grammar may stand one after the other.
pub fn spelled_tokens_go_on()
    ensures { (pins : List (List ℕ)) (tokens : List Token) (e : Expr) → SpellsSum pins tokens e →
        go_on true 0 tokens ≡ true }
{}

/// Tokens spell at most one expression.
pub fn tokens_spell_one_expression()
    ensures { (pins : List (List ℕ)) (tokens : List Token) (e f : Expr) → SpellsSum pins tokens e →
        SpellsSum pins tokens f → e ≡ f }
{}

/// The cells that are read from lines of words are a library.
pub fn read_cells_are_a_library()
    ensures { (lines : List LogicalLine) (cells : List CellParts) →
        All (λ (line : LogicalLine). All (IsWord longest_word) line.words) lines →
        library_of lines ≡ Ok cells → IsLibrary cells }
{}
