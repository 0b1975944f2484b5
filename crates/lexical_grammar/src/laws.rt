//! The laws.

ghost use Rattle.std.specs.Prelude.{◌≡◌, ◌↔◌, ℕ, List, ◌∷◌, true, false};
ghost use Rattle.es6_lexer.specs.declared.shape.Element.{Element};
ghost use Rattle.es6_lexer.specs.declared.token.Token.{Token};
ghost use Rattle.es6_lexer.specs.Classes.{is_quote};
ghost use Rattle.es6_lexer.specs.Elements.{word_element};
ghost use Rattle.es6_lexer.specs.Lexes.{Lexes};
ghost use Rattle.es6_lexer.specs.Numbers.{number_element};
ghost use Rattle.es6_lexer.specs.Punctuators.{punctuator_element};
ghost use Rattle.es6_lexer.specs.Quoted.{block_comment, template_element, text_element};
ghost use Rattle.lexical_grammar.specs.Grammar.{IsComment, IsPunctuator, IsTemplate, IsText, IsWordOrFault};
ghost use Rattle.lexical_grammar.specs.Literals.{IsNumber};
ghost use Rattle.lexical_grammar.specs.Tokens.{IsRowOf};

/// What is read at a quote is exactly the string literal of the grammar, or the fault that stops
/// it.
pub fn texts()
    ensures { (quote : ℕ) (rest : List ℕ) (e : Element) → is_quote quote ≡ true → (text_element (quote ∷ rest) ≡ e) ↔ IsText quote 1 rest e }
{}

/// What is read at a `` ` `` or a `}` is exactly the stretch of a template, or the fault that
/// stops it.
pub fn templates()
    ensures { (first : ℕ) (rest : List ℕ) (e : Element) → (template_element (first ∷ rest) ≡ e) ↔ IsTemplate 1 rest e }
{}

/// What is read at the start of an identifier is exactly the longest one, or the fault of an
/// escape in it.
pub fn words()
    ensures { (first : ℕ) (rest : List ℕ) (e : Element) → (word_element (first ∷ rest) ≡ e) ↔ IsWordOrFault rest e }
{}

/// What is read where a punctuator may stand is exactly the longest one that is spelled there.
pub fn punctuators()
    ensures { (rest : List ℕ) (e : Element) → (punctuator_element rest ≡ e) ↔ IsPunctuator rest e }
{}

/// What is read at a `/*` ends exactly with the first `*/`.
pub fn comments()
    ensures { (first second : ℕ) (rest : List ℕ) (e : Element) → (block_comment (first ∷ second ∷ rest) ≡ e) ↔ IsComment 2 false rest e }
{}

/// What is read where a number begins is exactly the literal of the grammar, or the fault that
/// stops it.
pub fn numbers()
    ensures { (rest : List ℕ) (e : Element) → (number_element rest ≡ e) ↔ IsNumber rest e }
{}

/// The tokens that `lex6` gives are exactly the row of gaps and tokens, each by its production, up
/// to the end of the text or its first fault.
pub fn tokens()
    ensures { (text : List ℕ) (tokens : List Token) → Lexes text tokens ↔ IsRowOf tokens text }
{}

/// No text is two rows of gaps and tokens.
pub fn one_row()
    ensures { (text : List ℕ) (a b : List Token) → IsRowOf a text → IsRowOf b text → a ≡ b }
{}
