//! Laws of the tokens of scripts. Each is the contract of a function that does nothing.
#![tactic(auto)]

ghost use Rattle.std.specs.Prelude.{◌≡◌, ℕ, List, false, map, Option, None};
ghost use Rattle.es5_ast.specs.Lexical.{Token5, Tokens5};
ghost use Rattle.es5_tokens.specs.declared.token.Token.{Token};
ghost use Rattle.es5_tokens.specs.declared.token.TokenFault.{TokenFault};
ghost use Rattle.es5_tokens.specs.Lexes.{LexesFrom};
ghost use Rattle.es5_tokens.specs.Tokens.{token5};

/// Where a text has tokens, reading it finds exactly them, and no fault. So a fault means that the text has none.
pub fn tokens_are_read()
    ensures { (text : List ℕ) (ts : List Token5) (tokens : List Token) (end : ℕ) (fault : Option TokenFault) → Tokens5 0 false text ts → LexesFrom false 0 text tokens end fault → (fault ≡ None) × (map token5 tokens ≡ ts) }
{}

/// No text has two lists of tokens.
pub fn one_token_list()
    ensures { (text : List ℕ) (a b : List Token5) → Tokens5 0 false text a → Tokens5 0 false text b → a ≡ b }
{}
