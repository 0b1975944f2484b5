//! The text of a module, and its tokens.

ghost use Rattle.std.specs.Prelude.{◌≡◌, ◌≤◌, length, IfErr, IfOk, IsUtf8};
ghost use Rattle.std.specs.Str.{chars};
ghost use Rattle.module_linker.specs.module_checks.Faults.{Refuses};
ghost use Rattle.module_linker.specs.module_checks.Reading.{IsLexed};

use crate::module_checks::fault::ModuleFault;
use es_text::Lines;
use es6_lexer::{Token, lex6};
use std::alloc::Global;

/// The most bytes of a module.
const MOST_BYTES: usize = 4_194_304;

/// A module's text: the places in it, and its tokens.
#[derive(Drop)]
pub struct Text {
    pub lines: Lines,
    pub tokens: Vec<Token>,
}

/// The text of a module's bytes, if there aren't too many and they are UTF-8.
pub fn text_of(alloc: Global, bytes: &[u8]) -> Result<Text, ModuleFault>
    ensures lexed { IfOk result (λ text. IsLexed bytes.now text.tokens.items) }
    ensures lines { IfOk result (λ text. text.lines ≡ chars bytes.now) }
    ensures fault { IfErr result (λ fault. Refuses bytes.now fault) }
{
    if bytes.len() > MOST_BYTES {
        return Err(ModuleFault::FileTooLong);
    }
    let lines = lines_of(alloc, bytes)?;
    let tokens = lex6(alloc, bytes)?;
    Ok(Text { lines, tokens })
}

fn lines_of(alloc: Global, bytes: &[u8]) -> Result<Lines, ModuleFault>
    requires { length bytes.now ≤ 4194304 }
    ensures lines { IfOk result (λ lines. lines ≡ chars bytes.now) }
    ensures utf8 { IfOk result (λ _. IsUtf8 bytes.now) }
    ensures fault { IfErr result (λ fault. Refuses bytes.now fault) }
{
    Ok(Lines::of(alloc, bytes)?)
}
