//! Texts whose tokens and faults are known, by the tables and sections of the standard.

ghost use Rattle.std.specs.Prelude.{◌≤◌, length};

use es6_lexer::{NumberToken, Token, TokenKind, lex6};
use std::alloc::{AllocError, Global};
use std::process::Abort;
use std::test::Fail;

fn show_units(shown: &mut String, units: &[u16]) -> Result<(), AllocError> {
    for unit in units {
        write!(shown, "{unit:x},")?;
    }
    Ok(())
}

fn show_kind(shown: &mut String, kind: &TokenKind) -> Result<(), AllocError> {
    match kind {
        TokenKind::Word(name) => shown.push_str(str::from_utf8(name.bytes()).unwrap_or("?")),
        TokenKind::Punctuator(punctuator) => write!(shown, "{punctuator:?}"),
        TokenKind::Number(NumberToken::Whole(value)) => write!(shown, "{value}"),
        TokenKind::Number(NumberToken::TooLarge) => shown.push_str("large"),
        TokenKind::Number(NumberToken::Marked) => shown.push_str("marked"),
        TokenKind::Text(units) => {
            shown.push_str("text:")?;
            show_units(shown, units.units())
        }
        TokenKind::Template {
            cooked,
            raw,
            first,
            last,
        } => {
            write!(shown, "{first}-{last}:")?;
            show_units(shown, cooked.units())?;
            shown.push_str("/")?;
            show_units(shown, raw.units())
        }
        TokenKind::Fault(kind) => write!(shown, "{kind:?}"),
        TokenKind::End => shown.push_str("End"),
    }
}

/// A mark where a line terminator stands before, the offset, and what the token is.
fn show_token(shown: &mut String, token: &Token) -> Result<(), AllocError> {
    let begin = token.span.begin;
    if token.newline {
        shown.push_str("^")?;
    }
    write!(shown, "{begin}")?;
    shown.push_str("=")?;
    show_kind(shown, &token.kind)?;
    shown.push_str(" ")
}

fn shown(alloc: Global, text: &str) -> Result<String, AllocError>
    requires { length text.now ≤ 4194304 }
{
    let tokens = lex6(alloc, text.as_bytes())?;
    let mut shown = String::new(alloc);
    for token in &tokens {
        show_token(&mut shown, token)?;
    }
    Ok(shown)
}

fn check(rt: &(impl AllocGlobal + Abort), text: &str, expected: &str) -> Result<(), Fail>
    requires { length text.now ≤ 4194304 }
{
    let shown = shown(rt.alloc(), text)?;
    assert_eq!(rt; shown.as_str(), expected);
    Ok(())
}

#[test]
fn words_and_gaps(rt: HostRuntime) -> Result<(), Fail> {
    check(&rt, "", "0=End ")?;
    check(&rt, "let $x_1", "0=let 4=$x_1 8=End ")?;
    check(&rt, "\u{FEFF}a\u{2003}b", "3=a 7=b 8=End ")?;
    check(&rt, "a/*\n*/b//c\r\nd/**/ /***/", "0=a ^6=b ^12=d 23=End ")?;
    check(
        &rt,
        "\u{E9}\u{200D}\u{2028}x",
        "0=\u{E9}\u{200D} ^8=x 9=End ",
    )
}

#[test]
fn longest_punctuators(rt: HostRuntime) -> Result<(), Fail> {
    check(&rt, ">>>>=", "0=ShiftRightUnsigned 3=GreaterOrEqual 5=End ")?;
    check(&rt, "a....b", "0=a 1=Ellipsis 4=Dot 5=b 6=End ")?;
    check(&rt, "..", "0=Dot 1=Dot 2=End ")?;
    check(&rt, "**=*", "0=StarStarAssign 3=Star 4=End ")?;
    check(&rt, "<!--", "0=LessThan 1=Exclamation 2=MinusMinus 4=End ")?;
    check(&rt, "!===", "0=StrictNotEquals 3=Assign 4=End ")
}

#[test]
fn numbers(rt: HostRuntime) -> Result<(), Fail> {
    check(&rt, "0 0x1F 0B101 0o17", "0=0 2=31 7=5 13=15 17=End ")?;
    check(&rt, "9007199254740991", "0=9007199254740991 16=End ")?;
    check(&rt, "9007199254740992", "0=large 16=End ")?;
    check(
        &rt,
        "1..a .5 1e-3",
        "0=marked 2=Dot 3=a 5=marked 8=marked 12=End ",
    )?;
    check(&rt, "00", "0=LegacyOctal ")?;
    check(&rt, "a 08.5", "0=a 2=LegacyOctal ")?;
    check(&rt, "0x", "0=BadNumber ")?;
    check(&rt, "1 0b12", "0=1 2=BadNumber ")?;
    check(&rt, "3in", "0=BadNumber ")
}

#[test]
fn texts(rt: HostRuntime) -> Result<(), Fail> {
    check(&rt, "\"a'\"", "0=text:61,27, 4=End ")?;
    check(
        &rt,
        "'\\b\\v\\0\\q\\'\\\r\nz'",
        "0=text:8,b,0,71,27,7a, 16=End ",
    )?;
    check(
        &rt,
        "'\\x4f\\u00e9\\u{1F600}'",
        "0=text:4f,e9,d83d,de00, 21=End ",
    )?;
    check(&rt, "x = 'a\n'", "0=x 2=Assign 4=OpenString ")?;
    check(&rt, "'a\\xg'", "2=BadEscape ")?;
    check(&rt, "'\\u{110000}'", "1=BadEscape ")?;
    check(&rt, "'\\01'", "1=LegacyOctal ")?;
    check(&rt, "'\\8'", "1=LegacyOctal ")
}

#[test]
fn templates(rt: HostRuntime) -> Result<(), Fail> {
    check(&rt, "`a\r\n\r`", "0=true-true:61,a,a,/61,a,a, 6=End ")?;
    check(
        &rt,
        "`\\n${ {} }$b`",
        "0=true-false:a,/5c,6e, 6=LeftBrace 7=RightBrace 9=false-true:24,62,/24,62, 13=End ",
    )?;
    check(
        &rt,
        "`${a}`}",
        "0=true-false:/ 3=a 4=false-true:/ 6=RightBrace 7=End ",
    )?;
    check(&rt, "a `b", "0=a 2=OpenTemplate ")
}

#[test]
fn other_faults(rt: HostRuntime) -> Result<(), Fail> {
    check(&rt, "a\n#", "0=a ^2=BadCharacter ")?;
    check(&rt, "\u{E9} \\u0061", "0=\u{E9} 3=IdentifierEscape ")?;
    check(&rt, "1 ab\\u0061", "0=1 4=IdentifierEscape ")?;
    check(&rt, "a /* b", "0=a 2=OpenComment ")
}
