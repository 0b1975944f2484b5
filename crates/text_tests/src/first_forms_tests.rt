//! What the reader makes of texts, with trees and places worked out by hand.
use first_forms::{ReadFault, Token, TokenKind, read_module, tokens};
use first_trees::{Call, DeclarationKind, Expression, Item, Module, Sum, Term};
use shared_text::Name;
use sqlite_items::Items;
use std::alloc::{AllocError, Global};
use std::test::Fail;

const ROW: &str =
    "import { print, count } from \"host\";\nconst a = count(); let b = a + \"x\"; print(b, 1 + 2);\n";

fn host_names(alloc: Global) -> Result<Items<Name>, AllocError> {
    let mut names = Items::new(alloc);
    names.push(Name::of_bytes(alloc, b"print")?)?;
    names.push(Name::of_bytes(alloc, b"count")?)?;
    Ok(names)
}

fn read(alloc: Global, text: &str) -> Result<Result<Module, ReadFault>, Fail> {
    if text.len() >= 1 << 32 {
        return Err(Fail::from("the text is too long"));
    }
    let tokens = tokens(alloc, text.as_bytes())?;
    let hosts = host_names(alloc)?;
    Ok(read_module(alloc, tokens.as_slice(), hosts.as_slice()))
}

fn push_name(out: &mut String, name: &Name) -> Result<(), Fail> {
    let text = std::str::from_utf8(name.bytes()).map_err(|_| "a name that is no text")?;
    out.push_str(text)?;
    Ok(())
}

fn push_term(out: &mut String, term: &Term) -> Result<(), Fail> {
    match term {
        Term::Integer { at, value } => write!(out, "{value}@{at}")?,
        Term::Text { at, units } => {
            let len = units.units().len();
            write!(out, "text of {len}@{at}")?
        }
        Term::Name { at, name } => {
            push_name(out, name)?;
            write!(out, "@{at}")?
        }
    }
    Ok(())
}

fn push_sum(out: &mut String, sum: &Sum) -> Result<(), Fail> {
    push_term(out, &sum.first)?;
    for term in sum.rest.as_slice() {
        out.push_str(" + ")?;
        push_term(out, term)?;
    }
    Ok(())
}

fn push_call(out: &mut String, call: &Call) -> Result<(), Fail> {
    push_name(out, &call.callee)?;
    let at = call.at;
    write!(out, "@{at}(")?;
    for sum in call.args.as_slice() {
        push_sum(out, sum)?;
        out.push_str(";")?;
    }
    out.push_str(")")?;
    Ok(())
}

fn push_item(out: &mut String, item: &Item) -> Result<(), Fail> {
    match item {
        Item::Import { names } => {
            out.push_str("import")?;
            for name in names.as_slice() {
                out.push_str(" ")?;
                push_name(out, name)?;
            }
        }
        Item::Declaration { kind, name, init } => {
            out.push_str(match kind {
                DeclarationKind::Let => "let ",
                DeclarationKind::Const => "const ",
            })?;
            push_name(out, name)?;
            out.push_str(" = ")?;
            match init {
                Expression::Sum(sum) => push_sum(out, sum)?,
                Expression::Call(call) => push_call(out, call)?,
            }
        }
        Item::Expression(call) => push_call(out, call)?,
    }
    out.push_str("\n")?;
    Ok(())
}

#[test]
fn reads_the_tree(rt: HostRuntime) -> Result<(), Fail> {
    let module = read(rt.alloc(), ROW)?.map_err(|_| "refused")?;
    let mut out = String::new(rt.alloc());
    for item in module.items.as_slice() {
        push_item(&mut out, item)?;
    }
    let want =
        "import print count\nconst a = count@47()\nlet b = a@64 + text of 1@68\nprint@73(b@79;1@82 + 2@86;)\n";
    assert_eq!(rt; out.as_str(), want);
    Ok(())
}

#[test]
fn accepts_each_form(rt: HostRuntime) -> Result<(), Fail> {
    for text in [
        "",
        " \n",
        "let a=9007199254740991;",
        "let import_ = 0; const $ = import_ + \"\" + 1;",
        "import{print}from\"host\";print();print(1,\"a\"+2);let p=print(1);print(p);",
    ] {
        let is_read = read(rt.alloc(), text)?.is_ok();
        assert!(rt; is_read, "{text}");
    }
    Ok(())
}

/// The reader stops just behind the front of each of these texts.
#[test]
fn refuses_at_the_first_wrong_token(rt: HostRuntime) -> Result<(), Fail> {
    for (front, rest) in [
        ("import { print } from \"host\";\nprint(1 ", "* 2);"),
        ("let a = 1; let ", "a = 2;"),
        ("let a = ", "a;"),
        ("let a = ", "9007199254740992;"),
        ("let a = ", "01;"),
        ("let a = ", "\"x\\n\";"),
        ("let a = ", "\"x"),
        ("let a = 1", ""),
        ("let a = 1 ", "2;"),
        ("let ", "static = 1;"),
        ("let ", "eval = 1;"),
        ("", "var a;"),
        ("", "#"),
        ("", "print();"),
        ("import { ", "log } from \"host\";"),
        ("import { print, ", "print } from \"host\";"),
        ("import { print, count ", ", a } from \"host\";"),
        ("import { print } from ", "\"hosts\";"),
        (
            "import { print } from \"host\"; ",
            "import { count } from \"host\";",
        ),
        ("import { print } from \"host\"; let ", "print = 1;"),
        ("import { print } from \"host\"; print(1, ", ");"),
        ("import { print } from \"host\"; print(1, 2) ", "+ 1;"),
        ("import { print } from \"host\"; let a = print() ", "+ 1;"),
    ] {
        let text = format!(in rt.alloc(); "{front}{rest}")?;
        let at = match read(rt.alloc(), text.as_str())? {
            Err(ReadFault::NotBuilt { at }) => u64::from(at),
            _ => u64::MAX,
        };
        assert_eq!(rt; at, front.len() as u64, "{text}");
    }
    Ok(())
}

#[test]
fn no_host_no_import(rt: HostRuntime) -> Result<(), Fail> {
    let tokens = tokens(rt.alloc(), b"import { print } from \"host\";")?;
    let fault = read_module(rt.alloc(), tokens.as_slice(), &[]).err();
    assert_eq!(rt; fault, Some(ReadFault::NotBuilt { at: 0 }));
    Ok(())
}

#[test]
fn names_and_digits_are_longest(rt: HostRuntime) -> Result<(), Fail> {
    let tokens = tokens(rt.alloc(), b"let lets$1 10a\"b\"")?;
    let mut places = String::new(rt.alloc());
    for token in tokens.as_slice() {
        let at = token.at;
        write!(places, "{at}{} ", kind_letter(token))?;
    }
    assert_eq!(rt; places.as_str(), "0n 4n 11i 13n 14t 17e ");
    Ok(())
}

fn kind_letter(token: &Token) -> char {
    match token.kind {
        TokenKind::Name(_) => 'n',
        TokenKind::Integer(_) => 'i',
        TokenKind::Text(_) => 't',
        TokenKind::End => 'e',
        _ => '?',
    }
}
