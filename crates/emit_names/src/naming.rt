//! What the names of a script are called.

ghost use Rattle.std.specs.Prelude.{◌≡◌, ◌+◌, ◌∷◌, ◌++◌, [], map, IfOk, OnOk};
ghost use Rattle.std.specs.List.{list_all, list_any};
ghost use Rattle.std.specs.Str.{bytes_eq};
ghost use Rattle.es_outside.specs.HostNames.{is_ascii_identifier, is_among, continues_identifier, starts_identifier, kept_globals, known_globals, reserved_words, special_names};
ghost use Rattle.es5_ast.specs.declared.tree.Declared5.{out-Declared5};
ghost use Rattle.emission_rules.specs.Naming.{declares, has_dollar, helped_names, hint_name, hint_text, host_name, hosts_from, identifier_names, is_free, is_taken, is_word, longest_run, most_dollars, names_from, numbered, own_names, sign, stem, with_hint, with_names};

use binding_tables::NumberedNames;
use es_outside::HostNames;
use es5_ast::{Declared5, Identifier5, Stat5};
use shared_text::Name;
use sqlite_items::Items;
use std::alloc::{AllocError, Global};

/// The words that are no identifier in module code (ECMA-262, 6th edition, 11.6.2 and 12.1.1).
const RESERVED_WORDS: [&str; 46] = [
    "break",
    "case",
    "catch",
    "class",
    "const",
    "continue",
    "debugger",
    "default",
    "delete",
    "do",
    "else",
    "export",
    "extends",
    "finally",
    "for",
    "function",
    "if",
    "import",
    "in",
    "instanceof",
    "new",
    "return",
    "super",
    "switch",
    "this",
    "throw",
    "try",
    "typeof",
    "var",
    "void",
    "while",
    "with",
    "yield",
    "enum",
    "await",
    "null",
    "true",
    "false",
    "implements",
    "interface",
    "let",
    "package",
    "private",
    "protected",
    "public",
    "static",
];

/// Names with a meaning of their own in strict code.
const SPECIAL_NAMES: [&str; 3] = ["eval", "arguments", "Symbol"];

/// The global names that both realms have.
const KEPT_GLOBALS: [&str; 8] = [
    "undefined",
    "Object",
    "Array",
    "String",
    "Error",
    "TypeError",
    "ReferenceError",
    "RangeError",
];

/// The global names of the 5.1 edition (15.1 and B.2) that are known and left out.
const KNOWN_GLOBALS: [&str; 23] = [
    "NaN",
    "Infinity",
    "eval",
    "parseInt",
    "parseFloat",
    "isNaN",
    "isFinite",
    "decodeURI",
    "decodeURIComponent",
    "encodeURI",
    "encodeURIComponent",
    "escape",
    "unescape",
    "Function",
    "Boolean",
    "Number",
    "Date",
    "RegExp",
    "EvalError",
    "SyntaxError",
    "URIError",
    "Math",
    "JSON",
];

fn is_among(words: &[&str], name: &[u8]) -> bool
    ensures { result ≡ list_any (λ word. bytes_eq word.now name.now) words.now }
{
    words.iter().any(|word| word.as_bytes() == name)
}

fn is_reserved_word(name: &[u8]) -> bool
    ensures { result ≡ is_among reserved_words name.now }
{
    let words = RESERVED_WORDS;
    is_among(&words, name)
}

fn is_special_name(name: &[u8]) -> bool
    ensures { result ≡ is_among special_names name.now }
{
    let words = SPECIAL_NAMES;
    is_among(&words, name)
}

fn is_kept_global(name: &[u8]) -> bool
    ensures { result ≡ is_among kept_globals name.now }
{
    let words = KEPT_GLOBALS;
    is_among(&words, name)
}

fn is_known_global(name: &[u8]) -> bool
    ensures { result ≡ is_among known_globals name.now }
{
    let words = KNOWN_GLOBALS;
    is_among(&words, name)
}

/// Whether the name is a word of the grammar, or has a meaning of its own.
fn is_word(name: &[u8]) -> bool
    ensures { result ≡ is_word name.now }
{
    is_reserved_word(name) | is_special_name(name) | is_kept_global(name) | is_known_global(name)
}

fn starts_identifier(byte: u8) -> bool
    ensures { result ≡ starts_identifier byte }
{
    byte.is_ascii_alphabetic() | (byte == b'$') | (byte == b'_')
}

fn continues_identifier(byte: u8) -> bool
    ensures { result ≡ continues_identifier byte }
{
    byte.is_ascii_alphanumeric() | (byte == b'$') | (byte == b'_')
}

fn all_continue(bytes: &[u8]) -> bool
    ensures { result ≡ list_all continues_identifier bytes.now }
{
    bytes.iter().all(|byte| continues_identifier(*byte))
}

/// Whether these bytes are an identifier whose characters are all in ASCII (7.6).
fn is_identifier(bytes: &[u8]) -> bool
    ensures { result ≡ is_ascii_identifier bytes.now }
{
    match bytes {
        [] => false,
        [first, rest @ ..] => starts_identifier(*first) & all_continue(rest),
    }
}

fn has_dollar(hint: &[u8]) -> bool
    ensures { result ≡ has_dollar hint.now }
{
    hint.iter().any(|byte| *byte == b'$')
}

// ---- names that are taken

fn push_name(alloc: Global, text: &[u8], out: &mut Items<Name>) -> Result<(), AllocError>
    ensures { OnOk result (out.new ≡ out.old ++ text.now ∷ []) }
{
    out.push(Name::of_bytes(alloc, text)?)
}

/// The names of the script's own.
fn own_names(alloc: Global) -> Result<Items<Name>, AllocError>
    ensures { IfOk result (λ names. names ≡ own_names) }
{
    let mut names = Items::new(alloc);
    push_name(alloc, b"empty", &mut names)?;
    push_name(alloc, b"call", &mut names)?;
    push_name(alloc, b"apply", &mut names)?;
    push_name(alloc, b"callee", &mut names)?;
    push_name(alloc, b"frame", &mut names)?;
    push_name(alloc, b"passed", &mut names)?;
    Ok(names)
}

fn push_identifier(
    alloc: Global,
    name: &Option<Identifier5>,
    out: &mut Items<Name>,
) -> Result<(), AllocError>
    ensures { OnOk result (out.new ≡ out.old ++ identifier_names name.now) }
{
    match name {
        Some(name) => push_name(alloc, name.name.bytes(), out),
        None => Ok(()),
    }
}

fn push_variables(
    alloc: Global,
    declared: &[Declared5],
    out: &mut Items<Name>,
) -> Result<(), AllocError>
    ensures { OnOk result (out.new ≡ out.old ++ map (λ d. (out-Declared5 d).name.name) declared.now) }
{
    for one in declared {
        push_name(alloc, one.name.name.bytes(), out)?;
    }
    Ok(())
}

/// The names that a statement of the helpers declares.
#[tactic(auto, unfolding(emission_rules::specs::Naming::declares))]
fn push_declares(alloc: Global, stat: &Stat5, out: &mut Items<Name>) -> Result<(), AllocError>
    ensures { OnOk result (out.new ≡ out.old ++ declares stat.now) }
{
    match stat {
        Stat5::Var { declared, .. } => push_variables(alloc, declared.as_slice(), out),
        Stat5::FunctionDeclaration(function) => push_identifier(alloc, &function.get().name, out),
        _ => Ok(()),
    }
}

/// The script's own names and those of its helpers.
pub fn helped_names(alloc: Global, helpers: &[Stat5]) -> Result<Items<Name>, AllocError>
    ensures { IfOk result (λ names. names ≡ helped_names helpers.now) }
{
    let mut names = own_names(alloc)?;
    for stat in helpers {
        push_declares(alloc, stat, &mut names)?;
    }
    Ok(names)
}

/// The names of the hosts.
pub fn host_list(alloc: Global, hosts: &HostNames) -> Result<Items<Name>, AllocError>
    ensures { IfOk result (λ names. names ≡ hosts.now) }
{
    let mut names = Items::new(alloc);
    let mut index = 0;
    while index < hosts.len() {
        let Some(name) = hosts.name(index) else {
            return Err(AllocError);
        };
        names.push(Name::of_bytes(alloc, name.as_bytes())?)?;
        index += 1;
    }
    Ok(names)
}

/// These names are taken too.
pub fn take_names<'a>(names: &'a [Name], taken: &mut NumberedNames<'a>) -> Result<(), AllocError>
    ensures { OnOk result (taken.new ≡ with_names taken.old names.now) }
{
    for name in names {
        taken.add(name.bytes())?;
    }
    Ok(())
}

fn is_taken<'a>(taken: &NumberedNames<'a>, name: &'a [u8]) -> bool
    ensures { result ≡ is_taken taken.now name.now }
{
    taken.number(name) != taken.number(b"")
}

// ---- the sign between a hint and a number

fn longest_run(best: usize, name: &[u8]) -> usize
    ensures { result ≡ longest_run best 0 name.now }
{
    let mut longest = best;
    let mut run: usize = 0;
    for byte in name {
        run = if *byte == b'$' { run + 1 } else { 0 };
        longest = longest.max(run);
    }
    longest
}

fn most_dollars(best: usize, names: &[Name]) -> usize
    ensures { result ≡ most_dollars best names.now }
{
    let mut most = best;
    for name in names {
        most = longest_run(most, name.bytes());
    }
    most
}

/// More `$` than stand side by side in any of the names.
#[tactic(auto, using(crate::proofs::Runs::most_dollars_append))]
pub fn sign(alloc: Global, helped: &[Name], hosts: &[Name]) -> Result<Vec<u8>, AllocError>
    ensures { IfOk result (λ text. text.items ≡ sign (helped.now ++ hosts.now)) }
{
    let most = most_dollars(most_dollars(0, helped), hosts);
    match most.checked_add(1) {
        Some(count) => vec![in alloc; b'$'; count],
        None => Err(AllocError),
    }
}

// ---- names

/// What a number stands behind.
fn stem(hint: &[u8]) -> &[u8]
    ensures { result.now ≡ stem hint.now }
{
    if is_identifier(hint) { hint } else { b"v" }
}

fn numbered(alloc: Global, sign: &[u8], hint: &[u8], number: usize) -> Result<Name, AllocError>
    ensures { IfOk result (λ name. name ≡ numbered sign.now hint.now number) }
{
    let mut text = Vec::from_slice(alloc, stem(hint))?;
    text.extend_from_slice(sign)?;
    let digits = format!(in alloc; "{number}")?;
    text.extend_from_slice(digits.as_bytes())?;
    Name::of_bytes(alloc, text.as_slice())
}

fn is_free<'a>(taken: &NumberedNames<'a>, hint: &'a [u8]) -> bool
    ensures { result ≡ is_free taken.now hint.now }
{
    is_identifier(hint) && !has_dollar(hint) && !is_taken(taken, hint) && !is_word(hint)
}

fn hint_text(hint: &Option<Name>) -> &[u8]
    ensures { result.now ≡ hint_text hint.now }
{
    match hint {
        Some(hint) => hint.bytes(),
        None => b"",
    }
}

/// A name by its hint, which is taken then.
fn hint_name<'a>(
    alloc: Global,
    sign: &[u8],
    number: usize,
    hint: &'a [u8],
    taken: &mut NumberedNames<'a>,
) -> Result<Name, AllocError>
    ensures name { IfOk result (λ name. name ≡ hint_name sign.now taken.old number hint.now) }
    ensures taken { OnOk result (taken.new ≡ with_hint taken.old hint.now) }
{
    if is_free(taken, hint) {
        taken.add(hint)?;
        return Name::of_bytes(alloc, hint);
    }
    numbered(alloc, sign, hint, number)
}

fn next(number: usize) -> Result<usize, AllocError>
    ensures { IfOk result (λ n. n ≡ number + 1) }
{
    match number.checked_add(1) {
        Some(next) => Ok(next),
        None => Err(AllocError),
    }
}

pub fn names_of<'a>(
    alloc: Global,
    sign: &[u8],
    hints: &'a [Option<Name>],
    taken: &mut NumberedNames<'a>,
) -> Result<Items<Name>, AllocError>
    ensures { IfOk result (λ names. names ≡ names_from sign.now taken.old 0 hints.now) }
{
    let mut names = Items::new(alloc);
    let mut number = 0;
    for hint in hints {
        names.push(hint_name(alloc, sign, number, hint_text(hint), taken)?)?;
        number = next(number)?;
    }
    Ok(names)
}

/// A host keeps its name, but for that of a helper.
fn host_name<'a>(
    alloc: Global,
    sign: &[u8],
    number: usize,
    host: &'a [u8],
    taken: &NumberedNames<'a>,
) -> Result<Name, AllocError>
    ensures { IfOk result (λ name. name ≡ host_name sign.now taken.now number host.now) }
{
    if is_taken(taken, host) {
        return numbered(alloc, sign, host, number);
    }
    Name::of_bytes(alloc, host)
}

pub fn hosts_of<'a>(
    alloc: Global,
    sign: &[u8],
    first: usize,
    hosts: &'a [Name],
    taken: &NumberedNames<'a>,
) -> Result<Items<Name>, AllocError>
    ensures { IfOk result (λ names. names ≡ hosts_from sign.now taken.now first hosts.now) }
{
    let mut names = Items::new(alloc);
    let mut number = first;
    for host in hosts {
        names.push(host_name(alloc, sign, number, host.bytes(), taken)?)?;
        number = next(number)?;
    }
    Ok(names)
}
