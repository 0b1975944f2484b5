//! The words that are no identifiers (ECMA-262, 6th edition, 11.6.2, 12.1.1), and lists of words.

ghost use Rattle.std.specs.Prelude.{◌≡◌};
ghost use Rattle.std.specs.List.{list_any};
ghost use Rattle.std.specs.Str.{bytes_eq};
ghost use Rattle.es_outside.specs.HostNames.{is_among, reserved_words};
ghost use Rattle.es6_ast.specs.Tokens.{is_identifier};

use shared_text::Name;

/// ReservedWord, with the future reserved words of strict code and `await`
const RESERVED_WORDS: [&[u8]; 46] = [
    b"break",
    b"case",
    b"catch",
    b"class",
    b"const",
    b"continue",
    b"debugger",
    b"default",
    b"delete",
    b"do",
    b"else",
    b"export",
    b"extends",
    b"finally",
    b"for",
    b"function",
    b"if",
    b"import",
    b"in",
    b"instanceof",
    b"new",
    b"return",
    b"super",
    b"switch",
    b"this",
    b"throw",
    b"try",
    b"typeof",
    b"var",
    b"void",
    b"while",
    b"with",
    b"yield",
    b"enum",
    b"await",
    b"null",
    b"true",
    b"false",
    b"implements",
    b"interface",
    b"let",
    b"package",
    b"private",
    b"protected",
    b"public",
    b"static",
];

/// Whether a name is one of these.
pub fn is_among(words: &[&[u8]], name: &[u8]) -> bool
    ensures { result ≡ list_any (λ word. bytes_eq word.now name.now) words.now }
{
    words.iter().any(|word| *word == name)
}

/// Whether a name is no reserved word of module code.
pub fn is_identifier(name: &Name) -> bool
    ensures { result ≡ is_identifier name.now }
{
    !is_reserved(name.bytes())
}

fn is_reserved(name: &[u8]) -> bool
    ensures { result ≡ is_among reserved_words name.now }
{
    is_among(&RESERVED_WORDS, name)
}
