ghost use Rattle.std.specs.Prelude.{◌≡◌};
ghost use Rattle.std.specs.List.{list_any, list_all};
ghost use Rattle.std.specs.Str.{bytes_eq};
ghost use Rattle.es_outside.specs.HostNames.{is_host_name, is_ascii_identifier, starts_identifier, continues_identifier, is_among, reserved_words, special_names, kept_globals, known_globals};

/// The words that are no identifier in module code (ECMA-262, 6th edition, 11.6.2 and 12.1.1).
const RESERVED_WORDS: [&str; 46] = [
    "break",
    "case",
    "catch",
    "class",
    "const",
    "continue",
    "debugger",
    "default",
    "delete",
    "do",
    "else",
    "export",
    "extends",
    "finally",
    "for",
    "function",
    "if",
    "import",
    "in",
    "instanceof",
    "new",
    "return",
    "super",
    "switch",
    "this",
    "throw",
    "try",
    "typeof",
    "var",
    "void",
    "while",
    "with",
    "yield",
    "enum",
    "await",
    "null",
    "true",
    "false",
    "implements",
    "interface",
    "let",
    "package",
    "private",
    "protected",
    "public",
    "static",
];

/// The global names that both realms have.
const KEPT_GLOBALS: [&str; 8] = [
    "undefined",
    "Object",
    "Array",
    "String",
    "Error",
    "TypeError",
    "ReferenceError",
    "RangeError",
];

/// The global names of the 5.1 edition (15.1 and B.2) that are known and left out.
const KNOWN_GLOBALS: [&str; 23] = [
    "NaN",
    "Infinity",
    "eval",
    "parseInt",
    "parseFloat",
    "isNaN",
    "isFinite",
    "decodeURI",
    "decodeURIComponent",
    "encodeURI",
    "encodeURIComponent",
    "escape",
    "unescape",
    "Function",
    "Boolean",
    "Number",
    "Date",
    "RegExp",
    "EvalError",
    "SyntaxError",
    "URIError",
    "Math",
    "JSON",
];

/// Names with a meaning of their own in strict code.
const SPECIAL_NAMES: [&str; 3] = ["eval", "arguments", "Symbol"];

/// Whether a host may have this name: an identifier in ASCII that names nothing else in a source or a script.
pub(crate) fn may_name_host(name: &str) -> bool
    ensures { result ≡ is_host_name name.now }
{
    let taken = is_reserved_word(name)
        | is_special_name(name)
        | is_kept_global(name)
        | is_known_global(name);
    is_identifier(name.as_bytes()) & !taken
}

fn is_reserved_word(name: &str) -> bool
    ensures { result ≡ is_among reserved_words name.now }
{
    let words = RESERVED_WORDS;
    is_among(&words, name)
}

fn is_special_name(name: &str) -> bool
    ensures { result ≡ is_among special_names name.now }
{
    let words = SPECIAL_NAMES;
    is_among(&words, name)
}

fn is_kept_global(name: &str) -> bool
    ensures { result ≡ is_among kept_globals name.now }
{
    let words = KEPT_GLOBALS;
    is_among(&words, name)
}

fn is_known_global(name: &str) -> bool
    ensures { result ≡ is_among known_globals name.now }
{
    let words = KNOWN_GLOBALS;
    is_among(&words, name)
}

fn is_among(words: &[&str], name: &str) -> bool
    ensures { result ≡ list_any (λ word. bytes_eq word.now name.now) words.now }
{
    words.iter().any(|word| *word == name)
}

/// Whether these bytes are an identifier whose characters are all in ASCII (11.6).
fn is_identifier(bytes: &[u8]) -> bool
    ensures { result ≡ is_ascii_identifier bytes.now }
{
    match bytes {
        [] => false,
        [first, rest @ ..] => starts_identifier(*first) & all_continue(rest),
    }
}

fn all_continue(bytes: &[u8]) -> bool
    ensures { result ≡ list_all continues_identifier bytes.now }
{
    bytes.iter().all(|byte| continues_identifier(*byte))
}

fn starts_identifier(byte: u8) -> bool
    ensures { result ≡ starts_identifier byte }
{
    byte.is_ascii_alphabetic() | (byte == b'$') | (byte == b'_')
}

fn continues_identifier(byte: u8) -> bool
    ensures { result ≡ continues_identifier byte }
{
    byte.is_ascii_alphanumeric() | (byte == b'$') | (byte == b'_')
}
