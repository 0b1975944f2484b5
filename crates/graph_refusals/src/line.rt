//! The line that says why a graph is refused.

ghost use Rattle.std.specs.Prelude.{◌≡◌, ◌++◌, IfOk, OnOk, codes};
ghost use Rattle.std.specs.Fmt.{decimal};
ghost use Rattle.graph_refusals.specs.Lines.{line_of, fault_text, finding_text, kind_text, place_text};
ghost use Rattle.graph_refusals.specs.Quoted.{quoted, name_units};

use crate::fault::{FileFault, PlacedFault, Refusal};
use crate::quoted::{push_quoted, units_of_name};
use es_text::Place;
use es6_lexer::LexicalKind;
use shared_text::Name;
use std::alloc::{AllocError, Global};

impl Refusal {
    /// The line, with places counted from 1.
    pub fn line(&self, alloc: Global) -> Result<Vec<u8>, AllocError>
        ensures { IfOk result (λ line. line.items ≡ line_of self.now) }
    {
        let mut line = Vec::from_slice(alloc, self.path.bytes())?;
        push_fault(alloc, &mut line, &self.fault)?;
        line.push(b'\n')?;
        Ok(line)
    }
}

/// What stands behind the path.
fn push_fault(alloc: Global, line: &mut Vec<u8>, fault: &FileFault) -> Result<(), AllocError>
    ensures { OnOk result (line.new.items ≡ line.old.items ++ fault_text fault.now) }
{
    match fault {
        FileFault::Missing => push_text(line, ": missing"),
        FileFault::ReadFailed => push_text(line, ": read fault"),
        FileFault::FileTooLong => push_text(line, ": file too long"),
        FileFault::GraphTooLong => push_text(line, ": graph too long"),
        FileFault::NotUtf8 { at } => push_numbered(alloc, line, ": not UTF-8 at byte ", *at),
        FileFault::At { place, fault } => push_placed(alloc, line, place, fault),
    }
}

fn push_placed(
    alloc: Global,
    line: &mut Vec<u8>,
    place: &Place,
    fault: &PlacedFault,
) -> Result<(), AllocError>
    ensures { OnOk result (line.new.items ≡ line.old.items ++ (place_text place.now ++ (codes ": " ++ finding_text fault.now))) }
{
    push_place(alloc, line, place)?;
    push_text(line, ": ")?;
    push_finding(alloc, line, fault)
}

/// A place, counted from 1.
pub fn push_place(alloc: Global, line: &mut Vec<u8>, place: &Place) -> Result<(), AllocError>
    ensures { OnOk result (line.new.items ≡ line.old.items ++ place_text place.now) }
{
    let row = u128::from(place.line) + 1;
    let column = u128::from(place.column) + 1;
    let numbers = format!(in alloc; ":{row}:{column}")?;
    push_text(line, numbers.as_str())
}

/// What stands at the place.
fn push_finding(alloc: Global, line: &mut Vec<u8>, fault: &PlacedFault) -> Result<(), AllocError>
    ensures { OnOk result (line.new.items ≡ line.old.items ++ finding_text fault.now) }
{
    match fault {
        PlacedFault::Lexical(kind) => push_kind(line, "lexical fault ", *kind),
        PlacedFault::Syntax => push_text(line, "syntax fault"),
        PlacedFault::TooDeep => push_text(line, "too deep"),
        PlacedFault::Early(rule) => push_numbered(alloc, line, "early error E", u32::from(*rule)),
        PlacedFault::Outside(rule) => {
            push_numbered(alloc, line, "outside the profile U", u32::from(*rule))
        }
        PlacedFault::TooManyModules => push_text(line, "too many modules"),
        PlacedFault::BadSpecifier(specifier) => {
            push_units(line, "bad specifier ", specifier.units())
        }
        PlacedFault::MissingModule(specifier) => {
            push_units(line, "missing module ", specifier.units())
        }
        PlacedFault::Unresolved(name) => push_name(alloc, line, "unresolved name ", name),
        PlacedFault::Ambiguous(name) => push_name(alloc, line, "ambiguous name ", name),
    }
}

fn push_kind(line: &mut Vec<u8>, text: &str, kind: LexicalKind) -> Result<(), AllocError>
    ensures { OnOk result (line.new.items ≡ line.old.items ++ (text.now ++ kind_text kind)) }
{
    push_text(line, text)?;
    push_text(line, kind_name(kind))
}

/// The name of a kind of lexical fault.
fn kind_name(kind: LexicalKind) -> &'static str
    ensures { result.now ≡ kind_text kind }
{
    match kind {
        LexicalKind::BadCharacter => "BadCharacter",
        LexicalKind::IdentifierEscape => "IdentifierEscape",
        LexicalKind::OpenString => "OpenString",
        LexicalKind::OpenTemplate => "OpenTemplate",
        LexicalKind::OpenComment => "OpenComment",
        LexicalKind::BadEscape => "BadEscape",
        LexicalKind::LegacyOctal => "LegacyOctal",
        LexicalKind::BadNumber => "BadNumber",
    }
}

fn push_name(alloc: Global, line: &mut Vec<u8>, text: &str, name: &Name) -> Result<(), AllocError>
    ensures { OnOk result (line.new.items ≡ line.old.items ++ (text.now ++ quoted (name_units name.now))) }
{
    let units = units_of_name(alloc, name)?;
    push_units(line, text, units.units())
}

fn push_units(line: &mut Vec<u8>, text: &str, units: &[u16]) -> Result<(), AllocError>
    ensures { OnOk result (line.new.items ≡ line.old.items ++ (text.now ++ quoted units.now)) }
{
    push_text(line, text)?;
    push_quoted(line, units)
}

fn push_numbered(
    alloc: Global,
    line: &mut Vec<u8>,
    text: &str,
    number: u32,
) -> Result<(), AllocError>
    ensures { OnOk result (line.new.items ≡ line.old.items ++ (text.now ++ decimal number)) }
{
    let digits = format!(in alloc; "{number}")?;
    push_text(line, text)?;
    push_text(line, digits.as_str())
}

fn push_text(line: &mut Vec<u8>, text: &str) -> Result<(), AllocError>
    ensures { OnOk result (line.new.items ≡ line.old.items ++ text.now) }
{
    line.extend_from_slice(text.as_bytes())
}
