//! The rules on the names of a module (ECMA-262, 6th edition, 15.2.1.1).

ghost use Rattle.std.specs.Prelude.{◌≡◌, ◌++◌, List, map, OnOk};
ghost use Rattle.es6_ast.specs.declared.tree.Identifier.{Identifier};
ghost use Rattle.es6_static_semantics.specs.Findings.{is_name_of, joined};
ghost use Rattle.es6_static_semantics.specs.Early.{default_found, exporting, item_found, of_statement, statement_found, undeclared};
ghost use Rattle.early_findings.specs.Pairs.{least_with};
ghost use Rattle.early_names.specs.Indexes.{Indexes};
ghost use Rattle.early_scopes.specs.Rules.{module_rules};

use crate::items::{add_exports, add_lexical, add_local};
use crate::rules::scope;
use crate::statements::statement;
use crate::var_names::VarNames;
use early_findings::Finder;
use early_names::{PlacedName, Places, add_statement_lexical, repeated};
use es_text::Span;
use es6_ast::{DefaultExport, Item, Statement};
use std::alloc::AllocError;

/// The errors of a module's scopes, with E23 and E24. It fails where memory runs out.
pub fn module(finder: &mut Finder, items: &[Item]) -> Result<(), AllocError>
    ensures { OnOk result (finder.new ≡ least_with finder.old (module_rules (map item_found items.now))) }
{
    let mut vars = VarNames::new(finder.alloc());
    let mut exported = Vec::new(finder.alloc());
    self::items(finder, &mut vars, &mut exported, items)?;
    let mut lexical = Vec::new(finder.alloc());
    add_lexical(&mut lexical, items)?;
    scope(finder, lexical.as_slice(), &vars, 0)?;
    repeated(finder, 23, exported.as_slice())?;
    let mut local = Vec::new(finder.alloc());
    add_local(&mut local, items)?;
    undeclared(finder, lexical.as_slice(), &vars, local.as_slice())
}

/// The scopes in the items, their var names, and the names that they export.
fn items<'a>(
    finder: &mut Finder,
    vars: &mut VarNames<'a>,
    exported: &mut Vec<PlacedName<'a>>,
    items: &'a [Item],
) -> Result<(), AllocError>
    ensures scopes { OnOk result (finder.new ≡ least_with finder.old (joined (λ x. x.scopes) (map item_found items.now))) }
    ensures vars { OnOk result (vars.new ≡ vars.old ++ joined (λ x. x.vars) (map item_found items.now)) }
    ensures exported { OnOk result (exported.new.items ≡ exported.old.items ++ joined (λ x. x.exported) (map item_found items.now)) }
{
    for item in items {
        self::item(finder, vars, exported, item)?;
    }
    Ok(())
}

fn item<'a>(
    finder: &mut Finder,
    vars: &mut VarNames<'a>,
    exported: &mut Vec<PlacedName<'a>>,
    item: &'a Item,
) -> Result<(), AllocError>
    ensures scopes { OnOk result (finder.new ≡ least_with finder.old (item_found item.now).scopes) }
    ensures vars { OnOk result (vars.new ≡ vars.old ++ (item_found item.now).vars) }
    ensures exported { OnOk result (exported.new.items ≡ exported.old.items ++ (item_found item.now).exported) }
{
    match item {
        Item::ExportNames { names, .. } => add_exports(exported, names.as_slice()),
        Item::ExportDeclaration { declaration, .. } => {
            self::declaration(finder, vars, exported, declaration)
        }
        Item::ExportDefault { word, value, .. } => add_word(exported, *word, value),
        Item::Statement(inner) => statement(finder, vars, inner),
        Item::Import { .. } | Item::ExportAll { .. } => Ok(()),
    }
}

/// A declaration that is exported.
fn declaration<'a>(
    finder: &mut Finder,
    vars: &mut VarNames<'a>,
    exported: &mut Vec<PlacedName<'a>>,
    declaration: &'a Statement,
) -> Result<(), AllocError>
    ensures scopes { OnOk result (finder.new ≡ least_with finder.old (statement_found declaration.now).scopes) }
    ensures vars { OnOk result (vars.new ≡ vars.old ++ (statement_found declaration.now).vars) }
    ensures exported { OnOk result (exported.new.items ≡ exported.old.items ++ (exporting (of_statement (statement_found declaration.now))).exported) }
{
    let mark = vars.len();
    statement(finder, vars, declaration)?;
    add_statement_lexical(exported, declaration)?;
    add_names(exported, vars.since(mark))
}

fn add_names<'a>(
    names: &mut Vec<PlacedName<'a>>,
    others: &[PlacedName<'a>],
) -> Result<(), AllocError>
    ensures { OnOk result (names.new.items ≡ names.old.items ++ others.now) }
{
    for name in others {
        names.push(name.copy())?;
    }
    Ok(())
}

/// The name `default`, which the word exports.
fn add_word<'a>(
    names: &mut Vec<PlacedName<'a>>,
    word: Span,
    value: &'a DefaultExport,
) -> Result<(), AllocError>
    ensures { OnOk result (names.new.items ≡ names.old.items ++ (default_found value.now word).exported) }
{
    names.push(PlacedName::new(word, b"default".as_slice()))?;
    match value {
        DefaultExport::DefaultFunction(_) => Ok(()),
        DefaultExport::DefaultClass(_) => Ok(()),
        DefaultExport::DefaultValue(_) => Ok(()),
    }
}

/// E24, at each exported name that isn't declared.
fn undeclared(
    finder: &mut Finder,
    lexical: &[PlacedName],
    vars: &VarNames,
    names: &[PlacedName],
) -> Result<(), AllocError>
    ensures { OnOk result (finder.new ≡ least_with finder.old (undeclared (lexical.now ++ vars.now) names.now)) }
{
    let places = Places::of(finder.alloc(), lexical)?;
    for name in names {
        finder.when(!is_declared(&places, vars, name.bytes()), 24, name.begin());
    }
    Ok(())
}

/// Whether a name is one of the lexical names, which have these places, or a var name.
#[tactic(auto, using(crate::proofs::Passing::among_both))]
fn is_declared(places: &Places, vars: &VarNames, name: &[u8]) -> bool
    ensures { (lexical : List Identifier) → Indexes places.now lexical → result ≡ is_name_of name.now (lexical ++ vars.now) }
{
    places.contains(name) | vars.contains(0, name)
}
