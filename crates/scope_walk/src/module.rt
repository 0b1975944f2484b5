//! A module and its items (ECMA-262, 6th edition, 15.2).

ghost use Rattle.std.specs.Prelude.{◌≡◌, ◌∷◌, ◌++◌, IfOk, OnOk};
ghost use Rattle.es6_static_semantics.specs.Findings.{joined};
ghost use Rattle.scope_rules.specs.Marks.{class_marked, class_marks, default_mark, default_marks, function_marked, item_marked, module_marked};
ghost use Rattle.scope_rules.specs.declared.kinds.Kind.TheVariants as kind;

use crate::expressions::expression;
use crate::functions::{class, function};
use crate::statements::statement;
use es_text::Span;
use es6_ast::{Class, DefaultExport, Function, Item, Module};
use module_scopes::is_host;
use scope_heads::{declare_imports, import_kind};
use scope_rules::{Kind, Marks, ScopeKind};
use std::alloc::{AllocError, Global};

/// The marks of a module, in text order. It fails where memory runs out.
pub fn module_marks<'a>(alloc: Global, tree: &'a Module) -> Result<Marks<'a>, AllocError>
    ensures { IfOk result (λ marks. marks ≡ module_marked tree.now) }
{
    let mut marks = Marks::new(alloc);
    marks.begin_scope(ScopeKind::Module, tree.span.begin)?;
    items(&mut marks, tree.items.as_slice())?;
    marks.end_scope()?;
    Ok(marks)
}

fn items<'a>(marks: &mut Marks<'a>, list: &'a [Item]) -> Result<(), AllocError>
    ensures { OnOk result (marks.new ≡ marks.old ++ joined item_marked list.now) }
{
    for one in list {
        item(marks, one)?;
    }
    Ok(())
}

fn item<'a>(marks: &mut Marks<'a>, one: &'a Item) -> Result<(), AllocError>
    ensures { OnOk result (marks.new ≡ marks.old ++ item_marked one.now) }
{
    match one {
        Item::Import {
            span,
            default,
            names,
            from,
        } => { declare_imports(marks, import_kind(is_host(from)), span.end, default, names) }
        Item::ExportNames { .. } | Item::ExportAll { .. } => Ok(()),
        Item::ExportDeclaration { declaration, .. } => statement(marks, declaration),
        Item::ExportDefault { span, word, value } => default_export(marks, span.end, *word, value),
        Item::Statement(inner) => statement(marks, inner),
    }
}

fn default_export<'a>(
    marks: &mut Marks<'a>,
    end: u32,
    word: Span,
    value: &'a DefaultExport,
) -> Result<(), AllocError>
    ensures { OnOk result (marks.new ≡ marks.old ++ default_marks end word value.now) }
{
    match value {
        DefaultExport::DefaultFunction(node) => default_function(marks, word, node.get()),
        DefaultExport::DefaultClass(node) => default_class(marks, word, node.get()),
        DefaultExport::DefaultValue(value) => {
            marks.declare_star_default(Kind::Default, end, word)?;
            expression(marks, value)
        }
    }
}

#[tactic(auto, using(crate::proofs::Layers::function_parts))]
fn default_function<'a>(
    marks: &mut Marks<'a>,
    word: Span,
    node: &'a Function,
) -> Result<(), AllocError>
    ensures { OnOk result (marks.new ≡ marks.old ++ default_mark kind.Function (function_marked node.now).end word (function_marked node.now).name ∷ (function_marked node.now).marks) }
{
    marks.declare_default(Kind::Function, node.span.end, word, &node.name)?;
    function(marks, node)
}

#[tactic(auto, using(crate::proofs::Layers::class_parts))]
fn default_class<'a>(marks: &mut Marks<'a>, word: Span, node: &'a Class) -> Result<(), AllocError>
    ensures { OnOk result (marks.new ≡ marks.old ++ default_mark kind.Class (class_marked node.now).end word (class_marked node.now).name ∷ class_marks (class_marked node.now)) }
{
    marks.declare_default(Kind::Class, node.span.end, word, &node.name)?;
    class(marks, node)
}
