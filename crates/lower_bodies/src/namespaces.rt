//! Namespace objects (ECMA-262, 6th edition, 9.4.6).

ghost use Rattle.std.specs.Prelude.{◌≡◌, ◌++◌, map, IfOk, OnOk};
ghost use Rattle.std.specs.List.{flat_map};
ghost use Rattle.lowering_rules.specs.statement_rules.Bodies.{export_getter, export_links, namespace_made, namespace_object};

use crate::functions::{begun_with, with_statements};
use core_ast::{
    CoreExpr, CoreFunction, CoreHead, CoreKind, CoreLink, CoreOp, CoreStat, Primitive, acting,
    expression,
};
use lower_parts::{alone, set, text, through};
use lowering_rules::statement_rules::{Export, Namespace};
use sqlite_items::Items;
use std::alloc::{AllocError, Global};

/// A function that reads the binding of an exported name.
pub fn export_getter(alloc: Global, value: CoreExpr) -> Result<CoreFunction, AllocError>
    ensures { IfOk result (λ f. f ≡ export_getter value) }
{
    let statements = alone(alloc, CoreStat::Return(value))?;
    let function = begun_with(
        alloc,
        CoreKind::Plain,
        None,
        Items::new(alloc),
        Items::new(alloc),
    );
    with_statements(statements, Items::new(alloc), function)
}

fn push_export(alloc: Global, one: &Export, links: &mut Items<CoreLink>) -> Result<(), AllocError>
    ensures { OnOk result (links.new ≡ links.old ++ export_links one.now) }
{
    let name = text(alloc, one.name.copy(alloc)?);
    links.push(acting(alloc, CoreOp::Element, name)?)?;
    let getter = expression(alloc, CoreHead::Function(one.getter));
    links.push(acting(alloc, CoreOp::Element, getter)?)
}

fn export_links(alloc: Global, exports: &[Export]) -> Result<Items<CoreLink>, AllocError>
    ensures { IfOk result (λ ls. ls ≡ flat_map export_links exports.now) }
{
    let mut links = Items::new(alloc);
    for one in exports {
        push_export(alloc, one, &mut links)?;
    }
    Ok(links)
}

fn namespace_object(alloc: Global, exports: &[Export]) -> Result<CoreExpr, AllocError>
    ensures { IfOk result (λ x. x ≡ namespace_object exports.now) }
{
    let links = export_links(alloc, exports)?;
    let site = None;
    let head = CoreHead::ArgumentList;
    through(
        alloc,
        CoreExpr { site, head, links },
        Primitive::NamespaceMake,
    )
}

/// The namespace objects are made.
pub(crate) fn push_namespaces(
    alloc: Global,
    namespaces: &[Namespace],
    out: &mut Items<CoreStat>,
) -> Result<(), AllocError>
    ensures { OnOk result (out.new ≡ out.old ++ map namespace_made namespaces.now) }
{
    for one in namespaces {
        let object = namespace_object(alloc, one.exports.as_slice())?;
        out.push(set(alloc, one.var, object)?)?;
    }
    Ok(())
}
