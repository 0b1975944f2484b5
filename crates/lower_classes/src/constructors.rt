//! Constructors of classes (ECMA-262, 6th edition, 9.2.1 and 14.5.14).

ghost use Rattle.std.specs.Prelude.{◌≡◌, [], ◌∷◌, IfOk};
ghost use Rattle.core_ast.specs.declared.parts.Primitive.TheVariants.{ClassGuard, RestList};
ghost use Rattle.core_ast.specs.declared.tree.CoreStat.TheVariants as stat;
ghost use Rattle.lowering_rules.specs.Classes.{constructor, default_body, super_call};
ghost use Rattle.lowering_rules.specs.Making.{number, primitive, through};
ghost use Rattle.lowering_rules.specs.declared.expressions.ListPart.TheVariants.{Spread};

use crate::supers::lower_super_call;
use core_ast::{CoreFunction, CoreKind, CoreStat, Primitive};
use lower_parts::{alone, number, primitive, through};
use lowering_rules::ListPart;
use sqlite_items::Items;
use std::alloc::{AllocError, Global};

fn guarded(alloc: Global, setup: Items<CoreStat>) -> Result<Items<CoreStat>, AllocError>
    ensures { IfOk result (λ ss. ss ≡ stat.Do (primitive ClassGuard) ∷ setup) }
{
    let guard = primitive(alloc, Primitive::ClassGuard);
    let mut out = alone(alloc, CoreStat::Do(guard))?;
    out.append(setup)?;
    Ok(out)
}

/// The function as a constructor: a call without `new` throws before anything else.
pub fn lower_constructor(
    alloc: Global,
    derived: bool,
    function: CoreFunction,
) -> Result<CoreFunction, AllocError>
    ensures { IfOk result (λ f. f ≡ constructor derived function) }
{
    let CoreFunction {
        kind: _,
        own,
        parameters,
        length,
        arguments,
        cells,
        locals,
        declared,
        setup,
        body,
        resumption,
        step,
    } = function;
    let setup = guarded(alloc, setup)?;
    Ok(CoreFunction {
        kind: CoreKind::Class { derived },
        own,
        parameters,
        length,
        arguments,
        cells,
        locals,
        declared,
        setup,
        body,
        resumption,
        step,
    })
}

/// `super(...arguments)`
fn all_handed_on(alloc: Global) -> Result<CoreStat, AllocError>
    ensures { IfOk result (λ s. s ≡ stat.Do (super_call (Spread (through (number 0) RestList) ∷ []))) }
{
    let all = through(alloc, number(alloc, 0), Primitive::RestList)?;
    let mut arguments = Vec::new(alloc);
    arguments.push(ListPart::Spread(all))?;
    let call = lower_super_call(alloc, arguments)?;
    Ok(CoreStat::Do(call))
}

/// The body of a constructor that isn't written.
pub fn default_body(alloc: Global, derived: bool) -> Result<Items<CoreStat>, AllocError>
    ensures { IfOk result (λ ss. ss ≡ default_body derived) }
{
    if !derived {
        return Ok(Items::new(alloc));
    }
    alone(alloc, all_handed_on(alloc)?)
}
