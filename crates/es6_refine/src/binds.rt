//! Whether a pattern that was assigned binds names alone (13.3.3).

ghost use Rattle.std.specs.Prelude.{◌≡◌};
ghost use Rattle.es6_ast.specs.declared.tree.ArrayPart.{out-ArrayPart};
ghost use Rattle.es6_ast.specs.declared.tree.ObjectPart.{out-ObjectPart};
ghost use Rattle.es6_ast.specs.declared.tree.Pattern.{out-Pattern};
ghost use Rattle.es6_reading.specs.Refine.{all_bind, array_part_binds, binds_names, object_part_binds, rest_binds};
ghost use Rattle.es6_refine.specs.Fitting.{fit_of};

use crate::fit::Fit;
use crate::places::bound_fit;
use es6_ast::{ArrayPart, ObjectPart, Pattern};

/// All targets of the pattern, with patterns in one another down to the depth.
#[cycle(binds)]
pub fn pattern_binds(depth: u32, pattern: &Pattern) -> Fit
    ensures { result ≡ fit_of (binds_names depth pattern.now) }
{
    if depth == 0 {
        return Fit::TooNested;
    }
    match pattern {
        Pattern::Target(target) => bound_fit(target.get()),
        Pattern::ArrayPattern { parts, .. } => array_parts_bind(depth - 1, parts.as_slice()),
        Pattern::ObjectPattern { parts, .. } => object_parts_bind(depth - 1, parts.as_slice()),
    }
}

#[cycle(binds)]
fn array_parts_bind(depth: u32, parts: &[ArrayPart]) -> Fit
    ensures { result ≡ fit_of (all_bind (λ e. array_part_binds (binds_names depth) (out-ArrayPart e)) parts.now) }
{
    for part in parts {
        let fit = array_part_binds(depth, part);
        if !fit.fits() {
            return fit;
        }
    }
    Fit::Fits
}

#[cycle(binds)]
fn array_part_binds(depth: u32, part: &ArrayPart) -> Fit
    ensures { result ≡ fit_of (array_part_binds (binds_names depth) (out-ArrayPart part.now)) }
{
    match part {
        ArrayPart::SkippedPart => Fit::Fits,
        ArrayPart::SinglePart(part) => pattern_binds(depth, &part.pattern),
        ArrayPart::RestPart { pattern, .. } => rest_binds(pattern),
    }
}

/// A rest is a name.
fn rest_binds(pattern: &Pattern) -> Fit
    ensures { result ≡ fit_of (rest_binds (out-Pattern pattern.now)) }
{
    match pattern {
        Pattern::Target(target) => bound_fit(target.get()),
        Pattern::ArrayPattern { span, .. } | Pattern::ObjectPattern { span, .. } => Fit::Misfit {
            at: span.begin,
        },
    }
}

#[cycle(binds)]
fn object_parts_bind(depth: u32, parts: &[ObjectPart]) -> Fit
    ensures { result ≡ fit_of (all_bind (λ e. object_part_binds (binds_names depth) (out-ObjectPart e)) parts.now) }
{
    for part in parts {
        let fit = object_part_binds(depth, part);
        if !fit.fits() {
            return fit;
        }
    }
    Fit::Fits
}

#[cycle(binds)]
fn object_part_binds(depth: u32, part: &ObjectPart) -> Fit
    ensures { result ≡ fit_of (object_part_binds (binds_names depth) (out-ObjectPart part.now)) }
{
    match part {
        ObjectPart::NamedPart(_) => Fit::Fits,
        ObjectPart::KeyedPart { part, .. } => pattern_binds(depth, &part.pattern),
    }
}
