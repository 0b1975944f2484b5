//! The names of properties, and patterns (ECMA-262, 6th edition, 12.2.6, 12.14.5, 13.3.3).

ghost use Rattle.std.specs.Prelude.{[], ◌++◌, ◌∷◌, ◌≡◌, IfOk, List, None, OnOk, Some, is_some};
ghost use Rattle.es6_ast.specs.Grammar.{name_target};
ghost use Rattle.es6_ast.specs.declared.tree.ArrayPart.TheVariants as array_part;
ghost use Rattle.es6_ast.specs.declared.tree.ArrayPart.{ArrayPart};
ghost use Rattle.es6_ast.specs.declared.tree.Expression.TheVariants as expr;
ghost use Rattle.es6_ast.specs.declared.tree.Key.TheVariants as key;
ghost use Rattle.es6_ast.specs.declared.tree.Key.{Key};
ghost use Rattle.es6_ast.specs.declared.tree.ObjectPart.TheVariants as object_part;
ghost use Rattle.es6_ast.specs.declared.tree.ObjectPart.{ObjectPart};
ghost use Rattle.es6_ast.specs.declared.tree.Part.{Part, roll-Part};
ghost use Rattle.es6_ast.specs.declared.tree.Pattern.TheVariants as pattern;
ghost use Rattle.es6_ast.specs.declared.tree.Pattern.{Pattern};
ghost use Rattle.es6_cursor.specs.Readers.{turns};
ghost use Rattle.es6_cursor.specs.Reads.{ReadsAs};
ghost use Rattle.es6_reading.specs.Expressions.{fitting, other};
ghost use Rattle.es6_reading.specs.Refine.{target_before};
ghost use Rattle.es6_reading.specs.Statements.{is_whole};

use crate::readings::MakesReadings;
use es_text::Span;
use es6_ast::{AssignOperator, Identifier};
use es6_cursor::{Cursor, Halt, PlacedKey};
use shared_text::Name;
use std::alloc::{AllocError, Global};

/// Makes the names of properties (12.2.6).
pub trait MakesKeys: MakesReadings {
    type Key: Drop;

    ghost seen_key: { Self.Key → Key };

    /// The name of a property that is not computed (12.2.6).
    fn placed_key(key: PlacedKey) -> Self::Key
        ensures { Self.seen_key result ≡ key };

    fn word_key(span: Span, name: Name) -> Self::Key
        ensures { Self.seen_key result ≡ key.WordKey span name };

    fn computed_key(
        alloc: Global,
        span: Span,
        value: Self::Reading,
    ) -> Result<Self::Key, AllocError>
        ensures { IfOk result (λ made. Self.seen_key made ≡ key.ComputedKey span (Self.seen value).value) };
}

/// Makes names into patterns (13.3.3).
pub trait MakesPatterns {
    type Pattern: Drop;

    ghost seen_pattern: { Self.Pattern → Pattern };

    /// A name as a pattern (13.3.3).
    fn name_target(alloc: Global, name: Identifier) -> Result<Self::Pattern, AllocError>
        ensures { IfOk result (λ made. Self.seen_pattern made ≡ name_target name) };
}

/// Makes what is assigned, and assignments (12.14, 12.14.5).
pub trait MakesTargets: MakesReadings + MakesPatterns {
    /// What is assigned before the operator: the pattern that the expression is before `=`, or else the expression itself
    /// (12.14.5).
    fn assigned_target(
        cursor: &Cursor,
        operator: AssignOperator,
        target: Self::Reading,
    ) -> Result<Self::Pattern, Halt>
        ensures { ReadsAs Self.seen_pattern (fitting (target_before turns operator (Self.seen target).value) cursor.now) result cursor.now };

    /// 12.14
    fn assign(
        alloc: Global,
        span: Span,
        operator: AssignOperator,
        target: Self::Pattern,
        value: Self::Reading,
    ) -> Result<Self::Reading, AllocError>
        ensures { IfOk result (λ made. Self.seen made ≡ other (expr.Assign span operator (Self.seen_pattern target) (Self.seen value).value)) };
}

/// Makes patterns with their defaults (13.3.3).
pub trait MakesParts: MakesReadings + MakesPatterns {
    type Part: Drop;

    ghost seen_part: { Self.Part → Part };

    /// A pattern with no default.
    fn part(span: Span, pattern: Self::Pattern) -> Self::Part
        ensures { Self.seen_part result ≡ roll-Part (record { span = span; pattern = Self.seen_pattern pattern; default = None }) };

    fn part_with_default(span: Span, pattern: Self::Pattern, default: Self::Reading) -> Self::Part
        ensures { Self.seen_part result ≡ roll-Part (record { span = span; pattern = Self.seen_pattern pattern; default = Some (Self.seen default).value }) };

    /// Whether a variable has an initializer.
    fn has_default(variable: &Self::Part) -> bool
        ensures { result ≡ is_some (Self.seen_part variable.now).default };

    /// Whether a variable has the initializer that its pattern has to have (13.3).
    fn is_whole(variable: &Self::Part) -> bool
        ensures { result ≡ is_whole (Self.seen_part variable.now) };

    fn into_pattern(variable: Self::Part) -> Self::Pattern
        ensures { Self.seen_pattern result ≡ (Self.seen_part variable).pattern };
}

/// Makes the parts of array patterns.
pub trait MakesArrayParts: MakesParts {
    type ArrayParts: Drop;

    ghost seen_array_parts: { Self.ArrayParts → List ArrayPart };

    fn no_array_parts(alloc: Global) -> Self::ArrayParts
        ensures { Self.seen_array_parts result ≡ [] };

    fn push_skipped(list: &mut Self::ArrayParts) -> Result<(), AllocError>
        ensures { OnOk result (Self.seen_array_parts list.new ≡ Self.seen_array_parts list.old ++ array_part.SkippedPart ∷ []) };

    fn push_single(list: &mut Self::ArrayParts, part: Self::Part) -> Result<(), AllocError>
        ensures { OnOk result (Self.seen_array_parts list.new ≡ Self.seen_array_parts list.old ++ array_part.SinglePart (Self.seen_part part) ∷ []) };

    fn push_rest(
        list: &mut Self::ArrayParts,
        span: Span,
        pattern: Self::Pattern,
    ) -> Result<(), AllocError>
        ensures { OnOk result (Self.seen_array_parts list.new ≡ Self.seen_array_parts list.old ++ array_part.RestPart span (Self.seen_pattern pattern) ∷ []) };
}

/// Makes the parts of object patterns.
pub trait MakesObjectParts: MakesParts + MakesKeys {
    type ObjectPart: Drop;

    type ObjectParts: Drop;

    ghost seen_object_part: { Self.ObjectPart → ObjectPart };

    ghost seen_object_parts: { Self.ObjectParts → List ObjectPart };

    fn keyed_part(span: Span, key: Self::Key, part: Self::Part) -> Self::ObjectPart
        ensures { Self.seen_object_part result ≡ object_part.KeyedPart span (Self.seen_key key) (Self.seen_part part) };

    fn named_part(part: Self::Part) -> Self::ObjectPart
        ensures { Self.seen_object_part result ≡ object_part.NamedPart (Self.seen_part part) };

    fn no_object_parts(alloc: Global) -> Self::ObjectParts
        ensures { Self.seen_object_parts result ≡ [] };

    fn push_object_part(
        list: &mut Self::ObjectParts,
        part: Self::ObjectPart,
    ) -> Result<(), AllocError>
        ensures { OnOk result (Self.seen_object_parts list.new ≡ Self.seen_object_parts list.old ++ Self.seen_object_part part ∷ []) };
}

/// Makes patterns of all kinds.
pub trait MakesBindings: MakesArrayParts + MakesObjectParts {
    fn array_pattern(span: Span, parts: Self::ArrayParts) -> Self::Pattern
        ensures { Self.seen_pattern result ≡ pattern.ArrayPattern span (Self.seen_array_parts parts) };

    fn object_pattern(span: Span, parts: Self::ObjectParts) -> Self::Pattern
        ensures { Self.seen_pattern result ≡ pattern.ObjectPattern span (Self.seen_object_parts parts) };
}
