//! The names of properties, and patterns (ECMA-262, 6th edition, 12.2.6, 12.14.5, 13.3.3).

ghost use Rattle.std.specs.Prelude.{◌≡◌};
ghost use Rattle.es6_ast.specs.declared.tree.Pattern.{out-Pattern};
ghost use Rattle.es6_reading.specs.Statements.{is_name_in};

use crate::boxes::boxed_beside;
use crate::reading::Reading;
use crate::{Trees, names, refining};
use es_text::Span;
use es6_ast::{ArrayPart, AssignOperator, Expression, Identifier, Key, ObjectPart, Part, Pattern};
use es6_cursor::{Cursor, Halt, KeyToken, PlacedKey};
use es6_makers::{
    MakesArrayParts, MakesBindings, MakesKeys, MakesObjectParts, MakesParts, MakesPatterns,
    MakesTargets,
};
use shared_text::Name;
use sqlite_items::{Boxed, Items};
use std::alloc::{AllocError, Global};

impl MakesKeys for Trees {
    type Key = Key;

    ghost seen_key = { λ x. x };

    fn placed_key(key: PlacedKey) -> Key {
        match key.into_token() {
            KeyToken::Word { span, name } => Key::WordKey { span, name },
            KeyToken::Text { span, units } => Key::TextKey { span, units },
            KeyToken::Integer { span, value } => Key::IntegerKey { span, value },
        }
    }

    fn word_key(span: Span, name: Name) -> Key {
        Key::WordKey { span, name }
    }

    fn computed_key(alloc: Global, span: Span, value: Reading) -> Result<Key, AllocError> {
        let value = Boxed::new(alloc, value.into_value())?;
        Ok(Key::ComputedKey { span, value })
    }
}

impl MakesPatterns for Trees {
    type Pattern = Pattern;

    ghost seen_pattern = { λ x. x };

    fn name_target(alloc: Global, name: Identifier) -> Result<Pattern, AllocError> {
        names::name_target(alloc, name)
    }
}

impl MakesTargets for Trees {
    fn assigned_target(
        cursor: &Cursor,
        operator: AssignOperator,
        target: Reading,
    ) -> Result<Pattern, Halt> {
        refining::assigned_target(cursor, operator, target.into_value())
    }

    fn assign(
        alloc: Global,
        span: Span,
        operator: AssignOperator,
        target: Pattern,
        value: Reading,
    ) -> Result<Reading, AllocError> {
        let (value, target) = boxed_beside(alloc, value.into_value(), target)?;
        Ok(Reading::other(Expression::Assign {
            span,
            operator,
            target,
            value,
        }))
    }
}

impl MakesParts for Trees {
    type Part = Part;

    ghost seen_part = { λ x. x };

    fn part(span: Span, pattern: Pattern) -> Part {
        let default = None;
        Part {
            span,
            pattern,
            default,
        }
    }

    fn part_with_default(span: Span, pattern: Pattern, default: Reading) -> Part {
        let default = Some(default.into_value());
        Part {
            span,
            pattern,
            default,
        }
    }

    fn has_default(variable: &Part) -> bool {
        variable.default.is_some()
    }

    fn is_whole(variable: &Part) -> bool {
        variable.default.is_some() | is_name(&variable.pattern)
    }

    fn into_pattern(variable: Part) -> Pattern {
        let Part { pattern, .. } = variable;
        pattern
    }
}

impl MakesArrayParts for Trees {
    type ArrayParts = Items<ArrayPart>;

    ghost seen_array_parts = { λ x. x };

    fn no_array_parts(alloc: Global) -> Items<ArrayPart> {
        Items::new(alloc)
    }

    fn push_skipped(list: &mut Items<ArrayPart>) -> Result<(), AllocError> {
        list.push(ArrayPart::SkippedPart)
    }

    fn push_single(list: &mut Items<ArrayPart>, part: Part) -> Result<(), AllocError> {
        list.push(ArrayPart::SinglePart(part))
    }

    fn push_rest(
        list: &mut Items<ArrayPart>,
        span: Span,
        pattern: Pattern,
    ) -> Result<(), AllocError> {
        list.push(ArrayPart::RestPart { span, pattern })
    }
}

impl MakesObjectParts for Trees {
    type ObjectPart = ObjectPart;

    type ObjectParts = Items<ObjectPart>;

    ghost seen_object_part = { λ x. x };

    ghost seen_object_parts = { λ x. x };

    fn keyed_part(span: Span, key: Key, part: Part) -> ObjectPart {
        ObjectPart::KeyedPart { span, key, part }
    }

    fn named_part(part: Part) -> ObjectPart {
        ObjectPart::NamedPart(part)
    }

    fn no_object_parts(alloc: Global) -> Items<ObjectPart> {
        Items::new(alloc)
    }

    fn push_object_part(list: &mut Items<ObjectPart>, part: ObjectPart) -> Result<(), AllocError> {
        list.push(part)
    }
}

impl MakesBindings for Trees {
    fn array_pattern(span: Span, parts: Items<ArrayPart>) -> Pattern {
        Pattern::ArrayPattern { span, parts }
    }

    fn object_pattern(span: Span, parts: Items<ObjectPart>) -> Pattern {
        Pattern::ObjectPattern { span, parts }
    }
}

fn is_name(pattern: &Pattern) -> bool
    ensures { result ≡ is_name_in (out-Pattern pattern.now) }
{
    match pattern {
        Pattern::Target(_) => true,
        Pattern::ArrayPattern { .. } | Pattern::ObjectPattern { .. } => false,
    }
}
