//! The name of the table, and those that scripts take from it.

ghost use Rattle.std.specs.Prelude.{◌≡◌, filter, IfOk};
ghost use Rattle.std.specs.List.{list_any};
ghost use Rattle.std.specs.Str.{bytes_eq};
ghost use Rattle.emission_rules.specs.Naming.{helped_names};
ghost use Rattle.emit_list.specs.Scripts.{called_names, callable, is_callable, primitives, table_name};

use emit_names::{helped_names, sign};
use es5_ast::Stat5;
use shared_text::Name;
use sqlite_items::Items;
use std::alloc::{AllocError, Global};

/// What is written for a part can mention these names of the script's own and of helpers.
const CALLABLE: [&str; 31] = [
    "empty",
    "call",
    "apply",
    "generator_function",
    "check_ready",
    "refuse_const",
    "cell_make",
    "to_text",
    "iter_start",
    "iter_step",
    "iter_value",
    "iter_close",
    "rest_list",
    "spread_list",
    "construct",
    "namespace_make",
    "class_make",
    "class_guard",
    "new_target",
    "super_construct",
    "this_bind",
    "super_get",
    "method_put",
    "accessor_put",
    "arguments_put",
    "generator_make",
    "generator_resume",
    "delegate_step",
    "power",
    "template_object",
    "includes_put",
];

fn is_among(words: &[&str], name: &[u8]) -> bool
    ensures { result ≡ list_any (λ word. bytes_eq word.now name.now) words.now }
{
    words.iter().any(|word| word.as_bytes() == name)
}

fn is_callable(name: &[u8]) -> bool
    ensures { result ≡ is_callable name.now }
{
    let words = CALLABLE;
    is_among(&words, name)
}

fn callable(alloc: Global, names: &[Name]) -> Result<Items<Name>, AllocError>
    ensures { IfOk result (λ kept. kept ≡ filter is_callable names.now) }
{
    let mut kept = Items::new(alloc);
    for name in names {
        if is_callable(name.bytes()) {
            kept.push(Name::of_bytes(alloc, name.bytes())?)?;
        }
    }
    Ok(kept)
}

/// The names of the script's own and of its helpers that parts can mention.
pub(crate) fn called_names(alloc: Global, helpers: &[Stat5]) -> Result<Items<Name>, AllocError>
    ensures { IfOk result (λ names. names ≡ called_names helpers.now) }
{
    let helped = helped_names(alloc, helpers)?;
    callable(alloc, helped.as_slice())
}

/// The one name that the scripts have at their top level.
pub(crate) fn table_name(
    alloc: Global,
    hosts: &[Name],
    helpers: &[Stat5],
) -> Result<Name, AllocError>
    ensures { IfOk result (λ name. name ≡ table_name hosts.now helpers.now) }
{
    let helped = helped_names(alloc, helpers)?;
    let dollars = sign(alloc, helped.as_slice(), hosts)?;
    let mut text = Vec::from_slice(alloc, b"es5c")?;
    text.extend_from_slice(dollars.as_slice())?;
    Name::of_bytes(alloc, text.as_slice())
}
