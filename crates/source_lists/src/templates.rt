//! Template objects (ECMA-262, 6th edition, 12.2.9.3): one for all templates with the same raw texts.

ghost use Rattle.std.specs.Cmp.Lexicographic.{pointwise};
ghost use Rattle.std.specs.Prelude.{◌≡◌, ◌++◌, IfOk, OnOk, map};
ghost use Rattle.std.specs.Str.{bytes_eq};
ghost use Rattle.es6_ast.specs.declared.tree.Template.{out-Template};
ghost use Rattle.es6_ast.specs.declared.tree.TemplatePart.{out-TemplatePart};
ghost use Rattle.source_lists.specs.Templates.{IsTemplate, template_of};
ghost use Rattle.source_meaning.specs.Lists.{cooked_texts, new_template, raw_texts, template_in, text_values, with_template};
ghost use Rattle.source_moves.specs.Seen.{state_of};

use es_operation_steps::made_template;
use es_value::{Str, Value};
use es6_ast::{Template, TemplatePart};
use source_moves::PendingWork;
use source_state::{BorrowedText, State, TemplateObject};
use sqlite_items::Items;
use std::alloc::{AllocError, Global};

fn push_cooked<'a>(
    texts: &mut Items<BorrowedText<'a>>,
    parts: &'a [TemplatePart],
) -> Result<(), AllocError>
    ensures { OnOk result (texts.new ≡ texts.old ++ map (λ p. (out-TemplatePart p).after.cooked) parts.now) }
{
    for part in parts {
        texts.push(BorrowedText::of(part.after.cooked.units()))?;
    }
    Ok(())
}

fn push_raw<'a>(
    texts: &mut Items<BorrowedText<'a>>,
    parts: &'a [TemplatePart],
) -> Result<(), AllocError>
    ensures { OnOk result (texts.new ≡ texts.old ++ map (λ p. (out-TemplatePart p).after.raw) parts.now) }
{
    for part in parts {
        texts.push(BorrowedText::of(part.after.raw.units()))?;
    }
    Ok(())
}

/// The texts that a template's stretches mean.
fn cooked_texts<'a>(
    alloc: Global,
    template: &'a Template,
) -> Result<Items<BorrowedText<'a>>, AllocError>
    ensures { IfOk result (λ texts. texts ≡ cooked_texts template.now) }
{
    let mut texts = Items::new(alloc);
    texts.push(BorrowedText::of(template.first.cooked.units()))?;
    push_cooked(&mut texts, template.rest.as_slice())?;
    Ok(texts)
}

/// The texts of a template's stretches as they are written.
fn raw_texts<'a>(
    alloc: Global,
    template: &'a Template,
) -> Result<Items<BorrowedText<'a>>, AllocError>
    ensures { IfOk result (λ texts. texts ≡ raw_texts template.now) }
{
    let mut texts = Items::new(alloc);
    texts.push(BorrowedText::of(template.first.raw.units()))?;
    push_raw(&mut texts, template.rest.as_slice())?;
    Ok(texts)
}

/// These texts as values.
fn text_values(alloc: Global, texts: &[BorrowedText<'_>]) -> Result<Items<Value>, AllocError>
    ensures { IfOk result (λ values. values ≡ text_values texts.now) }
{
    let mut values = Items::new(alloc);
    for text in texts {
        values.push(Value::Text(Str::of(alloc, text.units())?))?;
    }
    Ok(values)
}

fn same_text(one: &BorrowedText<'_>, other: &BorrowedText<'_>) -> bool
    ensures { result ≡ bytes_eq one.now other.now }
{
    one.units() == other.units()
}

/// Whether these are the same texts.
#[tactic(auto, using(crate::proofs::SameTexts::lengths_differ))]
fn same_texts(one: &[BorrowedText<'_>], other: &[BorrowedText<'_>]) -> bool
    ensures { result ≡ pointwise bytes_eq one.now other.now }
{
    if one.len() != other.len() {
        return false;
    }
    for index in 0..one.len() {
        if !same_text(&one[index], &other[index]) {
            return false;
        }
    }
    true
}

/// The object of the templates with these raw texts, if there is one.
fn template_in<'a>(
    templates: &[TemplateObject<'a>],
    raw: &[BorrowedText<'a>],
) -> Result<Option<Value>, AllocError>
    ensures { IfOk result (λ found. found ≡ template_in templates.now raw.now) }
{
    for template in templates {
        if same_texts(template.raw.as_slice(), raw) {
            return Ok(Some(template.object.share()?));
        }
    }
    Ok(None)
}

/// Makes the object of a template, which has these raw texts.
fn new_template<'a, W: PendingWork<'a>>(
    alloc: Global,
    template: &'a Template,
    raw: Items<BorrowedText<'a>>,
    st: &mut State<'a, W>,
) -> Result<Value, AllocError>
    requires { raw ≡ raw_texts template.now }
    ensures { IsTemplate W.seen result st.new (new_template template.now (state_of W.seen st.old)) }
{
    let cooked_texts = cooked_texts(alloc, template)?;
    let cooked = text_values(alloc, cooked_texts.as_slice())?;
    let written = text_values(alloc, raw.as_slice())?;
    let id = made_template(alloc, &mut st.heap, cooked.as_slice(), written.as_slice())?;
    st.templates.push(TemplateObject {
        raw,
        object: Value::Object(id),
    })?;
    Ok(Value::Object(id))
}

/// The object of a template with these raw texts: the one that was found, or a new one.
#[tactic(auto, unfolding(crate::specs::Templates::template_of))]
fn found_or_new<'a, W: PendingWork<'a>>(
    alloc: Global,
    template: &'a Template,
    raw: Items<BorrowedText<'a>>,
    found: Option<Value>,
    st: &mut State<'a, W>,
) -> Result<Value, AllocError>
    requires { raw ≡ raw_texts template.now }
    ensures { IsTemplate W.seen result st.new (template_of template.now found (state_of W.seen st.old)) }
{
    match found {
        None => new_template(alloc, template, raw, st),
        Some(object) => Ok(object),
    }
}

/// The object of a template, which is made where there is none yet.
#[tactic(auto, using(crate::proofs::TemplateObjects::of_found))]
pub(crate) fn template_object<'a, W: PendingWork<'a>>(
    alloc: Global,
    template: &'a Template,
    st: &mut State<'a, W>,
) -> Result<Value, AllocError>
    ensures { IsTemplate W.seen result st.new (with_template template.now (state_of W.seen st.old)) }
{
    let raw = raw_texts(alloc, template)?;
    let found = template_in(st.templates.as_slice(), raw.as_slice())?;
    found_or_new(alloc, template, raw, found, st)
}
