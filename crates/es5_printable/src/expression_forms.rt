//! Whether expressions are those of the grammar, and the functions in them (ECMA-262, 5.1 edition, 11 and 13).

ghost use Rattle.std.specs.Prelude.{◌≡◌, ◌&&◌, ◌==◌, cond, map, nat_le, not};
ghost use Rattle.std.specs.List.{list_all};
ghost use Rattle.std.specs.Option.{option_map};
ghost use Rattle.es5_printable.specs.Printable.{element_fit, every, expr_fit, exprs_fit, function_fit, link_fit, links_fit, operand_fit, operands_fit, option_fits, parts_fit, property_fit, sites_in};

use crate::names::{is_identifier_name, is_key, is_literal, is_name, label_fits, names_fit};
use crate::statement_forms::statements_fit;
use es5_ast::{Element5, Expr5, Function5, Link5, Operand5, Property5};
use es5_cursor::binary_level;

#[cycle(walk)]
pub(crate) fn expression_fits(expression: &Expr5) -> bool
    ensures { result ≡ (expr_fit expression.now).fits }
{
    match expression {
        Expr5::This { .. } => true,
        Expr5::Name { name, .. } => is_name(name),
        Expr5::Literal { literal, .. } => is_literal(literal),
        Expr5::ArrayList { elements, .. } => elements_fit(elements.as_slice()),
        Expr5::ObjectList { properties, .. } => properties_fit(properties.as_slice()),
        Expr5::Function(function) => function_fits(function.get()),
        Expr5::Chain { head, links, .. } => {
            expression_fits(head.get()) & links_fit(links.as_slice())
        }
        Expr5::New {
            callee,
            arguments,
            ..
        } => expression_fits(callee.get()) & expressions_fit(arguments.as_slice()),
        Expr5::Update { target, .. } => expression_fits(target.get()),
        Expr5::Unary { operand, .. } => expression_fits(operand.get()),
        Expr5::Binary { first, rest, .. } => {
            expression_fits(first.get()) & operands_fit(rest.as_slice())
        }
        Expr5::Conditional { test, yes, no, .. } => {
            expression_fits(test.get()) & (expression_fits(yes.get()) & expression_fits(no.get()))
        }
        Expr5::Assign { target, value, .. } => {
            expression_fits(target.get()) & expression_fits(value.get())
        }
        Expr5::Sequence { first, rest, .. } => {
            expression_fits(first.get()) & parts_fit(rest.as_slice())
        }
    }
}

#[cycle(walk)]
fn expressions_fit(expressions: &[Expr5]) -> bool
    ensures { result ≡ exprs_fit (map expr_fit expressions.now) }
{
    for expression in expressions {
        if !expression_fits(expression) {
            return false;
        }
    }
    true
}

/// The parts behind the first comma, of which there is one at least (11.14).
#[cycle(walk)]
fn parts_fit(parts: &[Expr5]) -> bool
    ensures { result ≡ parts_fit (map expr_fit parts.now) }
{
    !parts.is_empty() & expressions_fit(parts)
}

#[cycle(walk)]
pub(crate) fn optional_fits(expression: &Option<Expr5>) -> bool
    ensures { result ≡ option_fits (option_map expr_fit expression.now) }
{
    match expression {
        Some(expression) => expression_fits(expression),
        None => true,
    }
}

#[cycle(walk)]
fn elements_fit(elements: &[Element5]) -> bool
    ensures { result ≡ every (map element_fit elements.now) }
{
    for element in elements {
        if !element_fits(element) {
            return false;
        }
    }
    true
}

#[cycle(walk)]
fn element_fits(element: &Element5) -> bool
    ensures { result ≡ element_fit element.now }
{
    match element {
        Element5::Hole => true,
        Element5::Element(expression) => expression_fits(expression),
    }
}

#[cycle(walk)]
fn properties_fit(properties: &[Property5]) -> bool
    ensures { result ≡ every (map property_fit properties.now) }
{
    for property in properties {
        if !property_fits(property) {
            return false;
        }
    }
    true
}

#[cycle(walk)]
fn property_fits(property: &Property5) -> bool
    ensures { result ≡ property_fit property.now }
{
    match property {
        Property5::Plain { key, value, .. } => is_key(&key.key) & expression_fits(value),
        Property5::Getter { key, function, .. } => {
            is_key(&key.key) & accessor_fits(function.get(), 0)
        }
        Property5::Setter { key, function, .. } => {
            is_key(&key.key) & accessor_fits(function.get(), 1)
        }
    }
}

/// A getter's function has no parameter, a setter's has one, and neither has a name (11.1.5).
#[cycle(walk)]
fn accessor_fits(function: &Function5, parameters: usize) -> bool
    ensures { result ≡ ((function_fit function.now).fits && not (function_fit function.now).is_named && ((function_fit function.now).parameters == parameters)) }
{
    function_fits(function)
        & (function.name.is_none() & (function.parameters.as_slice().len() == parameters))
}

#[cycle(walk)]
pub(crate) fn function_fits(function: &Function5) -> bool
    ensures { result ≡ (function_fit function.now).fits }
{
    label_fits(&function.name)
        & (names_fit(function.parameters.as_slice())
            & statements_fit(function.body.as_slice(), true, true))
}

/// At least one access or call, with at most one site (11.2).
#[cycle(walk)]
fn links_fit(links: &[Link5]) -> bool
    ensures { result ≡ links_fit (map link_fit links.now) }
{
    !links.is_empty() & (each_link_fits(links) & has_one_site(links))
}

#[cycle(walk)]
fn each_link_fits(links: &[Link5]) -> bool
    ensures { result ≡ list_all (λ l. l.fits) (map link_fit links.now) }
{
    for link in links {
        if !link_fits(link) {
            return false;
        }
    }
    true
}

#[cycle(walk)]
fn link_fits(link: &Link5) -> bool
    ensures { result ≡ (link_fit link.now).fits }
{
    match link {
        Link5::Member { name, .. } => is_identifier_name(name),
        Link5::Index { index, .. } => expression_fits(index),
        Link5::Call { arguments, .. } => expressions_fit(arguments.as_slice()),
    }
}

/// One site at most.
fn has_one_site(links: &[Link5]) -> bool
    ensures { result ≡ nat_le (sites_in (map link_fit links.now)) 1 }
{
    let mut found = false;
    for link in links {
        if has_site(link) {
            if found {
                return false;
            }
            found = true;
        }
    }
    true
}

fn has_site(link: &Link5) -> bool
    ensures { (link_fit link.now).sites ≡ cond result 1 0 }
{
    match link {
        Link5::Call { site, .. } => site.is_some(),
        _ => false,
    }
}

/// At least one operator, and all of one level (11.5 to 11.11).
#[cycle(walk)]
fn operands_fit(operands: &[Operand5]) -> bool
    ensures { result ≡ operands_fit (map operand_fit operands.now) }
{
    match operands.first() {
        Some(first) => operands_fit_at(operands, binary_level(first.operator)),
        None => false,
    }
}

#[cycle(walk)]
fn operands_fit_at(operands: &[Operand5], level: u8) -> bool
    ensures { result ≡ list_all (λ o. o.fits && (o.level == level)) (map operand_fit operands.now) }
{
    for operand in operands {
        if !operand_fits(operand, level) {
            return false;
        }
    }
    true
}

#[cycle(walk)]
fn operand_fits(operand: &Operand5, level: u8) -> bool
    ensures { result ≡ ((operand_fit operand.now).fits && ((operand_fit operand.now).level == level)) }
{
    expression_fits(&operand.value) & (binary_level(operand.operator) == level)
}
