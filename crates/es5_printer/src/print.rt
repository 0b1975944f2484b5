//! Writes a script node by node. The numbers are sections of ECMA-262, 5.1 edition.

ghost use Rattle.std.specs.Prelude.{◌≡◌, ◌<◌, List, map, false, OnOk, is_some, codes};
ghost use Rattle.es5_ast.specs.Grammar.{some_site};
ghost use Rattle.std.specs.Option.{option_map};
ghost use Rattle.es5_printer.specs.Layout.{written};
ghost use Rattle.es5_printer.specs.Pieces.{Piece, word, mark, all, comma, separated, grouped, whole, in_place, maybe, name_of, function_of, element_of, elements_of, begins_of, sites_of, links_of, operands_of, arguments_of, parenthesized_arguments, parts_of, parameters_of, parenthesized_parameters, declared_of, end_of, header_of, more_of, otherwise_of, value_of, opened_of, returned_of, finally_of, catch_of, body_of, case_test, init_of, element_shown, shown, for_first_shown, link_shown, property_shown, stat_shown, block_shown, case_shown, catch_shown, condition_shown, declared_shown, function_shown, operand_shown};

use crate::operators::{
    print_assign, print_binary, print_key, print_literal, print_unary, print_update,
};
use crate::shape;
use crate::sheet::Sheet;
use es_outside::Site;
use es5_ast::{
    Block5, Case5, Catch5, Condition5, Declared5, Element5, Expr5, ForFirst5, Function5,
    Identifier5, Link5, Operand5, Property5, Stat5,
};
use sqlite_items::Boxed;
use std::alloc::AllocError;

/// Writes an expression, in parentheses where its level is below the least or an `in` may not stand bare.
#[cycle(print)]
fn print_expr(out: &mut Sheet, x: &Expr5, no_in: bool, least: u8) -> Result<(), AllocError>
    ensures { OnOk result ((rest : List Piece) → written out.new rest ≡ written out.old (in_place (shown x.now) no_in least rest)) }
{
    if shape::is_bare(x, no_in, least) {
        print_node(out, x, no_in)
    } else {
        out.mark(b"(")?;
        print_node(out, x, false)?;
        out.mark(b")")
    }
}

/// Writes an expression without parentheses round it.
#[cycle(print)]
fn print_node(out: &mut Sheet, x: &Expr5, no_in: bool) -> Result<(), AllocError>
    ensures { OnOk result ((rest : List Piece) → written out.new rest ≡ written out.old ((shown x.now).node no_in rest)) }
{
    match x {
        Expr5::This { .. } => out.word(b"this"),
        Expr5::Name { name, .. } => out.word(name.bytes()),
        Expr5::Literal { literal, .. } => print_literal(out, literal),
        Expr5::ArrayList { elements, .. } => {
            out.mark(b"[")?;
            print_elements(out, elements.as_slice())?;
            out.mark(b"]")
        }
        Expr5::ObjectList { properties, .. } => {
            out.mark(b"{")?;
            print_properties(out, properties.as_slice())?;
            out.mark(b"}")
        }
        Expr5::Function(function) => print_function(out, function.get()),
        Expr5::Chain { head, links, .. } => {
            print_begins(out, links.as_slice())?;
            print_expr(out, head.get(), false, shape::PRIMARY)?;
            print_links(out, links.as_slice())
        }
        Expr5::New {
            callee,
            arguments,
            ..
        } => {
            out.word(b"new")?;
            print_expr(out, callee.get(), false, shape::MEMBER)?;
            print_arguments(out, arguments.as_slice())
        }
        Expr5::Update {
            operator,
            target,
            ..
        } => {
            if shape::is_before(*operator) {
                print_update(out, *operator)?;
                print_expr(out, target.get(), false, shape::UNARY)
            } else {
                print_expr(out, target.get(), false, shape::LEFT_HAND_SIDE)?;
                print_update(out, *operator)
            }
        }
        Expr5::Unary {
            operator,
            operand,
            ..
        } => {
            print_unary(out, *operator)?;
            print_expr(out, operand.get(), false, shape::UNARY)
        }
        Expr5::Binary { first, rest, .. } => {
            let level = shape::operands_level(rest.as_slice());
            print_expr(out, first.get(), no_in, level + 1)?;
            print_operands(out, rest.as_slice(), no_in, level)
        }
        Expr5::Conditional { test, yes, no, .. } => {
            print_expr(out, test.get(), no_in, shape::CONDITIONAL + 1)?;
            out.mark(b"?")?;
            print_expr(out, yes.get(), false, shape::ASSIGNMENT)?;
            out.mark(b":")?;
            print_expr(out, no.get(), no_in, shape::ASSIGNMENT)
        }
        Expr5::Assign {
            operator,
            target,
            value,
            ..
        } => {
            print_expr(out, target.get(), false, shape::LEFT_HAND_SIDE)?;
            print_assign(out, *operator)?;
            print_expr(out, value.get(), no_in, shape::ASSIGNMENT)
        }
        Expr5::Sequence { first, rest, .. } => {
            print_expr(out, first.get(), no_in, shape::ASSIGNMENT)?;
            print_parts(out, rest.as_slice(), no_in)
        }
    }
}

/// Writes the elements of an array literal. Each but the last has a comma, and each hole.
#[cycle(print)]
fn print_elements(out: &mut Sheet, elements: &[Element5]) -> Result<(), AllocError>
    ensures { OnOk result ((rest : List Piece) → written out.new rest ≡ written out.old (elements_of false (map element_shown elements.now) rest)) }
{
    let mut again = false;
    for element in elements {
        print_comma(out, again)?;
        print_element(out, element)?;
        again = is_element(element);
    }
    Ok(())
}

#[cycle(print)]
fn print_element(out: &mut Sheet, element: &Element5) -> Result<(), AllocError>
    ensures { OnOk result ((rest : List Piece) → written out.new rest ≡ written out.old (element_of (element_shown element.now) rest)) }
{
    match element {
        Element5::Hole => out.mark(b","),
        Element5::Element(x) => print_expr(out, x, false, shape::ASSIGNMENT),
    }
}

/// Whether it is no hole.
fn is_element(element: &Element5) -> bool
    ensures { result ≡ is_some (element_shown element.now) }
{
    match element {
        Element5::Hole => false,
        Element5::Element(_) => true,
    }
}

/// Writes a comma if one stands between two items.
fn print_comma(out: &mut Sheet, again: bool) -> Result<(), AllocError>
    ensures { OnOk result ((rest : List Piece) → written out.new rest ≡ written out.old (comma again rest)) }
{
    if again { out.mark(b",") } else { Ok(()) }
}

#[cycle(print)]
fn print_properties(out: &mut Sheet, properties: &[Property5]) -> Result<(), AllocError>
    ensures { OnOk result ((rest : List Piece) → written out.new rest ≡ written out.old (separated false (map property_shown properties.now) rest)) }
{
    let mut again = false;
    for property in properties {
        print_comma(out, again)?;
        print_property(out, property)?;
        again = true;
    }
    Ok(())
}

/// 11.1.5
#[cycle(print)]
fn print_property(out: &mut Sheet, property: &Property5) -> Result<(), AllocError>
    ensures { OnOk result ((rest : List Piece) → written out.new rest ≡ written out.old (property_shown property.now rest)) }
{
    match property {
        Property5::Plain { key, value, .. } => {
            print_key(out, &key.key)?;
            out.mark(b":")?;
            print_expr(out, value, false, shape::ASSIGNMENT)
        }
        Property5::Getter { key, function, .. } => {
            out.word(b"get")?;
            print_key(out, &key.key)?;
            print_after(out, function.get())
        }
        Property5::Setter { key, function, .. } => {
            out.word(b"set")?;
            print_key(out, &key.key)?;
            print_after(out, function.get())
        }
    }
}

/// 13
#[cycle(print)]
fn print_function(out: &mut Sheet, function: &Function5) -> Result<(), AllocError>
    ensures { OnOk result ((rest : List Piece) → written out.new rest ≡ written out.old (function_of (function_shown function.now) rest)) }
{
    out.word(b"function")?;
    print_name(out, &function.name)?;
    print_after(out, function)
}

fn print_name(out: &mut Sheet, name: &Option<Identifier5>) -> Result<(), AllocError>
    ensures { OnOk result ((rest : List Piece) → written out.new rest ≡ written out.old (name_of name.now rest)) }
{
    match name {
        None => Ok(()),
        Some(name) => out.word(name.name.bytes()),
    }
}

/// Writes the parameters and the body of a function.
#[cycle(print)]
fn print_after(out: &mut Sheet, function: &Function5) -> Result<(), AllocError>
    ensures { OnOk result ((rest : List Piece) → written out.new rest ≡ written out.old ((function_shown function.now).after rest)) }
{
    print_parameters(out, function.parameters.as_slice())?;
    print_body(out, function.body.as_slice())
}

fn print_parameters(out: &mut Sheet, parameters: &[Identifier5]) -> Result<(), AllocError>
    ensures { OnOk result ((rest : List Piece) → written out.new rest ≡ written out.old (parenthesized_parameters parameters.now rest)) }
{
    out.mark(b"(")?;
    print_parameter_list(out, parameters)?;
    out.mark(b")")
}

fn print_parameter_list(out: &mut Sheet, parameters: &[Identifier5]) -> Result<(), AllocError>
    ensures { OnOk result ((rest : List Piece) → written out.new rest ≡ written out.old (parameters_of false parameters.now rest)) }
{
    let mut again = false;
    for parameter in parameters {
        print_comma(out, again)?;
        out.word(parameter.name.bytes())?;
        again = true;
    }
    Ok(())
}

/// Writes statements in braces.
#[cycle(print)]
fn print_body(out: &mut Sheet, body: &[Stat5]) -> Result<(), AllocError>
    ensures { OnOk result ((rest : List Piece) → written out.new rest ≡ written out.old (body_of (map stat_shown body.now) rest)) }
{
    out.mark(b"{")?;
    out.line_end()?;
    print_stats(out, body)?;
    out.mark(b"}")
}

/// Marks the begin of a chain for each of its calls that carries a site.
fn print_begins(out: &mut Sheet, links: &[Link5]) -> Result<(), AllocError>
    ensures { OnOk result ((rest : List Piece) → written out.new rest ≡ written out.old (begins_of (map link_shown links.now) rest)) }
{
    for link in links {
        print_begin(out, link)?;
    }
    Ok(())
}

fn print_begin(out: &mut Sheet, link: &Link5) -> Result<(), AllocError>
    ensures { OnOk result ((rest : List Piece) → written out.new rest ≡ written out.old (sites_of (link_shown link.now).sites rest)) }
{
    match link {
        Link5::Member { .. } => Ok(()),
        Link5::Index { .. } => Ok(()),
        Link5::Call { site, .. } => print_site(out, *site),
    }
}

fn print_site(out: &mut Sheet, site: Option<Site>) -> Result<(), AllocError>
    ensures { OnOk result ((rest : List Piece) → written out.new rest ≡ written out.old (sites_of (some_site site) rest)) }
{
    match site {
        None => Ok(()),
        Some(site) => out.begins(site),
    }
}

#[cycle(print)]
fn print_links(out: &mut Sheet, links: &[Link5]) -> Result<(), AllocError>
    ensures { OnOk result ((rest : List Piece) → written out.new rest ≡ written out.old (links_of (map link_shown links.now) rest)) }
{
    for link in links {
        print_link(out, link)?;
    }
    Ok(())
}

/// 11.2
#[cycle(print)]
fn print_link(out: &mut Sheet, link: &Link5) -> Result<(), AllocError>
    ensures { OnOk result ((rest : List Piece) → written out.new rest ≡ written out.old ((link_shown link.now).link rest)) }
{
    match link {
        Link5::Member { name, .. } => {
            out.mark(b".")?;
            out.word(name.bytes())
        }
        Link5::Index { index, .. } => {
            out.mark(b"[")?;
            print_expr(out, index, false, shape::SEQUENCE)?;
            out.mark(b"]")
        }
        Link5::Call { arguments, .. } => print_arguments(out, arguments.as_slice()),
    }
}

/// Writes arguments in parentheses.
#[cycle(print)]
fn print_arguments(out: &mut Sheet, arguments: &[Expr5]) -> Result<(), AllocError>
    ensures { OnOk result ((rest : List Piece) → written out.new rest ≡ written out.old (parenthesized_arguments (map shown arguments.now) rest)) }
{
    out.mark(b"(")?;
    print_argument_list(out, arguments)?;
    out.mark(b")")
}

#[cycle(print)]
fn print_argument_list(out: &mut Sheet, arguments: &[Expr5]) -> Result<(), AllocError>
    ensures { OnOk result ((rest : List Piece) → written out.new rest ≡ written out.old (arguments_of false (map shown arguments.now) rest)) }
{
    let mut again = false;
    for argument in arguments {
        print_comma(out, again)?;
        print_expr(out, argument, false, shape::ASSIGNMENT)?;
        again = true;
    }
    Ok(())
}

/// Writes the operands after the first, each after its operator.
#[cycle(print)]
fn print_operands(
    out: &mut Sheet,
    operands: &[Operand5],
    no_in: bool,
    level: u8,
) -> Result<(), AllocError>
    requires { level < 255 }
    ensures { OnOk result ((rest : List Piece) → written out.new rest ≡ written out.old (operands_of no_in level (map operand_shown operands.now) rest)) }
{
    for operand in operands {
        print_binary(out, operand.operator)?;
        print_expr(out, &operand.value, no_in, level + 1)?;
    }
    Ok(())
}

/// Writes the parts of a sequence after the first.
#[cycle(print)]
fn print_parts(out: &mut Sheet, parts: &[Expr5], no_in: bool) -> Result<(), AllocError>
    ensures { OnOk result ((rest : List Piece) → written out.new rest ≡ written out.old (parts_of no_in (map shown parts.now) rest)) }
{
    for part in parts {
        out.mark(b",")?;
        print_expr(out, part, no_in, shape::ASSIGNMENT)?;
    }
    Ok(())
}

/// Writes an expression in parentheses, as after `if`.
#[cycle(print)]
fn print_header(out: &mut Sheet, x: &Expr5) -> Result<(), AllocError>
    ensures { OnOk result ((rest : List Piece) → written out.new rest ≡ written out.old (header_of (shown x.now) rest)) }
{
    out.mark(b"(")?;
    print_expr(out, x, false, shape::SEQUENCE)?;
    out.mark(b")")
}

/// Writes an expression that may be absent, and a punctuator after it.
#[cycle(print)]
fn print_maybe(out: &mut Sheet, x: &Option<Expr5>, sign: &[u8]) -> Result<(), AllocError>
    ensures { OnOk result ((rest : List Piece) → written out.new rest ≡ written out.old (maybe (option_map shown x.now) (mark sign.now rest))) }
{
    match x {
        None => out.mark(sign),
        Some(x) => {
            print_expr(out, x, false, shape::SEQUENCE)?;
            out.mark(sign)
        }
    }
}

/// Writes an expression, in parentheses where they are wanted.
#[cycle(print)]
fn print_grouped(out: &mut Sheet, x: &Expr5, group: bool) -> Result<(), AllocError>
    ensures { OnOk result ((rest : List Piece) → written out.new rest ≡ written out.old (grouped group (whole (shown x.now)) rest)) }
{
    if group {
        print_header(out, x)
    } else {
        print_expr(out, x, false, shape::SEQUENCE)
    }
}

/// Writes the value of a return or a throw, in parentheses where a line may be broken before it (7.9.1).
#[cycle(print)]
fn print_value(out: &mut Sheet, value: &Expr5) -> Result<(), AllocError>
    ensures { OnOk result ((rest : List Piece) → written out.new rest ≡ written out.old (value_of (shown value.now) rest)) }
{
    let group = shape::begins_call(value, shape::SEQUENCE);
    print_grouped(out, value, group)?;
    Ok(())
}

/// Writes the expression of a statement, in parentheses where it would begin as another statement does (12.4).
#[cycle(print)]
fn print_opened(out: &mut Sheet, x: &Expr5) -> Result<(), AllocError>
    ensures { OnOk result ((rest : List Piece) → written out.new rest ≡ written out.old (opened_of (shown x.now) rest)) }
{
    let group = shape::opens(x, shape::SEQUENCE);
    print_grouped(out, x, group)?;
    Ok(())
}

/// Writes the value of a return (12.9).
#[cycle(print)]
fn print_returned(out: &mut Sheet, value: &Option<Expr5>) -> Result<(), AllocError>
    ensures { OnOk result ((rest : List Piece) → written out.new rest ≡ written out.old (returned_of (option_map shown value.now) rest)) }
{
    match value {
        None => Ok(()),
        Some(value) => print_value(out, value),
    }
}

/// Writes statements.
#[cycle(print)]
pub(crate) fn print_stats(out: &mut Sheet, stats: &[Stat5]) -> Result<(), AllocError>
    ensures { OnOk result ((rest : List Piece) → written out.new rest ≡ written out.old (all (map stat_shown stats.now) rest)) }
{
    for stat in stats {
        print_stat(out, stat)?;
    }
    Ok(())
}

fn print_end(out: &mut Sheet) -> Result<(), AllocError>
    ensures { OnOk result ((rest : List Piece) → written out.new rest ≡ written out.old (end_of rest)) }
{
    out.mark(b";")?;
    out.line_end()
}

fn print_for(out: &mut Sheet) -> Result<(), AllocError>
    ensures { OnOk result ((rest : List Piece) → written out.new rest ≡ written out.old (word (codes "for") (mark (codes "(") rest))) }
{
    out.word(b"for")?;
    out.mark(b"(")
}

fn print_continue(out: &mut Sheet, label: &Option<Identifier5>) -> Result<(), AllocError>
    ensures { OnOk result ((rest : List Piece) → written out.new rest ≡ written out.old (word (codes "continue") (name_of label.now (end_of rest)))) }
{
    out.word(b"continue")?;
    print_name(out, label)?;
    print_end(out)?;
    Ok(())
}

fn print_break(out: &mut Sheet, label: &Option<Identifier5>) -> Result<(), AllocError>
    ensures { OnOk result ((rest : List Piece) → written out.new rest ≡ written out.old (word (codes "break") (name_of label.now (end_of rest)))) }
{
    out.word(b"break")?;
    print_name(out, label)?;
    print_end(out)
}

fn print_debugger(out: &mut Sheet) -> Result<(), AllocError>
    ensures { OnOk result ((rest : List Piece) → written out.new rest ≡ written out.old (word (codes "debugger") (end_of rest))) }
{
    out.word(b"debugger")?;
    print_end(out)?;
    Ok(())
}

/// Writes a statement and the end of its line (12).
#[cycle(print)]
fn print_stat(out: &mut Sheet, stat: &Stat5) -> Result<(), AllocError>
    ensures { OnOk result ((rest : List Piece) → written out.new rest ≡ written out.old (stat_shown stat.now rest)) }
{
    match stat {
        Stat5::Var { declared, .. } => {
            out.word(b"var")?;
            print_declared_list(out, declared.as_slice(), false)?;
            print_end(out)
        }
        Stat5::FunctionDeclaration(function) => {
            print_function(out, function.get())?;
            out.line_end()
        }
        Stat5::Block(block) => {
            print_block(out, block)?;
            out.line_end()
        }
        Stat5::Empty { .. } => print_end(out),
        Stat5::Expression { expression, .. } => {
            print_opened(out, expression)?;
            print_end(out)
        }
        Stat5::If {
            first,
            more,
            otherwise,
            ..
        } => {
            print_condition(out, first)?;
            print_more(out, more.as_slice())?;
            print_otherwise(out, otherwise)
        }
        Stat5::DoWhile { body, test, .. } => {
            out.word(b"do")?;
            print_stat(out, body.get())?;
            out.word(b"while")?;
            print_header(out, test)?;
            print_end(out)
        }
        Stat5::While { test, body, .. } => {
            out.word(b"while")?;
            print_header(out, test)?;
            print_stat(out, body.get())
        }
        Stat5::For {
            first,
            test,
            update,
            body,
            ..
        } => {
            print_for(out)?;
            print_for_first(out, first)?;
            print_maybe(out, test, b";")?;
            print_maybe(out, update, b")")?;
            print_stat(out, body.get())
        }
        Stat5::Continue { label, .. } => print_continue(out, label),
        Stat5::Break { label, .. } => print_break(out, label),
        Stat5::Return { value, .. } => {
            out.word(b"return")?;
            print_returned(out, value)?;
            print_end(out)
        }
        Stat5::Switch { subject, cases, .. } => {
            out.word(b"switch")?;
            print_header(out, subject)?;
            print_cases(out, cases.as_slice())?;
            out.line_end()
        }
        Stat5::Labelled { label, body, .. } => {
            out.word(label.name.bytes())?;
            out.mark(b":")?;
            print_stat(out, body.get())
        }
        Stat5::Throw { value, .. } => {
            out.word(b"throw")?;
            print_value(out, value)?;
            print_end(out)
        }
        Stat5::Try {
            block,
            catch,
            finally,
            ..
        } => {
            out.word(b"try")?;
            print_block(out, block)?;
            print_catch(out, catch)?;
            print_finally(out, finally)?;
            out.line_end()
        }
        Stat5::Debugger { .. } => print_debugger(out),
    }
}

/// 12.1
#[cycle(print)]
fn print_block(out: &mut Sheet, block: &Block5) -> Result<(), AllocError>
    ensures { OnOk result ((rest : List Piece) → written out.new rest ≡ written out.old (block_shown block.now rest)) }
{
    print_body(out, block.statements.as_slice())
}

#[cycle(print)]
fn print_otherwise(out: &mut Sheet, otherwise: &Option<Boxed<Stat5>>) -> Result<(), AllocError>
    ensures { OnOk result ((rest : List Piece) → written out.new rest ≡ written out.old (otherwise_of (option_map stat_shown otherwise.now) rest)) }
{
    match otherwise {
        None => Ok(()),
        Some(otherwise) => {
            out.word(b"else")?;
            print_stat(out, otherwise.get())
        }
    }
}

/// 12.2
#[cycle(print)]
fn print_declared_list(
    out: &mut Sheet,
    declared: &[Declared5],
    no_in: bool,
) -> Result<(), AllocError>
    ensures { OnOk result ((rest : List Piece) → written out.new rest ≡ written out.old (declared_of no_in false (map declared_shown declared.now) rest)) }
{
    let mut again = false;
    for one in declared {
        print_comma(out, again)?;
        print_declared(out, one, no_in)?;
        again = true;
    }
    Ok(())
}

#[cycle(print)]
fn print_declared(out: &mut Sheet, declared: &Declared5, no_in: bool) -> Result<(), AllocError>
    ensures { OnOk result ((rest : List Piece) → written out.new rest ≡ written out.old (declared_shown declared.now no_in rest)) }
{
    out.word(declared.name.name.bytes())?;
    print_init(out, &declared.init, no_in)
}

#[cycle(print)]
fn print_init(out: &mut Sheet, init: &Option<Expr5>, no_in: bool) -> Result<(), AllocError>
    ensures { OnOk result ((rest : List Piece) → written out.new rest ≡ written out.old (init_of no_in (option_map shown init.now) rest)) }
{
    match init {
        None => Ok(()),
        Some(init) => {
            out.mark(b"=")?;
            print_expr(out, init, no_in, shape::ASSIGNMENT)
        }
    }
}

/// Writes a test and the statement under it (12.5).
#[cycle(print)]
fn print_condition(out: &mut Sheet, condition: &Condition5) -> Result<(), AllocError>
    ensures { OnOk result ((rest : List Piece) → written out.new rest ≡ written out.old (condition_shown condition.now rest)) }
{
    out.word(b"if")?;
    print_header(out, &condition.test)?;
    print_stat(out, condition.body.get())
}

#[cycle(print)]
fn print_more(out: &mut Sheet, more: &[Condition5]) -> Result<(), AllocError>
    ensures { OnOk result ((rest : List Piece) → written out.new rest ≡ written out.old (more_of (map condition_shown more.now) rest)) }
{
    for condition in more {
        out.word(b"else")?;
        print_condition(out, condition)?;
    }
    Ok(())
}

/// Writes what stands before the first semicolon of a for header, and that semicolon (12.6.3).
#[cycle(print)]
fn print_for_first(out: &mut Sheet, first: &ForFirst5) -> Result<(), AllocError>
    ensures { OnOk result ((rest : List Piece) → written out.new rest ≡ written out.old (for_first_shown first.now rest)) }
{
    match first {
        ForFirst5::NoFirst => out.mark(b";"),
        ForFirst5::FirstVar(declared) => {
            out.word(b"var")?;
            print_declared_list(out, declared.as_slice(), true)?;
            out.mark(b";")
        }
        ForFirst5::FirstExpression(x) => {
            print_expr(out, x, true, shape::SEQUENCE)?;
            out.mark(b";")
        }
    }
}

/// Writes the clauses of a switch in braces (12.11).
#[cycle(print)]
fn print_cases(out: &mut Sheet, cases: &[Case5]) -> Result<(), AllocError>
    ensures { OnOk result ((rest : List Piece) → written out.new rest ≡ written out.old (body_of (map case_shown cases.now) rest)) }
{
    out.mark(b"{")?;
    out.line_end()?;
    print_case_list(out, cases)?;
    out.mark(b"}")
}

#[cycle(print)]
fn print_case_list(out: &mut Sheet, cases: &[Case5]) -> Result<(), AllocError>
    ensures { OnOk result ((rest : List Piece) → written out.new rest ≡ written out.old (all (map case_shown cases.now) rest)) }
{
    for case in cases {
        print_case(out, case)?;
    }
    Ok(())
}

#[cycle(print)]
fn print_case(out: &mut Sheet, case: &Case5) -> Result<(), AllocError>
    ensures { OnOk result ((rest : List Piece) → written out.new rest ≡ written out.old (case_shown case.now rest)) }
{
    print_case_test(out, &case.test)?;
    out.mark(b":")?;
    out.line_end()?;
    print_stats(out, case.body.as_slice())
}

#[cycle(print)]
fn print_case_test(out: &mut Sheet, test: &Option<Expr5>) -> Result<(), AllocError>
    ensures { OnOk result ((rest : List Piece) → written out.new rest ≡ written out.old (case_test (option_map shown test.now) rest)) }
{
    match test {
        None => out.word(b"default"),
        Some(test) => {
            out.word(b"case")?;
            print_expr(out, test, false, shape::SEQUENCE)
        }
    }
}

/// 12.14
#[cycle(print)]
fn print_catch(out: &mut Sheet, catch: &Option<Catch5>) -> Result<(), AllocError>
    ensures { OnOk result ((rest : List Piece) → written out.new rest ≡ written out.old (catch_of (option_map catch_shown catch.now) rest)) }
{
    match catch {
        None => Ok(()),
        Some(catch) => {
            out.word(b"catch")?;
            out.mark(b"(")?;
            out.word(catch.parameter.name.bytes())?;
            out.mark(b")")?;
            print_block(out, &catch.body)
        }
    }
}

#[cycle(print)]
fn print_finally(out: &mut Sheet, finally: &Option<Block5>) -> Result<(), AllocError>
    ensures { OnOk result ((rest : List Piece) → written out.new rest ≡ written out.old (finally_of (option_map block_shown finally.now) rest)) }
{
    match finally {
        None => Ok(()),
        Some(finally) => {
            out.word(b"finally")?;
            print_block(out, finally)
        }
    }
}
