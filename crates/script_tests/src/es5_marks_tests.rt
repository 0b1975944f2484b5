//! A printed mark. No text gives a tree with a site, so the tree is made here.

use es_outside::Site;
use es_text::{Place, Span};
use es5_ast::{Expr5, Link5, Script, Stat5};
use es5_printer::{Mark, write5};
use shared_text::Name;
use sqlite_items::{Boxed, Items};
use std::alloc::{AllocError, Global};
use std::test::Fail;

const SPAN: Span = Span { begin: 0, end: 0 };

const SITE: Site = Site { module: 3, at: 14 };

fn printed(alloc: Global, stat: Stat5) -> Result<(Vec<u8>, Vec<Mark>), AllocError> {
    let mut statements = Items::new(alloc);
    statements.push(stat)?;
    write5(
        alloc,
        &Script {
            span: SPAN,
            statements,
        },
    )
}

fn name(alloc: Global, text: &[u8]) -> Result<Expr5, AllocError> {
    Ok(Expr5::Name {
        span: SPAN,
        name: Name::of_bytes(alloc, text)?,
    })
}

fn statement(expression: Expr5) -> Stat5 {
    Stat5::Expression {
        span: SPAN,
        expression,
    }
}

fn call(
    alloc: Global,
    head: Expr5,
    arguments: Items<Expr5>,
    site: Option<Site>,
) -> Result<Expr5, AllocError> {
    let mut links = Items::new(alloc);
    links.push(Link5::Call {
        span: SPAN,
        arguments,
        site,
    })?;
    Ok(Expr5::Chain {
        span: SPAN,
        head: Boxed::new(alloc, head)?,
        links,
    })
}

#[test]
fn a_mark_stands_at_its_own_call(rt: HostRuntime) -> Result<(), Fail> {
    let alloc = rt.alloc();
    let mut arguments = Items::new(alloc);
    arguments.push(call(alloc, name(alloc, b"f")?, Items::new(alloc), Some(SITE))?)?;
    let outer = call(alloc, name(alloc, b"g")?, arguments, None)?;
    let (bytes, marks) = printed(alloc, statement(outer))?;
    assert_eq!(rt; bytes.as_slice(), b"g(f());\n".as_slice());
    assert_eq!(rt;
        marks.as_slice(),
        [Mark {
            generated: Place { line: 0, column: 2 },
            site: SITE
        }]
        .as_slice()
    );
    Ok(())
}
