//! Paths whose normal form is known, and what names no path.

use module_paths::{PathFault, normal_form, normal_path};
use shared_text::Units;
use std::alloc::{AllocError, Global};
use std::process::Abort;
use std::test::Fail;

fn shown(alloc: Global, path: Result<String, PathFault>) -> Result<String, AllocError> {
    match path {
        Ok(path) => Ok(path),
        Err(PathFault::BadSpecifier) => String::from_str(alloc, "bad specifier"),
        Err(PathFault::OutOfMemory) => String::from_str(alloc, "out of memory"),
    }
}

fn assert_named(
    rt: &impl Abort,
    alloc: Global,
    base: &str,
    specifier: &str,
    wanted: &str,
) -> Result<(), AllocError> {
    let units = Units::of(alloc, specifier)?;
    let path = shown(alloc, normal_path(alloc, base, units.units()))?;
    assert_eq!(rt; path.as_str(), wanted, "{specifier} in {base}");
    Ok(())
}

fn assert_form(rt: &impl Abort, alloc: Global, path: &str, wanted: &str) -> Result<(), AllocError> {
    let form = shown(alloc, normal_form(alloc, path))?;
    assert_eq!(rt; form.as_str(), wanted, "{path}");
    Ok(())
}

#[test]
fn specifiers_are_joined_to_the_folder(rt: HostRuntime) -> Result<(), Fail> {
    let alloc = rt.alloc();
    assert_named(&rt, alloc, "a/b.js", "../c.js", "c.js")?;
    assert_named(&rt, alloc, "a/b.js", "./c.js", "a/c.js")?;
    assert_named(&rt, alloc, "main.js", "./b.js", "b.js")?;
    assert_named(&rt, alloc, "main.js", "../b.js", "../b.js")?;
    assert_named(&rt, alloc, "../a/b.js", "../../c.js", "../../c.js")?;
    assert_named(&rt, alloc, "/a.js", "../../b.js", "/b.js")?;
    assert_named(&rt, alloc, "a/b.js", "./x//./y/../z.js", "a/x/z.js")?;
    Ok(())
}

#[test]
fn other_specifiers_name_no_path(rt: HostRuntime) -> Result<(), Fail> {
    let alloc = rt.alloc();
    for specifier in ["b.js", "/b.js", "", ".", "..", "./", "host", "./a\0b.js"] {
        assert_named(&rt, alloc, "main.js", specifier, "bad specifier")?;
    }
    assert_named(&rt, alloc, "/a.js", "../", "bad specifier")?;
    assert_named(&rt, alloc, "a/b.js", "..//", "bad specifier")?;
    let lone = [0x2E, 0x2F, 0xD83D, 0x61];
    let path = shown(alloc, normal_path(alloc, "main.js", &lone))?;
    assert_eq!(rt; path.as_str(), "bad specifier");
    let pair = [0x2E, 0x2F, 0xD83D, 0xDE00];
    let path = shown(alloc, normal_path(alloc, "main.js", &pair))?;
    assert_eq!(rt; path.as_str(), "\u{1F600}");
    Ok(())
}

#[test]
fn paths_have_a_normal_form(rt: HostRuntime) -> Result<(), Fail> {
    let alloc = rt.alloc();
    assert_form(&rt, alloc, "/a/../b.js", "/b.js")?;
    assert_form(&rt, alloc, "main.js", "main.js")?;
    assert_form(&rt, alloc, "./a/./b//c.js", "a/b/c.js")?;
    assert_form(&rt, alloc, "../../a.js", "../../a.js")?;
    assert_form(&rt, alloc, "a/../../b.js", "../b.js")?;
    for path in ["", ".", "/", "a/..", "/..", "//", "a\0b"] {
        assert_form(&rt, alloc, path, "bad specifier")?;
    }
    Ok(())
}
