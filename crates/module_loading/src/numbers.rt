//! The numbers of the modules that requests name.

ghost use Rattle.std.specs.Prelude.{◌≡◌, ◌≤◌, length, map, IfOk};
ghost use Rattle.module_loading.specs.Requests.{is_host, number_of, numbered, renumbered};

use crate::path_list::PathList;
use crate::reader::ReadsModules;
use es6_ast::Request;
use module_paths::{PathFault, normal_path};
use sqlite_items::Items;
use std::alloc::{AllocError, Global};

const HOST: [u16; 4] = [0x68, 0x6F, 0x73, 0x74];

pub(crate) fn is_host(request: &Request) -> bool
    ensures { result ≡ is_host request.now }
{
    let host = HOST;
    request.specifier.units() == host.as_slice()
}

/// A module with the path `base`, with the numbers of the modules that it requests.
pub(crate) fn renumbered<R: ReadsModules>(
    alloc: Global,
    paths: &PathList,
    made: R::Module,
    base: &str,
) -> Result<R::Module, AllocError>
    requires { length paths.now ≤ 1024 }
    ensures { IfOk result (λ it. it ≡ renumbered R.requests R.requested paths.now made base.now) }
{
    let requests = numbered(alloc, paths, base, R::requests(&made))?;
    Ok(R::with_requests(made, requests))
}

fn numbered(
    alloc: Global,
    paths: &PathList,
    base: &str,
    requests: &[Request],
) -> Result<Items<Request>, AllocError>
    requires { length paths.now ≤ 1024 }
    ensures { IfOk result (λ all. all ≡ map (numbered paths.now base.now) requests.now) }
{
    let mut all = Items::new(alloc);
    for request in requests {
        let number = number_of(alloc, paths, base, request)?;
        all.push(Request {
            at: request.at,
            specifier: request.specifier.copy(alloc)?,
            module: number,
        })?;
    }
    Ok(all)
}

fn number_of(
    alloc: Global,
    paths: &PathList,
    base: &str,
    request: &Request,
) -> Result<Option<u32>, AllocError>
    requires { length paths.now ≤ 1024 }
    ensures { IfOk result (λ number. number ≡ number_of paths.now base.now request.now) }
{
    if is_host(request) {
        return Ok(None);
    }
    match normal_path(alloc, base, request.specifier.units()) {
        Ok(path) => Ok(paths.number(path.as_str())),
        Err(PathFault::BadSpecifier) => Ok(None),
        Err(PathFault::OutOfMemory) => Err(AllocError),
    }
}
