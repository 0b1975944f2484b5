//! Requests that name no module yet.

ghost use Rattle.std.specs.Prelude.{◌≡◌, map, IfOk};
ghost use Rattle.rebuild.specs.Opening.{opened_request};

use es6_ast::Request;
use sqlite_items::Items;
use std::alloc::{AllocError, Global};

/// The same requests, of which it isn't known which modules they name.
pub fn open_requests(alloc: Global, requests: &[Request]) -> Result<Items<Request>, AllocError>
    ensures { IfOk result (λ all. all ≡ map opened_request requests.now) }
{
    let mut all = Items::new(alloc);
    for request in requests {
        all.push(Request {
            at: request.at,
            specifier: request.specifier.copy(alloc)?,
            module: None,
        })?;
    }
    Ok(all)
}
