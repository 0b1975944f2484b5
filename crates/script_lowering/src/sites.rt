//! The places of calls.

ghost use Rattle.std.specs.Prelude.{◌≡◌};
ghost use Rattle.script_lowering.specs.Expressions.{site_by};

use es_outside::Site;
use es_text::Span;

/// Which place a call has: that of the first token of its expression, or the one that it carries.
#[derive(Clone, Copy, Debug, PartialEq, Eq)]
pub enum Sites {
    BySpan,
    Carried,
}

/// The place of a call whose expression has this span, and which carries this place.
pub(crate) fn site_by(sites: Sites, span: Span, carried: Option<Site>) -> Option<Site>
    ensures { result ≡ site_by sites span carried }
{
    match sites {
        Sites::BySpan => Some(Site {
            module: 0,
            at: span.begin,
        }),
        Sites::Carried => carried,
    }
}
