//! Where the sites of a run stand.

ghost use Rattle.std.specs.Prelude.{◌≡◌};

use es_outside::Site;
use es_text::Place;

/// The files of a run's sites, and the places of the sites in them.
pub trait Places {
    ghost use Rattle.program_runs.specs.Outcomes.{Sites};

    ghost sites: { Self → Sites };

    /// The path of the file that a site stands in.
    fn path(&self, site: Site) -> &[u8]
        ensures { result.now ≡ (sites self.now).path site };

    /// The place of a site in its file.
    fn place(&self, site: Site) -> Place
        ensures { result ≡ (sites self.now).place site };
}
