ghost use Rattle.std.specs.Prelude.{◌≡◌, if◌then◌else◌};
ghost use Rattle.es6_reading.specs.Refine.{fits_if};
ghost use Rattle.es6_refine.specs.Fitting.{fit_of, held_fit, is_fitting};

/// Whether an expression is what is asked of it.
#[derive(Clone, Copy, Debug, PartialEq, Eq)]
pub enum Fit {
    Fits,
    /// The first part that isn't begins there.
    Misfit { at: u32 },
    /// It is nested more than is looked at.
    TooNested,
}

impl Fit {
    pub fn fits(self) -> bool
        ensures { result ≡ is_fitting self }
    {
        match self {
            Fit::Fits => true,
            Fit::Misfit { .. } | Fit::TooNested => false,
        }
    }

    /// Of what holds the expression, and is a misfit at its own place.
    pub(crate) fn held_at(self, at: u32) -> Fit
        ensures { result ≡ held_fit at self }
    {
        match self {
            Fit::Misfit { .. } => Fit::Misfit { at },
            fit => fit,
        }
    }

    pub(crate) fn fits_if(fits: bool, at: u32) -> Fit
        ensures { result ≡ fit_of (fits_if fits at) }
    {
        if fits { Fit::Fits } else { Fit::Misfit { at } }
    }
}
