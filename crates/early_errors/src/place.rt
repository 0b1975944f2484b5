//! What is round a part of a module, but its labels.

ghost use Rattle.std.specs.Prelude.{◌≡◌, true, false};

/// Whether a super call, a super property and `new.target` may stand at a place (12.3.5, 12.3.8), whether it is in parameters
/// (14.2.1, 14.4.1), and whether it is in a loop or in a switch (13.8.1, 13.9.1), inside the innermost function.
#[derive(Clone, Copy, Debug, PartialEq, Eq)]
pub(crate) struct Place {
    pub(crate) super_call: bool,
    pub(crate) super_property: bool,
    pub(crate) new_target: bool,
    pub(crate) in_parameters: bool,
    pub(crate) in_loop: bool,
    pub(crate) in_switch: bool,
}

impl Place {
    /// The top level of a module.
    pub(crate) const TOP: Place = Place {
        super_call: false,
        super_property: false,
        new_target: false,
        in_parameters: false,
        in_loop: false,
        in_switch: false,
    };

    /// In a function, by whether a super call and a super property may stand there.
    pub(crate) fn of_function(super_call: bool, super_property: bool) -> Place
        ensures { result ≡ record { super_call = super_call; super_property = super_property; new_target = true; in_parameters = false; in_loop = false; in_switch = false } }
    {
        Place {
            super_call,
            super_property,
            new_target: true,
            in_parameters: false,
            in_loop: false,
            in_switch: false,
        }
    }

    /// In the parameters there, or in the body.
    pub(crate) fn with_parameters(self, in_parameters: bool) -> Place
        ensures { result ≡ record self { in_parameters = in_parameters } }
    {
        Place {
            in_parameters,
            ..self
        }
    }

    /// The statements of a body there.
    pub(crate) fn of_body(self) -> Place
        ensures { result ≡ record self { in_loop = false; in_switch = false } }
    {
        Place {
            in_loop: false,
            in_switch: false,
            ..self
        }
    }

    /// In a loop there.
    pub(crate) fn under_loop(self) -> Place
        ensures { result ≡ record self { in_loop = true } }
    {
        Place {
            in_loop: true,
            ..self
        }
    }

    /// In a switch there.
    pub(crate) fn under_switch(self) -> Place
        ensures { result ≡ record self { in_switch = true } }
    {
        Place {
            in_switch: true,
            ..self
        }
    }
}
