ghost use Rattle.std.specs.Prelude.{◌≡◌};
ghost use Rattle.es6_static_semantics.specs.Findings.{comes_first};
ghost use Rattle.early_findings.specs.Pairs.{pair_of};

/// A rule that a module breaks, by its number in docs/PROFILE.md, and where: an offset in bytes from 0.
#[derive(Clone, Copy, Debug, PartialEq, Eq)]
pub struct Finding {
    pub rule: u8,
    pub at: u32,
}

impl Finding {
    /// Whether this finding is reported before the other one: by place, then by rule.
    pub fn comes_first(self, other: Finding) -> bool
        ensures { result ≡ comes_first (pair_of self) (pair_of other) }
    {
        self.at < other.at || (self.at == other.at && self.rule < other.rule)
    }
}
