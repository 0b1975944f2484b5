ghost use Rattle.std.specs.Prelude.{◌≡◌};
ghost use Rattle.es5_ast.specs.Early.{comes_first, rule_comes_first};
ghost use Rattle.es5_early.specs.Pairs.{rule_of, pair_of};

/// A rule that a script breaks, by its number in docs/ES5_PROFILE.md.
#[derive(Clone, Copy, Debug, PartialEq, Eq)]
pub enum Rule {
    /// table F: an early error of strict code (ECMA-262, 5.1 edition, 16 and annex C)
    Early(u8),
    /// table V: what the profile leaves out
    Outside(u8),
}

/// A rule that a script breaks, and where: an offset in bytes from 0.
#[derive(Clone, Copy, Debug, PartialEq, Eq)]
pub struct Pair {
    pub rule: Rule,
    pub at: u32,
}

impl Rule {
    fn comes_first(self, other: Rule) -> bool
        ensures { result ≡ rule_comes_first (rule_of self) (rule_of other) }
    {
        match (self, other) {
            (Rule::Early(m), Rule::Early(n)) => m < n,
            (Rule::Early(_), Rule::Outside(_)) => true,
            (Rule::Outside(_), Rule::Early(_)) => false,
            (Rule::Outside(m), Rule::Outside(n)) => m < n,
        }
    }
}

impl Pair {
    /// Whether this pair is reported before the other one.
    pub(crate) fn comes_first(self, other: Pair) -> bool
        ensures { result ≡ comes_first (pair_of self) (pair_of other) }
    {
        self.at < other.at || (self.at == other.at && self.rule.comes_first(other.rule))
    }
}
