//! What a text is read as.

/// What a text is read as.
#[derive(Clone, Copy, Debug, PartialEq, Eq)]
pub enum Goal {
    Module,
    Expression,
    Statement,
    /// an expression that is refined to a pattern
    Pattern,
    /// an expression that is refined to an arrow's parameters
    Parameters,
}

impl Goal {
    /// The goal that the word names.
    pub fn of_word(word: &str) -> Option<Goal> {
        match word {
            "module" => Some(Goal::Module),
            "expression" => Some(Goal::Expression),
            "statement" => Some(Goal::Statement),
            "pattern" => Some(Goal::Pattern),
            "parameters" => Some(Goal::Parameters),
            _ => None,
        }
    }
}
