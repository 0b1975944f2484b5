//! How readers of modules are set, and what they say of what they read.

ghost use Rattle.std.specs.Prelude.{◌≡◌};
ghost use Rattle.es6_ast.specs.Grammar.{of_arrow, of_function, of_module, with_in, without_in};
ghost use Rattle.es6_ast.specs.Settings.{has_calls, is_leading};

use es6_lexer::LexicalKind;

/// The parameters of productions (ECMA-262, 6th edition, 5.1.5): whether `in` is an operator, whether `yield` begins an
/// expression, and whether `return` stands.
#[derive(Clone, Copy, Debug, PartialEq, Eq)]
pub struct Flags {
    pub has_in: bool,
    pub has_yield: bool,
    pub has_return: bool,
}

impl Flags {
    pub const MODULE: Flags = Flags {
        has_in: true,
        has_yield: false,
        has_return: false,
    };

    /// Those of the top level of a module.
    pub fn of_module() -> Flags
        ensures { result ≡ of_module }
    {
        Flags::MODULE
    }

    /// Those of a function, or of a generator function.
    pub fn of_function(generator: bool) -> Flags
        ensures { result ≡ of_function generator }
    {
        Flags {
            has_in: true,
            has_yield: generator,
            has_return: true,
        }
    }

    /// The same where `in` is an operator.
    pub fn with_in(self) -> Flags
        ensures { result ≡ with_in self }
    {
        Flags {
            has_in: true,
            has_yield: self.has_yield,
            has_return: self.has_return,
        }
    }

    /// The same where `in` is no operator.
    pub fn without_in(self) -> Flags
        ensures { result ≡ without_in self }
    {
        Flags {
            has_in: false,
            has_yield: self.has_yield,
            has_return: self.has_return,
        }
    }

    /// Those of the body of an arrow that is an expression (14.2).
    pub fn of_arrow(self) -> Flags
        ensures { result ≡ of_arrow self }
    {
        Flags {
            has_in: self.has_in,
            has_yield: false,
            has_return: self.has_return,
        }
    }
}

/// Where an operand stands.
#[derive(Clone, Copy, Debug, PartialEq, Eq)]
pub enum Role {
    /// At the begin of an AssignmentExpression, so that its parentheses may be those of an arrow's parameters.
    Leading,
    /// Elsewhere among operators.
    Among,
    /// After `extends`.
    Heritage,
    /// After `new`.
    Callee,
}

impl Role {
    /// Whether the operand begins an AssignmentExpression.
    pub fn is_leading(self) -> bool
        ensures { result ≡ is_leading self }
    {
        match self {
            Role::Leading => true,
            Role::Among | Role::Heritage | Role::Callee => false,
        }
    }

    /// Whether calls may stand. They are no part of a MemberExpression (12.3).
    pub fn has_calls(self) -> bool
        ensures { result ≡ has_calls self }
    {
        match self {
            Role::Leading | Role::Among | Role::Heritage => true,
            Role::Callee => false,
        }
    }
}

/// Where a statement stands (13.2, 13.13).
#[derive(Clone, Copy, Debug, PartialEq, Eq)]
pub enum Stand {
    /// In a list, where declarations may stand too.
    Listed,
    /// Under another statement.
    Under,
    /// Under a label, where a function may be declared.
    Labelled,
}

/// What an expression is besides its tree.
#[derive(Clone, Copy, Debug, PartialEq, Eq)]
pub enum Shape {
    /// A name and nothing round it.
    Bare,
    /// A group and nothing round it (12.2.10).
    Grouped,
    /// Parentheses that only an arrow's parameters have (14.2).
    Covered,
    /// Another left-hand-side expression (12.3).
    LeftHandSide,
    /// None of these.
    Other,
}

/// Why no module goes on with the next token.
#[derive(Clone, Copy, Debug, PartialEq, Eq)]
pub enum Stop {
    /// No module begins with the tokens up to it.
    Syntax,
    /// It is the lexical fault of the text.
    Lexical(LexicalKind),
    /// A rule of table U of the profile, by its number.
    Outside(u8),
    /// One construct too many opens with it.
    Depth,
    /// A list is longer than any of a text of the allowed length.
    Endless,
}
