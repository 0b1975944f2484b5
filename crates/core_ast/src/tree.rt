//! The nodes: four types that hold one another.

use crate::parts::{CoreHead, CoreOp, Label, ScopedName, Var, When};
use es_outside::Site;
use sqlite_items::{Boxed, Items};

/// A head, and what is done to it from left to right. The site is where a script's expression stands.
#[cycle(core)]
#[derive(Drop)]
pub struct CoreExpr {
    pub site: Option<Site>,
    pub head: CoreHead,
    pub links: Items<CoreLink>,
}

/// What is done to the current value.
#[cycle(core)]
#[derive(Drop)]
pub enum CoreLink {
    /// The parts from left to right, then the operation on the current value and theirs. The site is the place of the
    /// expression that ends here: in a script of each, in a core of modules of the call of a host alone.
    Strict {
        op: CoreOp,
        parts: Items<CoreExpr>,
        site: Option<Site>,
    },
    /// `&&`, `||` (no `no`), `? :`
    Lazy {
        when: When,
        yes: Boxed<CoreExpr>,
        no: Option<Boxed<CoreExpr>>,
    },
    /// Statements; the current value is undefined behind them. Until yields are flattened.
    Run {
        body: Items<CoreStat>,
    },
}

/// A statement.
#[cycle(core)]
#[derive(Drop)]
pub enum CoreStat {
    Do(CoreExpr),
    /// The first case whose test holds; one without a test is the else.
    If {
        cases: Items<CoreCase>,
    },
    /// Falls through; a break goes to a label round it.
    Switch {
        subject: CoreExpr,
        cases: Items<CoreCase>,
    },
    Loop {
        labels: Items<Label>,
        test: Option<CoreExpr>,
        update: Option<CoreExpr>,
        body: Items<CoreStat>,
    },
    Labelled {
        label: Label,
        body: Items<CoreStat>,
    },
    /// A break or a continue. One without a label is of the innermost loop or switch; in scripts alone.
    Jump {
        goes_on: bool,
        label: Option<Label>,
    },
    Return(CoreExpr),
    Throw(CoreExpr),
    /// A record with the parameter, which takes the thrown value, and until scopes are flattened the names of the
    /// handler's pattern.
    TryCatch {
        block: Items<CoreStat>,
        parameter: Var,
        names: Items<ScopedName>,
        handler: Items<CoreStat>,
    },
    TryFinally {
        block: Items<CoreStat>,
        last: Items<CoreStat>,
    },
    /// A record with the names, until scopes are flattened.
    Scoped {
        names: Items<ScopedName>,
        body: Items<CoreStat>,
    },
    /// Hands the value out. A plain one stores the value of a resumption by `next`; a delegating one, which has a
    /// `kind`, stores the kind and the value of each resumption. Between the flattening of yields and the states.
    Yield {
        value: CoreExpr,
        kind: Option<Var>,
        result: Var,
    },
}

/// A case of an `If` or a `Switch`.
#[cycle(core)]
#[derive(Drop)]
pub struct CoreCase {
    pub test: Option<CoreExpr>,
    pub body: Items<CoreStat>,
}
