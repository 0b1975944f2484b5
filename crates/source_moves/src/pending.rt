//! Pending work, by what makes it.

ghost use Rattle.std.specs.Prelude.{◌≡◌};

use es_value::Value;
use source_state::Naming;

/// What is pending, with a maker for each kind. Functions of steps know work by its makers alone, since one whose types reach all kinds of
/// work is dear to check.
pub trait PendingWork<'a>: Drop {
    ghost use Rattle.source_state.specs.declared.work.Work.{Work};
    ghost use Rattle.source_state.specs.declared.work.Work.TheVariants as work;

    /// The work of the definitions that it is.
    ghost seen: { Self → Work };

    /// This is the value, whatever is given.
    fn behind(value: Value) -> Self
        ensures { seen result ≡ work.Behind value };

    /// The value of a computed name.
    fn key_value(naming: Naming<'a>) -> Self
        ensures { seen result ≡ work.KeyValue naming.entry };

    /// The text of a computed name.
    fn key_text(naming: Naming<'a>) -> Self
        ensures { seen result ≡ work.KeyText naming.entry };
}
