//! The definitions that are wanted.

ghost use Rattle.std.specs.Prelude.{◌≡◌, filter, map, slice_get};
ghost use Rattle.std.specs.List.{list_any};
ghost use Rattle.es5_ast.specs.declared.tree.Declared5.{out-Declared5};
ghost use Rattle.es_outside.specs.HostNames.{is_among};
ghost use Rattle.emission_rules.specs.Naming.{declares, identifier_names};
ghost use Rattle.helpers.specs.Wanted.{is_kept, kept, passes};

use crate::wanted::is_among;
use es5_ast::{Declared5, Identifier5, Stat5};
use shared_text::Name;
use sqlite_items::Items;

fn is_one_declared(names: &[Name], declared: &[Declared5]) -> bool
    ensures { result ≡ list_any (is_among names.now) (map (λ d. (out-Declared5 d).name.name) declared.now) }
{
    for one in declared {
        if is_among(names, one.name.name.bytes()) {
            return true;
        }
    }
    false
}

fn is_name_among(names: &[Name], name: &Option<Identifier5>) -> bool
    ensures { result ≡ list_any (is_among names.now) (identifier_names name.now) }
{
    match name {
        Some(name) => is_among(names, name.name.bytes()),
        None => false,
    }
}

/// Whether the statement declares one of these names.
#[tactic(auto, unfolding(emission_rules::specs::Naming::declares))]
fn is_kept(names: &[Name], stat: &Stat5) -> bool
    ensures { result ≡ is_kept names.now stat.now }
{
    match stat {
        Stat5::Var { declared, .. } => is_one_declared(names, declared.as_slice()),
        Stat5::FunctionDeclaration(function) => is_name_among(names, &function.get().name),
        _ => false,
    }
}

/// What declares names.
trait Declares {
    ghost use Rattle.std.specs.Prelude.{ℕ, Bool, List};

    ghost kept_by: { List (List ℕ) → Self → Bool };

    /// Whether it declares one of these.
    fn declares(&self, names: &[Name]) -> bool
        ensures { result ≡ Self.kept_by names.now self.now };
}

impl Declares for Stat5 {
    ghost use Rattle.helpers.specs.Wanted.{is_kept};

    ghost kept_by = { is_kept };

    fn declares(&self, names: &[Name]) -> bool {
        is_kept(names, self)
    }
}

/// Whether there is an element at the place, and it declares one of these names.
fn is_kept_at<T: Declares>(names: &[Name], items: &Items<T>, at: usize) -> bool
    ensures { result ≡ passes (T.kept_by names.now) (slice_get items.now at) }
{
    match items.get(at) {
        Some(item) => item.declares(names),
        None => false,
    }
}

/// The elements that declare one of these names, in their order.
#[tactic(auto, using(crate::proofs::Keeping::passed_on, crate::proofs::Keeping::passed_without, crate::proofs::Keeping::fewer_without, crate::proofs::Keeping::passed_end))]
fn keep_declared<T: Declares + Drop>(names: &[Name], items: &mut Items<T>)
    ensures { items.new ≡ filter (T.kept_by names.now) items.old }
{
    let mut at = 0;
    while at < items.len() {
        if is_kept_at::<T>(names, items, at) {
            at += 1;
        } else {
            items.remove(at);
        }
    }
}

/// The statements that declare one of these names, in their order.
pub fn keep(names: &[Name], statements: &mut Items<Stat5>)
    ensures { statements.new ≡ kept names.now statements.old }
{
    keep_declared::<Stat5>(names, statements);
}
