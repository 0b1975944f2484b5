//! Putting endings into modules without a call that can fail.

ghost use Rattle.std.specs.Prelude.{◌≡◌, ◌≤◌, [], length, vec_capacity};
ghost use Rattle.module_links.specs.Zips.{zipped};

use es6_ast::EndOf;
use sqlite_items::Items;

/// Modules into which their endings are put. They stand behind a type, since what owns trees is dear to check.
pub trait Links {
    ghost use Rattle.std.specs.Prelude.{◌≡◌, List};
    ghost use Rattle.es6_ast.specs.declared.graph.EndOf.{EndOf};

    type Module: Drop;

    /// The module with these endings in place of its own.
    ghost linked_to: { Self.Module → List EndOf → Self.Module };

    fn linked(loaded: Self::Module, endings: Items<EndOf>) -> Self::Module
        ensures { result ≡ linked_to loaded endings };
}

/// Puts endings into modules, in a list for which the room is taken before, so that no call can fail.
pub fn relink<L: Links>(
    modules: &mut Items<L::Module>,
    mut endings: Items<Items<EndOf>>,
    mut room: Vec<L::Module>,
)
    requires empty { room.items ≡ [] }
    requires wide { length modules.old ≤ vec_capacity room }
    requires paired { length endings ≡ length modules.old }
    ensures { modules.new ≡ zipped L.linked_to modules.old endings }
{
    while let Some(module) = modules.pop() {
        if let Some(own) = endings.pop() {
            room.push_reserved(L::linked(module, own));
        }
    }
    room.reverse();
    *modules = Items::from_vec(room);
}
