//! The law on which linking rests.

ghost use Rattle.std.specs.Prelude.{◌≡◌, List, ℕ, length};
ghost use Rattle.es6_ast.specs.declared.graph.EndOf.{EndOf};
ghost use Rattle.es6_ast.specs.declared.graph.Graph.{Graph};
ghost use Rattle.es6_static_semantics.specs.Graphs.{IsLinked, IsLoaded};
ghost use Rattle.module_links.specs.Links.{AreLinked, linked_with};
ghost use Rattle.module_links.specs.Zips.{zipped};

/// A loaded graph into which the endings of its modules are put is linked.
pub fn put_endings_link()
    ensures { (g h : Graph) (hosts : List (List ℕ)) (all : List (List EndOf)) → IsLoaded g → AreLinked g hosts (length g.modules) all → h.modules ≡ zipped linked_with g.modules all → IsLinked h hosts }
{}
