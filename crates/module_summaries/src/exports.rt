//! The names that a module exports, and where one goes on from each (15.2.3.5).

ghost use Rattle.std.specs.Prelude.{◌≡◌, ◌++◌, ◌∷◌, [], List, codes, map, IfOk, OnOk};
ghost use Rattle.es6_static_semantics.specs.Findings.{joined};
ghost use Rattle.es6_static_semantics.specs.Early.{some_name};
ghost use Rattle.es6_static_semantics.specs.Endings.{ImportEntry, default_binding, first_name, source_of};
ghost use Rattle.module_summaries.specs.Parts.{Knows, binding_at, exports_at, listed_exports, local_export, own_export, passed_export, source_at};

use crate::declares::Declares;
use crate::homes::Homes;
use es6_ast::{DefaultExport, ExportName, Identifier, Item, Specifier};
use module_endings::{Export, Home, Place, Sources};
use shared_text::Name;
use sqlite_items::Items;
use std::alloc::{AllocError, Global};

/// The module of which exports are found: its number, its requests' homes, and what its imports bind.
#[derive(Drop)]
pub(crate) struct Exporter<'a, 'b> {
    pub(crate) alloc: Global,
    pub(crate) number: u32,
    pub(crate) homes: Homes<'a>,
    pub(crate) imports: Sources<'b>,
}

impl<'a, 'b> Exporter<'a, 'b> {
    /// Adds what the items export.
    pub(crate) fn add<D: Declares>(
        &self,
        all: &mut Items<Export>,
        items: &[Item],
    ) -> Result<(), AllocError>
        ensures { OnOk result ((known : List ImportEntry) → Knows known self.now → all.new ≡ all.old ++ joined (exports_at known self.now) items.now) }
    {
        for item in items {
            self.add_item::<D>(all, item)?;
        }
        Ok(())
    }

    fn add_item<D: Declares>(&self, all: &mut Items<Export>, item: &Item) -> Result<(), AllocError>
        ensures { OnOk result ((known : List ImportEntry) → Knows known self.now → all.new ≡ all.old ++ exports_at known self.now item.now) }
    {
        match item {
            Item::ExportNames { names, from, .. } => {
                self.add_names(all, from, names.as_slice())?;
                Ok(())
            }
            Item::ExportDeclaration { declaration, .. } => {
                let names = D::declared(self.alloc, declaration)?;
                self.add_declared(all, names.as_slice())?;
                Ok(())
            }
            Item::ExportDefault { value, .. } => {
                self.add_default(all, value)?;
                Ok(())
            }
            Item::Import { .. } | Item::ExportAll { .. } | Item::Statement(_) => Ok(()),
        }
    }

    fn add_names(
        &self,
        all: &mut Items<Export>,
        from: &Option<Specifier>,
        names: &[ExportName],
    ) -> Result<(), AllocError>
        ensures { OnOk result ((known : List ImportEntry) → Knows known self.now → all.new ≡ all.old ++ listed_exports known self.now from.now names.now) }
    {
        match from {
            None => {
                self.add_local(all, names)?;
                Ok(())
            }
            Some(from) => {
                self.add_passed(all, from, names)?;
                Ok(())
            }
        }
    }

    /// Adds names of the module itself.
    fn add_local(&self, all: &mut Items<Export>, names: &[ExportName]) -> Result<(), AllocError>
        ensures { OnOk result ((known : List ImportEntry) → Knows known self.now → all.new ≡ all.old ++ map (local_export known self.now) names.now) }
    {
        for name in names {
            let export = Export {
                name: name.exported.name.copy(self.alloc)?,
                source: self.source(&name.local.name)?,
            };
            all.push(export)?;
        }
        Ok(())
    }

    /// Adds names of another module.
    fn add_passed(
        &self,
        all: &mut Items<Export>,
        from: &Specifier,
        names: &[ExportName],
    ) -> Result<(), AllocError>
        ensures { OnOk result (all.new ≡ all.old ++ map (passed_export self.now from.now) names.now) }
    {
        for name in names {
            let export = Export {
                name: name.exported.name.copy(self.alloc)?,
                source: self.homes.place(self.alloc, from, name.local.name.bytes())?,
            };
            all.push(export)?;
        }
        Ok(())
    }

    /// Adds names that the module declares.
    fn add_declared(&self, all: &mut Items<Export>, names: &[Name]) -> Result<(), AllocError>
        ensures { OnOk result (all.new ≡ all.old ++ map (λ name. own_export self.now name name) names.now) }
    {
        for name in names {
            all.push(self.own(name.bytes(), name)?)?;
        }
        Ok(())
    }

    fn add_default(&self, all: &mut Items<Export>, value: &DefaultExport) -> Result<(), AllocError>
        ensures { OnOk result (all.new ≡ all.old ++ own_export self.now (codes "default") (default_binding value.now) ∷ []) }
    {
        let binding = binding_of(self.alloc, value)?;
        all.push(self.own(b"default", &binding)?)
    }

    /// A binding of the module, under the name by which it is exported.
    fn own(&self, name: &[u8], binding: &Name) -> Result<Export, AllocError>
        ensures { IfOk result (λ export. export ≡ own_export self.now name.now binding.now) }
    {
        Ok(Export {
            name: Name::of_bytes(self.alloc, name)?,
            source: self.binding(binding)?,
        })
    }

    fn binding(&self, name: &Name) -> Result<Place, AllocError>
        ensures { IfOk result (λ place. place ≡ binding_at self.now name.now) }
    {
        Ok(Place {
            home: Home::Binding(self.number),
            name: name.copy(self.alloc)?,
        })
    }

    /// Where one goes on from a name of the module itself: where it was imported from, or to its binding.
    fn source(&self, name: &Name) -> Result<Place, AllocError>
        ensures { IfOk result (λ place. (known : List ImportEntry) → Knows known self.now → place ≡ source_at self.now (source_of known name.now)) }
    {
        match self.imports.first(name.bytes()) {
            None => Ok(self.binding(name)?),
            Some(place) => Ok(place.copy(self.alloc)?),
        }
    }
}

/// The binding of a default export.
fn binding_of(alloc: Global, value: &DefaultExport) -> Result<Name, AllocError>
    ensures { IfOk result (λ name. name ≡ default_binding value.now) }
{
    match value {
        DefaultExport::DefaultFunction(function) => name_of(alloc, &function.get().name),
        DefaultExport::DefaultClass(class) => name_of(alloc, &class.get().name),
        DefaultExport::DefaultValue(_) => name_of(alloc, &None),
    }
}

fn name_of(alloc: Global, name: &Option<Identifier>) -> Result<Name, AllocError>
    ensures { IfOk result (λ made. made ≡ first_name (some_name name.now)) }
{
    match name {
        None => Name::of_bytes(alloc, b"*default*"),
        Some(name) => name.name.copy(alloc),
    }
}
