//! The walk through expressions and functions (ECMA-262, 5.1 edition, 11 and 13).

ghost use Rattle.std.specs.Prelude.{◌≡◌, ◌++◌, [], map, true, OnOk};
ghost use Rattle.es5_ast.specs.Early.{F, joined, key_text, parameter_pairs, property_pairs, when};
ghost use Rattle.es5_early.specs.Pairs.{least_with};
ghost use Rattle.es5_early.specs.Parts.{found, element_pairs, linked, held, whole, operand_pairs};
ghost use Rattle.es5_early.specs.Properties.{clashes_as, has_clash, with_name, with_held};

use crate::finder::Finder;
use crate::labels::{Labels, Place};
use crate::names::{Names, key_units, name_units};
use crate::pair::Rule;
use crate::properties::PropertyNames;
use es5_ast::{Element5, Expr5, Function5, Identifier5, Link5, Operand5, PlacedKey5, Property5};
use std::alloc::AllocError;

impl Finder {
    #[cycle(walk)]
    pub(crate) fn expression(&mut self, expression: &Expr5, inside: bool) -> Result<(), AllocError>
        ensures { OnOk result (self.new ≡ least_with self.old ((found expression.now).pairs inside)) }
    {
        match expression {
            Expr5::This { span } => {
                self.when(!inside, Rule::Outside(6), span.begin);
                Ok(())
            }
            Expr5::Name { span, name } => {
                self.when(
                    name.bytes() == b"eval".as_slice(),
                    Rule::Outside(7),
                    span.begin,
                );
                Ok(())
            }
            Expr5::Literal { .. } => Ok(()),
            Expr5::ArrayList { elements, .. } => self.elements(elements.as_slice(), inside),
            Expr5::ObjectList { properties, .. } => self.properties(properties.as_slice(), inside),
            Expr5::Function(function) => self.function(function.get()),
            Expr5::Chain { head, links, .. } => {
                self.expression(head.get(), inside)?;
                self.links(links.as_slice(), inside)
            }
            Expr5::New {
                callee,
                arguments,
                ..
            } => {
                self.expression(callee.get(), inside)?;
                self.expressions(arguments.as_slice(), inside)
            }
            Expr5::Update { target, .. } => {
                self.assigned(target.get());
                self.expression(target.get(), inside)
            }
            Expr5::Unary {
                span,
                operator,
                operand,
            } => {
                self.deleted(*operator, operand.get(), span.begin);
                self.expression(operand.get(), inside)
            }
            Expr5::Binary { first, rest, .. } => {
                self.expression(first.get(), inside)?;
                self.operands(rest.as_slice(), inside)
            }
            Expr5::Conditional { test, yes, no, .. } => {
                self.expression(test.get(), inside)?;
                self.expression(yes.get(), inside)?;
                self.expression(no.get(), inside)
            }
            Expr5::Assign { target, value, .. } => {
                self.assigned(target.get());
                self.expression(target.get(), inside)?;
                self.expression(value.get(), inside)
            }
            Expr5::Sequence { first, rest, .. } => {
                self.expression(first.get(), inside)?;
                self.expressions(rest.as_slice(), inside)
            }
        }
    }

    #[cycle(walk)]
    #[inline(never)]
    fn expressions(&mut self, expressions: &[Expr5], inside: bool) -> Result<(), AllocError>
        ensures { OnOk result (self.new ≡ least_with self.old (joined (λ x. x.pairs inside) (map found expressions.now))) }
    {
        for expression in expressions {
            self.expression(expression, inside)?;
        }
        Ok(())
    }

    #[cycle(walk)]
    #[inline(never)]
    fn elements(&mut self, elements: &[Element5], inside: bool) -> Result<(), AllocError>
        ensures { OnOk result (self.new ≡ least_with self.old (joined (λ e. e inside) (map element_pairs elements.now))) }
    {
        for element in elements {
            self.element(element, inside)?;
        }
        Ok(())
    }

    #[cycle(walk)]
    fn element(&mut self, element: &Element5, inside: bool) -> Result<(), AllocError>
        ensures { OnOk result (self.new ≡ least_with self.old (element_pairs element.now inside)) }
    {
        match element {
            Element5::Hole => Ok(()),
            Element5::Element(expression) => self.expression(expression, inside),
        }
    }

    #[cycle(walk)]
    #[inline(never)]
    fn links(&mut self, links: &[Link5], inside: bool) -> Result<(), AllocError>
        ensures { OnOk result (self.new ≡ least_with self.old (joined (λ l. l.1 inside) (map linked links.now))) }
    {
        for link in links {
            self.link(link, inside)?;
        }
        Ok(())
    }

    #[cycle(walk)]
    fn link(&mut self, link: &Link5, inside: bool) -> Result<(), AllocError>
        ensures { OnOk result (self.new ≡ least_with self.old ((linked link.now).1 inside)) }
    {
        match link {
            Link5::Member { .. } => Ok(()),
            Link5::Index { index, .. } => self.expression(index, inside),
            Link5::Call { arguments, .. } => self.expressions(arguments.as_slice(), inside),
        }
    }

    #[cycle(walk)]
    #[inline(never)]
    fn operands(&mut self, operands: &[Operand5], inside: bool) -> Result<(), AllocError>
        ensures { OnOk result (self.new ≡ least_with self.old (joined (λ o. o inside) (map operand_pairs operands.now))) }
    {
        for operand in operands {
            self.expression(&operand.value, inside)?;
        }
        Ok(())
    }

    /// Properties, with F4 at a name that clashes with an earlier one (11.1.5).
    #[cycle(walk)]
    #[inline(never)]
    fn properties(&mut self, properties: &[Property5], inside: bool) -> Result<(), AllocError>
        ensures { OnOk result (self.new ≡ least_with self.old (property_pairs [] (map held properties.now) inside)) }
    {
        let mut names = PropertyNames::new(self.alloc());
        for property in properties {
            self.property(property, &mut names, inside)?;
        }
        Ok(())
    }

    #[cycle(walk)]
    #[inline(never)]
    fn property(
        &mut self,
        property: &Property5,
        names: &mut PropertyNames,
        inside: bool,
    ) -> Result<(), AllocError>
        ensures pairs { OnOk result (self.new ≡ least_with self.old (when (has_clash names.old (held property.now)) (F 4) (held property.now).at ++ (held property.now).pairs inside)) }
        ensures names { OnOk result (names.new ≡ with_held names.old (held property.now)) }
    {
        match property {
            Property5::Plain { key, value, .. } => {
                self.key(key, names, true, true)?;
                self.expression(value, inside)
            }
            Property5::Getter { key, function, .. } => {
                self.key(key, names, true, false)?;
                self.function(function.get())
            }
            Property5::Setter { key, function, .. } => {
                self.key(key, names, false, true)?;
                self.function(function.get())
            }
        }
    }

    /// The name of a property that is read, as data and getters are, or written, as data and setters are.
    #[inline(never)]
    fn key(
        &mut self,
        key: &PlacedKey5,
        names: &mut PropertyNames,
        is_read: bool,
        is_written: bool,
    ) -> Result<(), AllocError>
        ensures pairs { OnOk result (self.new ≡ least_with self.old (when (clashes_as names.old (key_text key.now.key) is_read is_written) (F 4) key.now.span.begin)) }
        ensures names { OnOk result (names.new ≡ with_name names.old (key_text key.now.key) is_read is_written) }
    {
        let name = key_units(self.alloc(), &key.key)?;
        self.when(
            names.clash(name.as_slice(), is_read, is_written),
            Rule::Early(4),
            key.span.begin,
        );
        names.insert(name, is_read, is_written)
    }

    /// A function, in which no label or loop round it counts (13.1).
    #[cycle(walk)]
    #[inline(never)]
    pub(crate) fn function(&mut self, function: &Function5) -> Result<(), AllocError>
        ensures { OnOk result (self.new ≡ least_with self.old (whole function.now).pairs) }
    {
        if let Some(name) = &function.name {
            self.bound(name);
        }
        self.parameters(function.parameters.as_slice())?;
        let mut labels = Labels::new(self.alloc());
        self.statements(function.body.as_slice(), &mut labels, Place::of_function())
    }

    /// Parameters, with F1 at a name that stands before (13.1).
    #[inline(never)]
    fn parameters(&mut self, parameters: &[Identifier5]) -> Result<(), AllocError>
        ensures { OnOk result (self.new ≡ least_with self.old (parameter_pairs [] parameters.now)) }
    {
        let mut seen = Names::new(self.alloc());
        for parameter in parameters {
            let name = name_units(self.alloc(), &parameter.name)?;
            self.when(
                seen.contains(name.as_slice()),
                Rule::Early(1),
                parameter.span.begin,
            );
            self.bound(parameter);
            seen.push(name)?;
        }
        Ok(())
    }
}
