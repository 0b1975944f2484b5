//! Functions, methods and classes.

use crate::nodes::Nodes;
use crate::words::{function_word, member_word, method_word};
use es6_ast::{Class, ClassMember, Function, Method};

impl<'a> Nodes<'a> {
    /// A function.
    pub(crate) fn function(&mut self, function: &'a Function) {
        self.text.node_with(
            "Function",
            function.span,
            function_word(function.is_generator),
        );
        self.text.name(&function.name);
        self.parameters(function.parameters.as_slice());
        self.statements(function.body.as_slice());
    }

    /// A method.
    pub(crate) fn method(&mut self, method: &'a Method) {
        self.text
            .node_with("Method", method.span, method_word(method.kind));
        self.key(&method.key);
        self.function(method.function.get());
    }

    /// A class.
    pub(crate) fn class(&mut self, class: &'a Class) {
        self.text.node("Class", class.span);
        self.text.name(&class.name);
        self.held(&class.heritage);
        self.members(class.members.as_slice());
    }

    fn members(&mut self, members: &'a [ClassMember]) {
        for member in members {
            self.text
                .node_with("ClassMember", member.span, member_word(member.is_static));
            self.method(&member.method);
        }
    }
}
