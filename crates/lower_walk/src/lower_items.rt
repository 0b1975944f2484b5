//! Lists of arguments and of array elements, templates, property names and the members of object literals, as the walk over the
//! trees of modules makes them: each exactly what module_lowering says of it, or nothing where memory is out.

mod keys;
mod lists;
mod members;
mod names;
mod templates;

pub use lists::{lower_argument_list, lower_element_list};
pub use members::lower_properties;
pub use names::{lower_class_key, lower_property_name};
pub use templates::{lower_template_value, lower_template_values, template_object_of};
