//! What each definition of the text uses of the others.

/// A definition: its name, and then those that it uses.
pub type Row = &'static [&'static [u8]];

// The rows stand in the order of the text turned round, so that each definition stands before those that it uses.

pub const TEMPLATES: [Row; 8] = [
    &[
        b"template_object",
        b"templates",
        b"have_same_texts",
        b"fix_list",
    ],
    &[b"fix_list"],
    &[b"have_same_texts"],
    &[b"templates"],
    &[b"includes_put"],
    &[b"power"],
    &[b"namespace_make"],
    &[
        b"delegate_step",
        b"iter_step",
        b"method_of",
        b"iter_close",
        b"is_object",
    ],
];

pub const GENERATORS: [Row; 9] = [
    &[b"generator_make", b"is_object", b"generator_prototype"],
    &[b"generator_function", b"generator_prototype"],
    &[b"generator_prototype", b"generator_resume", b"return_self"],
    &[b"generator_resume", b"is_object", b"has_own"],
    &[b"super_get", b"get_from", b"super_base"],
    &[b"super_base", b"has_own"],
    &[b"accessor_put", b"has_own", b"note_key"],
    &[b"method_put", b"plain_put", b"note_key"],
    &[b"note_key", b"has_own"],
];

pub const CLASSES: [Row; 9] = [
    &[b"class_make", b"is_object", b"record_keys"],
    &[b"record_keys", b"has_own", b"record_key"],
    &[b"record_key", b"get_from", b"set_from"],
    &[b"set_from", b"has_own", b"plain_put"],
    &[b"get_from", b"has_own", b"array_values", b"string_values"],
    &[b"this_bind"],
    &[b"super_construct", b"construct_as"],
    &[b"class_guard", b"pending"],
    &[b"new_target", b"pending"],
];

pub const LISTS: [Row; 8] = [
    &[b"construct", b"construct_as"],
    &[
        b"construct_as",
        b"has_own",
        b"is_object",
        b"pending",
        b"check_ready",
    ],
    &[b"pending"],
    &[b"arguments_put", b"array_values"],
    &[b"spread_list", b"iter_start", b"iter_step", b"iter_value"],
    &[b"rest_list"],
    &[b"iter_close", b"method_of", b"is_object"],
    &[b"iter_value"],
];

pub const ITERATORS: [Row; 8] = [
    &[b"iter_step", b"is_object"],
    &[b"iter_start", b"iter_read", b"is_object", b"array_values"],
    &[b"iter_read", b"string_values", b"array_values"],
    &[
        b"string_values",
        b"is_nothing",
        b"string_iterator_prototype",
    ],
    &[b"array_values", b"is_nothing", b"array_iterator_prototype"],
    &[
        b"string_iterator_prototype",
        b"is_object",
        b"has_own",
        b"return_self",
    ],
    &[
        b"array_iterator_prototype",
        b"is_object",
        b"has_own",
        b"return_self",
    ],
    &[b"return_self"],
];

pub const VALUES: [Row; 9] = [
    &[b"to_text"],
    &[b"cell_make"],
    &[b"refuse_const"],
    &[b"check_ready"],
    &[b"method_of", b"is_nothing"],
    &[b"plain_put", b"has_own"],
    &[b"is_nothing"],
    &[b"is_object"],
    &[b"has_own"],
];
