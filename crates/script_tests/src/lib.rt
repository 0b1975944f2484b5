//! A test of the printer of scripts, which stands here so that es5_printer isn't proved a second time with it. The rows of
//! texts are lines of script_lines.
#![tactic(auto)]

#[cfg(test)]
mod es5_marks_tests;
