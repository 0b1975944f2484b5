/// Whose realm it is: that of the source (ECMA-262, 6th edition) or that of the script (5.1 edition).
#[derive(Clone, Copy, Debug, PartialEq, Eq)]
pub enum Edition {
    Sixth,
    Fifth,
}
