/// How many items a list may have: more than a text of the allowed length has tokens.
pub const TURNS: u32 = 67_108_865;
