// The steps of evaluation that do not recurse: bound indices, names by their numbers, positions of tokens, and operations on
// values, each with the place of its refusal.
pub mod names;
pub mod passing;
pub mod scope;
pub mod values;
