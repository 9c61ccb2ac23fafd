// The merge and the normal form of a text, step by step: what the text says is read into tables, its merge or its form is put out into tables,
// and written as a text. Each step has a `requires`: enough work, and tables that have room or that hold solids. The public page calls the
// first step of each, `merge_lent` and `normal_lent`.
#![tactic(auto)]

mod merges;
mod normals;

pub use merges::merge_lent;
pub use normals::normal_lent;
