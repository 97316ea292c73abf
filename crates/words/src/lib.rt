// The vocabulary below every other crate: the sizes of the layout, permissions and ranges.
#![tactic(auto)]

pub mod permissions;
pub mod ranges;
pub mod sizes;
pub mod theorems;
