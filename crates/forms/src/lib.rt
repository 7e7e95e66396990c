// Written forms: how operators write positions.
#![tactic(auto)]

pub mod count;
pub mod form;
pub mod format;
pub mod label;
pub mod text;
