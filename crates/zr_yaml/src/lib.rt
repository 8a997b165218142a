//! `zrepl.yml`: a profile of YAML, read into a tree.
#![tactic(auto)]

pub use document::read_yaml;
pub use fault::YamlFault;

mod document;
mod fault;
mod frame;
mod keyed;
mod lines;
mod reader;
mod scalar;
mod scan;
mod symbols;
