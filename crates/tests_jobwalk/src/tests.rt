//! The tables of a job in one module, those of rules and filesystems in the next, and whole files in a third; what they
//! say in words stands apart.
mod files;
mod rules;
mod shown;
mod tables;
