//! Tests of the linker across its crates. All of it is for tests, so that the crate is proved once.
#![tactic(auto)]

#[cfg(test)]
mod code_file;
#[cfg(test)]
mod line;
#[cfg(test)]
mod notation;
#[cfg(test)]
mod tests;
