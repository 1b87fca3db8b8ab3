//! Laws of the faults of a link: what each is about has the name that is computed for it.
#![tactic(auto)]

mod about;

pub use about::faults_have_names;
