//! The plain machine: the definition of each step, and the laws that hold after every run.
//!
//! `specs/` has the checks of each step in their order, its change, and the sweep that ends it (`Stepped` lists the
//! steps). [`laws`] says what holds of a state after a run, and of the next step. [`histories`] says what holds of all
//! steps and ASTs since the start. [`law_consequences`] and [`history_consequences`] say what each of these laws alone
//! excludes.
#![tactic(auto)]

pub mod histories;
pub mod history_consequences;
pub mod law_consequences;
pub mod laws;
pub mod service_laws;
