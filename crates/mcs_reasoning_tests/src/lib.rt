//! Tests of mcs_trace, mcs_sat, mcs_cnf, mcs_meant and mcs_classical, and of what evaluates systems
//! and is called by no crate yet: mcs_import, mcs_table and mcs_transversal; over the libraries
//! alone.
#![tactic(auto)]

#[cfg(test)]
mod bases;
#[cfg(test)]
mod consequences;
#[cfg(test)]
mod contexts;
#[cfg(test)]
mod entailments;
#[cfg(test)]
mod formulas;
#[cfg(test)]
mod meanings;
#[cfg(test)]
mod plans;
#[cfg(test)]
mod questions;
#[cfg(test)]
mod satisfying;
#[cfg(test)]
mod searches;
#[cfg(test)]
mod solver;
#[cfg(test)]
mod tables;
#[cfg(test)]
mod traces;
#[cfg(test)]
mod transversals;
