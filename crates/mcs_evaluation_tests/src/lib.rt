//! Tests of what evaluates a system, over the libraries alone: solvers of contexts, the mesh that
//! asks them, extensions and answer sets with what shows them, lines of certificates read and
//! written, generated systems, and listings where rules are kept or closed. Levels of diagnoses,
//! and the other lines of a report, are told by the listings of whole runs.
#![tactic(auto)]

#[cfg(test)]
mod answers;
#[cfg(test)]
mod certificates;
#[cfg(test)]
mod cheapest;
#[cfg(test)]
mod evaluators;
#[cfg(test)]
mod generated;
#[cfg(test)]
mod grounded;
#[cfg(test)]
mod laws;
#[cfg(test)]
mod lines;
#[cfg(test)]
mod marked;
#[cfg(test)]
mod meshes;
#[cfg(test)]
mod numbered;
#[cfg(test)]
mod programs;
#[cfg(test)]
mod questions;
#[cfg(test)]
mod reports;
#[cfg(test)]
mod solvers;
#[cfg(test)]
mod spelling;
#[cfg(test)]
mod systems;
#[cfg(test)]
mod tables;
#[cfg(test)]
mod theories;
#[cfg(test)]
mod traces;
#[cfg(test)]
mod turns;
