//! Tests of mcs_system, mcs_tokens, mcs_language and mcs_script, over the libraries alone.
#![tactic(auto)]

#[cfg(test)]
mod build_faults;
#[cfg(test)]
mod contents;
#[cfg(test)]
mod copies;
#[cfg(test)]
mod faults;
#[cfg(test)]
mod limits;
#[cfg(test)]
mod names;
#[cfg(test)]
mod rules;
#[cfg(test)]
mod same;
#[cfg(test)]
mod scripts;
#[cfg(test)]
mod systems;
#[cfg(test)]
mod tokens;
