//! Laws: the functions do nothing, and are called once.

use mcs_evidence::{
    answer_sets_are_supported, default_certificates_are_sound, extensions_are_generated,
    kinds_have_listings, program_certificates_are_sound,
};
use mcs_existence::{questions_are_counted, states_have_a_listing};

#[test]
fn laws_are_called(_rt: HostRuntime) {
    default_certificates_are_sound();
    program_certificates_are_sound();
    answer_sets_are_supported();
    extensions_are_generated();
    kinds_have_listings();
    states_have_a_listing();
    questions_are_counted();
}
