//! The statuses of runs, and the laws of listings.

use mcs_report::{equilibria_texts_are_unambiguous, equilibria_texts_exist};
use mcs_top::Status;
use mcs_work::grounded_texts_are_unambiguous;

#[test]
fn statuses_have_their_numbers(rt: HostRuntime) {
    let numbers = [
        Status::Done.number(),
        Status::NotValid.number(),
        Status::Usage.number(),
        Status::Refused.number(),
        Status::Unfinished.number(),
        Status::ReadFault.number(),
        Status::WriteFault.number(),
        Status::OutOfMemory.number(),
    ];
    assert!(rt; numbers == [0, 1, 2, 3, 4, 5, 6, 7]);
}

#[test]
fn laws_of_listings_are_called() {
    equilibria_texts_are_unambiguous();
    equilibria_texts_exist();
    grounded_texts_are_unambiguous();
}
