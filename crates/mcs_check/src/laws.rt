//! Laws over the definitions. The functions compute nothing: each contract is a law.

ghost use Rattle.mcs_check.specs.Validity.{ProvedListingsAreValid, ValidReportsFailNothing};

/// The listing of a system with its proof is a valid report, if it is not longer than a report may
/// be.
pub fn proved_listings_are_valid()
    ensures { ProvedListingsAreValid }
{}

/// A valid report fails no test; so a report that fails a test is not valid.
pub fn valid_reports_fail_nothing()
    ensures { ValidReportsFailNothing }
{}
