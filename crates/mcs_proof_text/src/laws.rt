//! Laws over the definitions. The functions compute nothing: each contract is a law.

ghost use Rattle.mcs_proof_text.specs.Proofs.{RightAnswersAreInShape};
ghost use Rattle.mcs_proof_text.specs.Reports.{WholeListingsAreListingParts};
ghost use Rattle.mcs_proof_text.specs.Reports.{SpelledReportsHaveNoFault, ReportsHaveOneFault};

/// A text that spells a report has no fault.
pub fn spelled_reports_have_no_fault()
    ensures { SpelledReportsHaveNoFault }
{}

/// A text has at most one first fault.
pub fn reports_have_one_fault()
    ensures { ReportsHaveOneFault }
{}

/// The whole listing of a system is the text of a listing part: lines of which only the last one
/// ends a listing.
pub fn whole_listings_are_listing_parts()
    ensures { WholeListingsAreListingParts }
{}

/// A right answer to a question has the shape of an answer.
pub fn right_answers_are_in_shape()
    ensures { RightAnswersAreInShape }
{}
