//! Laws of the listings. The functions compute nothing: each contract is a law.

ghost use Rattle.mcs_report.specs.Listing.{EquilibriaTextsAreOne, StagesAreFronts};
ghost use Rattle.mcs_report.specs.Listing.{EquilibriaTextsExist};
ghost use Rattle.mcs_report.specs.Repairs.{ReasonsAreNumbered};
ghost use Rattle.mcs_report.specs.Solutions.{WholeListingsAreOne, ListingStagesAreFronts};
ghost use Rattle.mcs_report.specs.Solutions.{WholeListingsExist, SummariesAreOne};
ghost use Rattle.mcs_report.specs.Solutions.{SummaryStagesAreFronts, SummariesExist};
ghost use Rattle.mcs_report.specs.Solutions.{SummariesEndAsListings, ExplanationsHaveReasons};
ghost use Rattle.mcs_report.specs.Solutions.{ConsistentListingsExplainNothing};
ghost use Rattle.mcs_report.specs.Solutions.{ListingsWithoutDiagnoses};

/// A system has at most one listing of its equilibria, and each stage of it is a prefix of it.
pub fn equilibria_texts_are_unambiguous()
    ensures one { EquilibriaTextsAreOne }
    ensures stages { StagesAreFronts }
{}

/// A system has a listing of its equilibria.
pub fn equilibria_texts_exist()
    ensures { EquilibriaTextsExist }
{}

/// A system has at most one whole listing, of its equilibria, its minimal diagnoses and its minimal
/// explanations, and each stage of it is a prefix of it.
pub fn whole_listings_are_unambiguous()
    ensures one { WholeListingsAreOne }
    ensures stages { ListingStagesAreFronts }
{}

/// A system has a whole listing.
pub fn whole_listings_exist()
    ensures { WholeListingsExist }
{}

/// A system has exactly one summary of its whole listing (the verdict and the end line), and each
/// stage of it is a prefix of it.
pub fn summaries_are_one()
    ensures one { SummariesAreOne }
    ensures stages { SummaryStagesAreFronts }
    ensures some { SummariesExist }
{}

/// The summary of a system ends with the last line of its whole listing, which has the same four
/// counts.
pub fn summaries_end_as_listings()
    ensures { SummariesEndAsListings }
{}

/// The number at a mark of an explanation is that of the first diagnosis, counted from 1, that the
/// explanation meets in this mark alone. Each mark has one.
pub fn reasons_are_diagnoses()
    ensures number { ReasonsAreNumbered }
    ensures each { ExplanationsHaveReasons }
{}

/// The whole listing of a consistent system has the empty pair as its only diagnosis, and no
/// explanation. If a system has no diagnosis, the empty pair is its only explanation.
pub fn whole_listings_at_the_extremes()
    ensures consistent { ConsistentListingsExplainNothing }
    ensures without_diagnoses { ListingsWithoutDiagnoses }
{}
