//! Laws of joining and forgetting. The functions do nothing: each contract is a law.

ghost use Rattle.mcs_table.specs.Fitting.{FittingTablesAreMinimal};
ghost use Rattle.mcs_table.specs.Joins.{JoinsExist, JoinsAreMinimalUnions, JoinsIgnoreOrder};
ghost use Rattle.mcs_table.specs.Joins.{JoinsStayApart, ForgettingCommutes, ForgettingExists};
ghost use Rattle.mcs_table.specs.Joins.{ForgettingIsOne, ForgettingTwiceIsOnce};
ghost use Rattle.mcs_table.specs.Joins.{ForgettingStaysApart};
ghost use Rattle.mcs_table.specs.Elimination.{EliminationExists, EliminationIsMinimal};
ghost use Rattle.mcs_table.specs.Elimination.{EliminationIgnoresOrder};
ghost use Rattle.mcs_table.specs.Elimination.{EliminationGivesMinimalMarks, EliminationStaysApart};

/// Tables are joined one after the other at one level, beginning with the table of no variables. Of
/// the unions of one row of each table, where these are compatible and have at most so many marks,
/// the join has exactly the minimal ones of each state. Such a join always exists. The order of the
/// tables makes no difference. A table that has no mark in common with any of them has none in
/// common with their join, so that it can be joined next.
pub fn joins_are_minimal_unions()
    ensures exist { JoinsExist }
    ensures unions { JoinsAreMinimalUnions }
    ensures order { JoinsIgnoreOrder }
    ensures apart { JoinsStayApart }
{}

/// Where no variable of a table is forgotten, joining with it after forgetting gives the same table
/// as forgetting after joining.
pub fn forgetting_commutes()
    ensures { ForgettingCommutes }
{}

/// What forgetting leaves of a table is always there, and is one table. Forgetting twice leaves
/// what forgetting once does, with what is kept both times. It brings no mark in, so that tables
/// that were apart stay apart.
pub fn forgetting_is_a_restriction()
    ensures exist { ForgettingExists }
    ensures one { ForgettingIsOne }
    ensures twice { ForgettingTwiceIsOnce }
    ensures apart { ForgettingStaysApart }
{}

/// Tables are joined one after the other at one level, and after each join the variables that no
/// later table has and that are not to be kept are forgotten. What is left has, for each state of
/// the variables that are kept, exactly the minimal ones of the joint rows restricted to these.
/// Such an elimination always exists. The order makes no difference. Where nothing is kept, the
/// marks of the rows that are left are the minimal marks of all joint rows. A table with which none
/// of them has a mark in common has none in common with what is left.
pub fn elimination_gives_minimal_rows()
    ensures exist { EliminationExists }
    ensures rows { EliminationIsMinimal }
    ensures order { EliminationIgnoresOrder }
    ensures marks { EliminationGivesMinimalMarks }
    ensures apart { EliminationStaysApart }
{}

/// A table that fits others has, of two rows of one state, just the one whose marks lie within the
/// other's, if the state is compatible with a row of each of the others.
pub fn fitting_tables_are_minimal()
    ensures { FittingTablesAreMinimal }
{}
