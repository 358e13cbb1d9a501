//! Laws over the definitions of what a session prints. The functions compute nothing: their
//! contracts are the laws.

ghost use Rattle.mcs_editing.specs.Laws.{BudgetsSufficeOrNot, ScriptsCanBeListed};
ghost use Rattle.mcs_editing.specs.Laws.{SessionStagesAreFronts};
ghost use Rattle.mcs_editing.specs.Laws.{SessionTextsAreOne, SessionTextsExist};
ghost use Rattle.mcs_editing.specs.Laws.{TextsBeforeAreOne, TextsBeforeAreShort};
ghost use Rattle.mcs_editing.specs.Laws.{TextsBeforeAreStages};
ghost use Rattle.mcs_editing.specs.Worked.{AreWorkedKeys, LinesAreSpelled};
ghost use Rattle.mcs_editing.specs.Worked.{SessionIsPrinted, SystemsAreListed};

/// A session has at most one text, and each stage of it is a prefix of it.
pub fn session_texts_are_unambiguous()
    ensures one { SessionTextsAreOne }
    ensures stages { SessionStagesAreFronts }
{}

/// A session has a text.
pub fn session_texts_exist()
    ensures { SessionTextsExist }
{}

/// What is printed where the budget does not suffice for some listing is a stage of the text. The
/// budget decides at which listing it ends and before which level, and there is none where it
/// suffices for each listing.
pub fn texts_before_are_unambiguous()
    ensures stages { TextsBeforeAreStages }
    ensures short { TextsBeforeAreShort }
    ensures enough { BudgetsSufficeOrNot }
    ensures one { TextsBeforeAreOne }
{}

/// A worked session: a rule is added and dropped, and the system is listed before, between and
/// after. Its systems, the keys of its listings, its lines, and its text around the listings.
pub fn worked_session()
    ensures systems { SystemsAreListed }
    ensures keys { AreWorkedKeys }
    ensures lines { LinesAreSpelled }
    ensures text { SessionIsPrinted }
{}

/// The edits that a script spells can be listed.
pub fn scripts_can_be_listed()
    ensures { ScriptsCanBeListed }
{}
