//! The finding of the check of a report.

ghost use Rattle.std.specs.Prelude.{◌≡◌, ◌++◌, OnOk, OnErr};
ghost use Rattle.mcs_check.specs.Findings.{finding_line, reason_word};

use mcs_base::{Memory, Text};

/// Why a report is not valid: the first of four tests that it fails.
#[derive(Clone, Copy, Debug, PartialEq, Eq)]
pub enum Reason {
    /// A line is out of place.
    Grammar,
    /// The certificate of an answer is not accepted.
    Certificate,
    /// A question on which the listing depends has no answer.
    Missing,
    /// A line of the listing differs from the listing of the system.
    Listing,
}

impl Reason {
    /// The word that is printed for the reason.
    fn word(self) -> &'static [u8]
        ensures { result.now ≡ reason_word self }
    {
        match self {
            Reason::Grammar => b"grammar",
            Reason::Certificate => b"certificate",
            Reason::Missing => b"missing",
            Reason::Listing => b"listing",
        }
    }
}

/// The finding of the check of a report.
#[derive(Clone, Copy, Debug, PartialEq, Eq)]
pub enum Finding {
    /// The report is valid.
    Valid,
    /// The report fails a test. The line, counted from 1, is the one that shows it.
    Fails { line: u64, reason: Reason },
}

/// Appends the line of the finding, with its line feed. Without memory the text stays as it was.
#[tactic(auto, unfolding(crate::specs::Findings::finding_line))]
pub fn finding_line(finding: Finding, out: &mut Text) -> Result<(), Memory>
    ensures ok { OnOk result (out.new ≡ out.old ++ finding_line finding) }
    ensures err { OnErr result (out.new ≡ out.old) }
{
    match finding {
        Finding::Valid => out.push(b"valid\n"),
        Finding::Fails { line, reason } => {
            let mut text = out.empty_like();
            text.push(b"not valid: line ")?;
            text.push_number(line)?;
            text.push(b": ")?;
            text.push(reason.word())?;
            text.push(b"\n")?;
            out.push(text.bytes())
        }
    }
}
