//! Where two texts differ.

ghost use Rattle.std.specs.Prelude.{◌≡◌, ◌≤◌, ◌+◌, ◌++◌, [], length, MatchOption};
ghost use Rattle.mcs_spelling.specs.Lines.{complete_lines, incomplete};
ghost use Rattle.mcs_check.specs.Collected.{common, feeds};
ghost use Rattle.mcs_check.specs.Validity.{DifferFirst};

/// How many bytes of the two are the same, from the first one on.
pub(crate) fn common(first: &[u8], second: &[u8]) -> usize
    ensures value { result ≡ common first.now second.now }
    ensures first { result ≤ length first.now }
    ensures second { result ≤ length second.now }
{
    let mut same = 0;
    while same < first.len() && same < second.len() && first[same] == second[same] {
        same += 1;
    }
    same
}

/// The number, counted from 1, of the line that is next after the bytes, or that they end in.
fn line_after(bytes: &[u8]) -> u64
    ensures { result ≡ feeds bytes.now + 1 }
{
    bytes.iter().filter(|byte| **byte == b'\n').count() as u64 + 1
}

/// The number of the first line, counted from 1, in which the text differs from the one that the
/// two pieces make, if they differ. Both are whole lines.
pub(crate) fn first_difference(text: &[u8], front: &[u8], rest: &[u8]) -> Option<u64>
    requires text { incomplete text.now ≡ [] }
    requires pieces { incomplete (front.now ++ rest.now) ≡ [] }
    ensures { MatchOption result
        (complete_lines text.now ≡ complete_lines (front.now ++ rest.now))
        (DifferFirst (complete_lines text.now) (complete_lines (front.now ++ rest.now))) }
{
    let same = common(text, front);
    if same < front.len() {
        return Some(line_after(&text[..same]));
    }
    let more = common(&text[same..], rest);
    if same + more == text.len() && more == rest.len() {
        return None;
    }
    Some(line_after(&text[..same + more]))
}
