//! What is asked of a context, with the names of its atoms.

ghost use Rattle.std.specs.Prelude.{◌≤◌, length};

use mcs_asked::Asked;
use mcs_base::Text;

/// What is asked of a context, and the names of its atoms in the lines, at most 64.
#[derive(Clone, Copy)]
pub struct Named<'a> {
    pub asked: &'a Asked<'a>,
    pub texts: &'a [Text],
    pub ghost few_texts: { length texts.now ≤ 64 },
}
