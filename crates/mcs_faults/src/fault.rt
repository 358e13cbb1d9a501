//! The faults of a text, by which it is not the text of a system.

ghost use Rattle.std.specs.Prelude.{◌≡◌};
ghost use Rattle.mcs_grammar.specs.Faults.{limit_of, fault_number};
ghost use Rattle.mcs_faults.specs.Watching.{fault_for};
ghost use Rattle.mcs_faults.specs.declared.fault.TextFault.TheVariants as texts;

use mcs_system::Limit;

/// The first fault of a text, and the offset of its token. `limit` is given exactly for number 5.
/// The numbers are:
///
/// - 1: the tokens up to and including this one begin no text;
/// - 2: no context has this name;
/// - 3: an earlier context, or an earlier rule, has this name;
/// - 4: a head into a program, or a belief of a program, is not an atom;
/// - 5: a limit is exceeded.
#[derive(Clone, Copy, Debug, PartialEq, Eq)]
pub enum TextFault {
    Fault {
        number: u8,
        offset: usize,
        limit: Option<Limit>,
    },
    Memory,
}

/// The fault of one token.
#[derive(Clone, Copy, Debug, PartialEq, Eq)]
pub enum Fault {
    /// The tokens up to and including this one begin no text.
    NoGrammar,
    /// No context has this name.
    NoContext,
    /// An earlier context, or an earlier rule, has this name.
    Twin,
    /// A head into a program, or a belief of a program, is not an atom.
    NoAtom,
    /// The limit is exceeded at this token.
    Exceeds(Limit),
}

impl Fault {
    /// The fault of a token that begins at the offset.
    pub fn at(self, offset: usize) -> TextFault
        ensures { result
            ≡ texts.Fault (fault_number (fault_for self)) offset (limit_of (fault_for self)) }
    {
        let (number, limit) = match self {
            Fault::NoGrammar => (1, None),
            Fault::NoContext => (2, None),
            Fault::Twin => (3, None),
            Fault::NoAtom => (4, None),
            Fault::Exceeds(limit) => (5, Some(limit)),
        };
        TextFault::Fault {
            number,
            offset,
            limit,
        }
    }
}

impl From<mcs_base::Memory> for TextFault {
    ghost from_gives = { λ _ e. e ≡ texts.Memory };

    fn from(_want: mcs_base::Memory) -> TextFault {
        TextFault::Memory
    }
}
