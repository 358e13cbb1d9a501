//! Lines of certificates, read one after the other. Their texts are made by hand.

ghost use Rattle.std.specs.Prelude.{◌≤◌, length};

use crate::spelling::texts_of;
use mcs_base::{Text, Vars};
use mcs_proof_lines::{
    Lines, ReportFault, Theory, expect, is_next, number_after, out_of_place, take_absence,
    take_absences, take_all_no, take_all_yes, take_atoms, take_entailment, take_entailments,
    take_no, take_program, take_trace, take_verdicts, take_yes,
};
use std::alloc::Global;
use std::test::Fail;

#[test]
fn lines_are_counted(rt: HostRuntime) {
    for (text, is_whole) in &[("yes\n\n", true), ("yes\n\nno", false)] {
        let mut lines = Lines::new(text.as_bytes());
        let is_first = is_next(&lines, b"yes") && lines.number() == 1;
        let is_ended_by_one = lines.is_at_end();
        lines.advance();
        let is_second = lines.current() == Some(b"".as_slice());
        let is_ended_by_two = lines.is_at_end();
        lines.advance();
        lines.advance();
        let is_none = lines.current().is_none();
        let is_third = out_of_place(&lines) == ReportFault::Grammar { line: 3 };
        let is_counted = is_first && is_second && is_none && is_third;
        let is_ended = !is_ended_by_one && !is_ended_by_two && lines.is_at_end() == *is_whole;
        assert!(rt; is_counted && is_ended);
    }
}

/// What is taken, over the atoms `a` and `b` and two defaults, of which the first has two
/// justifications and the second has one: two entailments, where they are several; that a default,
/// or just this one, does not apply; that both do not.
enum Part {
    Done,
    Trace,
    Yes,
    No,
    Model,
    Either,
    AllYes,
    AllNo,
    AllEither,
    Absence(Option<u32>),
    Absences,
    Program,
    Verdicts,
}

/// Takes the part, and lets it go.
fn take(
    alloc: Global,
    theory: &Theory<'_>,
    part: &Part,
    lines: &mut Lines<'_>,
) -> Result<(), ReportFault>
    requires atoms { length theory.now.atoms.now ≤ 64 }
    requires defaults { length theory.now.justs.now ≤ 10 }
    requires numbers { length theory.now.numbers.now ≤ 64 }
{
    let (atoms, justs) = (theory.atoms, theory.justs);
    let places = theory.places().members();
    match part {
        Part::Done => expect(lines, b"done"),
        Part::Trace => take_trace(alloc, lines).map(drop),
        Part::Yes => take_yes(alloc, lines).map(drop),
        Part::No => take_no(atoms, lines).map(drop),
        Part::Model => take_atoms(b"model ", atoms, lines).map(drop),
        Part::Either => take_entailment(alloc, atoms, lines).map(drop),
        Part::AllYes => take_all_yes(alloc, 2, lines).map(drop),
        Part::AllNo => take_all_no(alloc, atoms, 2, lines).map(drop),
        Part::AllEither => take_entailments(alloc, atoms, 2, lines).map(drop),
        Part::Absence(only) => take_absence(alloc, atoms, justs, *only, lines).map(drop),
        Part::Absences => take_absences(alloc, atoms, justs, places, lines).map(drop),
        Part::Program => take_program(alloc, atoms, 1, lines).map(drop),
        Part::Verdicts => take_verdicts(alloc, theory, lines).map(drop),
    }
}

/// Parts and texts; the number of the line that is next where the part is taken, or else of the one
/// that is out of place.
const TAKEN: &[(Part, &str, Result<u64, u64>)] = &[
    (Part::Done, "done\n", Ok(2)),
    (Part::Done, "done", Err(1)),
    (Part::Trace, "step 1 by 2\nstep by 3\nyes\n", Ok(3)),
    (Part::Trace, "yes\n", Err(1)),
    (Part::Yes, "yes\nstep by 1\n", Ok(3)),
    (Part::Yes, "yes\nstep by 1", Err(2)),
    (Part::No, "no {a, b}\n", Ok(2)),
    (Part::No, "yes\nstep by 1\n", Err(1)),
    (Part::Model, "model {b}\n", Ok(2)),
    (Part::Model, "model {c}\n", Err(1)),
    (Part::Either, "no {b}\n", Ok(2)),
    (Part::Either, "yes\nstep by 1\n", Ok(3)),
    (Part::AllYes, "yes\nstep by 1\nno {}\n", Err(3)),
    (Part::AllNo, "no {}\nno {a}\n", Ok(3)),
    (Part::AllNo, "no {}\nyes\nstep by 1\n", Err(2)),
    (Part::AllEither, "yes\nstep by 1\nno {}\n", Ok(4)),
    (Part::Absence(None), "unsupported 2\nno {}\n", Ok(3)),
    (Part::Absence(Some(1)), "unsupported 2\nno {}\n", Err(1)),
    (Part::Absence(None), "unsupported 3\nno {}\n", Err(1)),
    (Part::Absence(None), "unsupported 0\nno {}\n", Err(1)),
    (
        Part::Absence(Some(1)),
        "blocked 1 2\nyes\nstep by 1\n",
        Ok(4),
    ),
    (Part::Absence(None), "blocked 2 2\nyes\nstep by 1\n", Err(1)),
    (Part::Absence(None), "blocked 1 2\nno {}\n", Err(2)),
    (Part::Absences, ABSENCES, Ok(6)),
    (Part::Absences, "unsupported 2\nno {}\n", Err(1)),
    (Part::Program, PROGRAM, Ok(6)),
    (Part::Program, "model {a}\nstep by 1\nmodel {}\n", Err(3)),
    (Part::Verdicts, VERDICTS, Ok(24)),
    (Part::Verdicts, "set {1}\nunsupported 1\nno {}\n", Err(1)),
];

const ABSENCES: &str = "unsupported 1\nno {}\nblocked 2 1\nyes\nstep by 1\n";

const PROGRAM: &str = "model {a}\nstep by 1\nsmaller {}\nnone\nstep by 2\n";

/// A verdict of each kind, one on each set of the two defaults.
const VERDICTS: &str =
    "set {}\nblocked 1 2\nyes\nstep by 1 2\nset {1}\napplied 2\nyes\nstep by 1 2\nno {a}\n\
set {2}\nungrounded {}\nno {b}\nset {1, 2}\nextension 2 1\nyes\nstep by 1 2\nyes\nstep by 1 2\nno {}\nno {}\nno {a}\n\
no {a, b}\nno {}\n";

/// Whether the part is taken so far from the text, or not, where the theory has two beliefs.
fn is_taken(
    alloc: Global,
    atoms: &[Text],
    numbers: &[Text],
    part: &Part,
    text: &str,
    wanted: Result<u64, u64>,
) -> bool {
    if atoms.len() > 64 || numbers.len() > 64 {
        return false;
    }
    let theory = Theory {
        atoms,
        numbers,
        justs: &[2, 1],
        beliefs: 2,
    };
    let mut lines = Lines::new(text.as_bytes());
    match take(alloc, &theory, part, &mut lines) {
        Ok(()) => wanted == Ok(lines.number()),
        Err(ReportFault::Grammar { line }) => wanted == Err(line),
        Err(ReportFault::Memory) => false,
    }
}

#[test]
fn lines_are_taken(rt: HostRuntime) -> Result<(), Fail> {
    let alloc = rt.alloc();
    let (atoms, numbers) = (texts_of(alloc, &["a", "b"])?, texts_of(alloc, &["1", "2"])?);
    let mut are_taken = true;
    for (part, text, wanted) in TAKEN {
        are_taken &= is_taken(alloc, &atoms, &numbers, part, text, *wanted);
    }
    drop((atoms, numbers));
    assert!(rt; are_taken);
    Ok(())
}

/// Lines, and the number of one of two defaults after the word `applied`.
const APPLIED: &[(&str, Option<u32>)] = &[
    ("applied 2", Some(2)),
    ("applied 3", None),
    ("applied 0", None),
    ("set 1", None),
];

#[test]
fn defaults_have_numbers_and_justifications(rt: HostRuntime) {
    for (line, number) in APPLIED {
        assert!(rt; number_after(b"applied ", 2, line.as_bytes()) == *number);
    }
    let theory = Theory {
        atoms: &[],
        numbers: &[],
        justs: &[2, 1, 4],
        beliefs: 0,
    };
    let (places, last) = (theory.places().number(), theory.just_count(2));
    let both = theory.count_justs(Vars::numbered(5).members());
    assert!(rt; places == 7 && last == 4 && both == Some(6));
}
