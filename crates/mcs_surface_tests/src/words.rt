//! Words of the command line, and the job that they ask for.

use crate::runs::words_of;
use mcs_words::{Job, WordsFault, one_job, read_words};
use std::alloc::{AllocError, Global};

/// The job, in a line.
fn told(alloc: Global, job: &Job) -> Result<String, AllocError> {
    match job {
        Job::Equilibria {
            file,
            budget,
            workers,
        } => format!(in alloc; "equilibria of {file}, budget {budget}, workers {workers}"),
        Job::Solve {
            file,
            budget,
            workers,
            proof,
        } => format!(in alloc; "solve {file}, budget {budget}, workers {workers}, proof {proof}"),
        Job::Check { file, report } => format!(in alloc; "check {report} on {file}"),
        Job::Grounded {
            file,
            budget,
            workers,
        } => format!(in alloc; "grounded of {file}, budget {budget}, workers {workers}"),
        Job::Cheapest {
            file,
            report: None,
            budget,
            workers,
        } => format!(in alloc; "cheapest of {file}, budget {budget}, workers {workers}"),
        Job::Cheapest {
            file,
            report: Some(report),
            budget,
            workers,
        } => format!(in alloc;
            "cheapest of {file} by {report}, budget {budget}, workers {workers}"
        ),
        Job::Make {
            number,
            budget,
            workers,
        } => format!(in alloc; "make {number}, budget {budget}, workers {workers}"),
        Job::Session {
            file,
            script,
            budget,
        } => format!(in alloc; "session of {file} by {script}, budget {budget}"),
    }
}

/// Whether this line is of the job.
fn is_told(alloc: Global, job: &Job, wanted: &str) -> bool {
    match told(alloc, job) {
        Ok(told) => told.as_str() == wanted,
        Err(_) => false,
    }
}

/// The job that the words of the line ask for.
fn job_of(alloc: Global, line: &str) -> Result<Job, WordsFault> {
    read_words(alloc, &words_of(alloc, line))
}

/// Whether the words of the line ask for the job that is told so.
fn asks_for(alloc: Global, line: &str, wanted: &str) -> bool {
    let Ok(job) = job_of(alloc, line) else {
        return false;
    };
    let is_told = is_told(alloc, &job, wanted);
    drop(job);
    is_told
}

/// Words and what they ask for.
const JOBS: &str = "equilibria f => equilibria of f, budget 100000, workers 1
--budget 5 equilibria f => equilibria of f, budget 5, workers 1
equilibria --budget=5 f => equilibria of f, budget 5, workers 1
equilibria f --workers 2 --budget 0007 => equilibria of f, budget 7, workers 2
--budget 4294967295 --workers=64 equilibria f => equilibria of f, budget 4294967295, workers 64
--workers 1 -- equilibria f => equilibria of f, budget 100000, workers 1
equilibria -- --budget => equilibria of --budget, budget 100000, workers 1
-- equilibria -- => equilibria of --, budget 100000, workers 1
--budget 0000000000000000000000000000000000001 -- equilibria -x => equilibria of -x, budget 1, workers 1
equilibria f --proof => equilibria of f, budget 100000, workers 1
solve f => solve f, budget 100000, workers 1, proof false
solve f --workers=3 => solve f, budget 100000, workers 3, proof false
solve -- --proof => solve --proof, budget 100000, workers 1, proof false
solve f --proof => solve f, budget 100000, workers 1, proof true
--proof --budget 5 solve f => solve f, budget 5, workers 1, proof true
check f r => check r on f
check --budget 5 f --proof r => check r on f
check -- -f --proof => check --proof on -f
make 0 => make 0, budget 100000, workers 1
make 007 --budget 2 => make 7, budget 2, workers 1
make 4294967295 => make 4294967295, budget 100000, workers 1
make --workers 4 -- 1023 => make 1023, budget 100000, workers 4
grounded f => grounded of f, budget 100000, workers 1
--budget 5 grounded --proof --workers=2 -- -f => grounded of -f, budget 5, workers 2
cheapest f => cheapest of f, budget 100000, workers 1
cheapest --budget 7 f --proof --workers 3 => cheapest of f, budget 7, workers 3
cheapest f r => cheapest of f by r, budget 100000, workers 1
--workers=4 cheapest --budget 7 f r => cheapest of f by r, budget 7, workers 4
cheapest -- -f --proof => cheapest of -f by --proof, budget 100000, workers 1
session f s => session of f by s, budget 100000
--proof session --budget 7 f --workers 3 s => session of f by s, budget 7";

#[test]
fn words_that_ask_for_a_job(rt: HostRuntime) {
    for row in JOBS.split('\n') {
        let (line, wanted) = row.split_once(" => ").unwrap_or((row, ""));
        assert!(rt; asks_for(rt.alloc(), line, wanted));
    }
}

/// Whether the words of the line ask for no job.
fn asks_for_none(alloc: Global, line: &str) -> bool {
    let job = job_of(alloc, line);
    let is_none = matches!(&job, Err(WordsFault::Usage));
    drop(job);
    is_none
}

/// Words that ask for no job, at first none at all. Where two spaces stand together, a word is
/// empty.
const NO_JOBS: &str = "
equilibria
equilibria  --budget 5
equilibria -
- f
equilibria f g
equilibria f -- g
solution f
 f
equilibria f --budget 5 --budget 5
equilibria f --budget 5 --budget=5
equilibria f --budget 0
equilibria f --budget 4294967296
equilibria f --budget 18446744073709551617
equilibria f --budget +5
equilibria f --budget  --workers 2
equilibria f --budget=
equilibria f --budget -5
equilibria f --budget=-5
equilibria f --budget 5x
equilibria f --workers 0
equilibria f --workers 65
equilibria f --workers
--budget -- equilibria f
--help
equilibria f --help
equilibria f -h
equilibria f --bud 5
equilibria f -x
equilibria f --proof --proof
solve
solve f r
solve f --budget 5 --budget 5
solve f --proof=true
solve --proof --proof f
check f
check f  --proof
check f -
check  r
check f r x
check f r --workers 0
make
make  --proof
make 4294967296
make +7
make 7 r
make 7 --budget 0
grounded
grounded -
grounded f g
grounded f --proof=true
Grounded f
cheapest
cheapest -
cheapest f -
cheapest f  --proof
cheapest f r x
cheapest f --budget 0
session
session f
session f -
session f  --proof
session f s x
session f s --workers 0";

#[test]
fn words_that_ask_for_none(rt: HostRuntime) {
    one_job();
    for line in NO_JOBS.split('\n') {
        assert!(rt; asks_for_none(rt.alloc(), line));
    }
}
