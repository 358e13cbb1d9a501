//! The jobs: from the files that a job names to its output.

ghost use Rattle.std.specs.Prelude.{◌≡◌, []};
ghost use Rattle.mcs_words.specs.Reading.{request_of};
ghost use Rattle.mcs_listing.specs.Jobs.{told_all};
ghost use Rattle.mcs_crew.specs.Trails.{IsNoTrail, trail_of};
ghost use Rattle.mcs_top.specs.Meaning.{files_in, meaning};
ghost use Rattle.mcs_top.specs.Promise.{DoesJob, as_done};
ghost use Rattle.mcs_top.specs.Trails.{LeavesTrail};

use crate::assignment::Assignment;
use crate::checking::check;
use crate::listing::evaluate;
use crate::making::generated;
use crate::outcome::Outcome;
use crate::proving::prove;
use crate::reported::cheapest_by_report;
use crate::session::list_session;
use mcs_crew::Trail;
use mcs_listing::Stop;
use mcs_ports::{Gate, Shelf, Sink};
use mcs_words::Job;
use mcs_work::Task;
use std::alloc::Global;
use std::sync::Wait;
use std::thread::Threads;

/// Does the job. If it names no file, the shelf stays as it is. What the last round of several
/// workers leaves to be seen is put into `trail`.
pub(crate) fn do_job<H: Shelf, K: Sink, G: Gate + Sync, R: Threads + Wait + Sync>(
    rt: &R,
    alloc: Global,
    job: &Job,
    shelf: &mut H,
    sink: &mut K,
    gate: &G,
    trail: &mut Trail,
) -> Result<Outcome, Stop>
    ensures does { DoesJob (meaning (request_of job.now)) (H.held shelf.old) (H.faults shelf.old)
        (H.faults shelf.new) (H.failures shelf.old) (H.failures shelf.new) (K.device sink.old)
        (K.device sink.new) result }
    ensures unread { files_in (request_of job.now) ≡ [] → shelf.new ≡ shelf.old }
    ensures trail { IsNoTrail (trail_of trail.old)
        → LeavesTrail (meaning (request_of job.now))
        (told_all (H.held shelf.old) (files_in (request_of job.now))) (trail_of trail.new) result }
{
    match job {
        Job::Equilibria {
            file,
            budget,
            workers,
        } => {
            let assignment = plain(Task::Equilibria, *budget, *workers);
            done(evaluate(rt, alloc, assignment, file, shelf, sink, gate, trail))
        }
        Job::Solve {
            file,
            budget,
            workers,
            proof,
        } => {
            if *proof {
                done(prove(rt, alloc, file, *budget, *workers, shelf, sink, gate, trail))
            } else {
                let assignment = plain(Task::Solve, *budget, *workers);
                done(evaluate(rt, alloc, assignment, file, shelf, sink, gate, trail))
            }
        }
        Job::Grounded {
            file,
            budget,
            workers,
        } => {
            let assignment = plain(Task::Grounded, *budget, *workers);
            done(evaluate(rt, alloc, assignment, file, shelf, sink, gate, trail))
        }
        Job::Cheapest {
            file,
            report,
            budget,
            workers,
        } => match report {
            None => {
                let assignment = plain(Task::Cheapest, *budget, *workers);
                done(evaluate(rt, alloc, assignment, file, shelf, sink, gate, trail))
            }
            Some(report) => cheapest_by_report(alloc, file, report, shelf, sink),
        },
        Job::Check { file, report } => check(alloc, file, report, shelf, sink),
        Job::Make {
            number,
            budget,
            workers,
        } => done(generated(rt, alloc, *number, *budget, *workers, sink, gate, trail)),
        Job::Session {
            file,
            script,
            budget,
        } => done(list_session(alloc, file, script, *budget, shelf, sink, gate)),
    }
}

/// The task within this budget, by so many workers, without certificates.
fn plain(task: Task, budget: u64, workers: u32) -> Assignment
    ensures task { result.task ≡ task }
    ensures budget { result.budget ≡ budget }
    ensures workers { result.workers ≡ workers }
{
    Assignment {
        task,
        budget,
        workers,
        keep: false,
    }
}

/// How a job ended that can only be done or stop.
fn done(worked: Result<(), Stop>) -> Result<Outcome, Stop>
    ensures { result ≡ as_done worked }
{
    match worked {
        Ok(()) => Ok(Outcome::Done),
        Err(stop) => Err(stop),
    }
}
