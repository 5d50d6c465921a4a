//! Jobs of a desk: claimed, run, delivered and given up, and made again where they find no memory.

use crate::scene::Scene;
use deck_workers::{Job, Made, Runs, job_in};
use desk_core::{Call, Refusal, Reply, Work};
use desk_tests::{ask, delivery_of};
use edit_core::RecordFault;

/// How what ends a job is shown.
const HAND_IN: &str = "DeliverDeck, Publish or GiveUp";

/// What a reply of the desk shows, but for what it gives.
#[derive(Clone, Copy, PartialEq, Eq)]
pub enum Told {
    /// The desk has this version.
    Version(u64),
    /// All of the present version is published.
    Idle,
    /// A job is due.
    Job,
    Refused(Refusal),
    Other,
}

/// That there is no memory.
const LACKING: Told = Told::Refused(Refusal::OutOfMemory);

/// What a reply shows.
pub fn told_in(reply: &Reply) -> Told {
    match reply {
        Reply::StatusIs(version, _, _) => Told::Version(*version),
        Reply::Changed(made) => Told::Version(made.version()),
        Reply::Idle(_) => Told::Idle,
        Reply::DeckJob(_) | Reply::LinkJob(_) => Told::Job,
        Reply::Refused(refusal) => Told::Refused(*refusal),
        _ => Told::Other,
    }
}

/// The same of a reply that is then freed.
pub fn told_of(reply: Reply) -> Told {
    let told = told_in(&reply);
    reply.free();
    told
}

/// Notes a claim: names, versions and cards are as before, and there is a job where not all of the present
/// version is published. Only a first claim may find no memory.
fn note_claim(scene: &mut Scene, told: Told, before: &[u8], is_first: bool) {
    let is_kept = scene.state().as_slice() == before;
    let is_wanted = told == Told::Job || told == Told::Idle;
    if is_first && told == LACKING {
        scene.journal.refused("Claim", is_kept);
    } else {
        scene.journal.kept("Claim", is_kept && is_wanted);
    }
}

/// Claims what is due: what that shows, and the job.
fn claim_once(scene: &mut Scene, before: &[u8], is_first: bool) -> (Told, Option<Job>) {
    let reply = ask(&mut scene.desk, Call::Do(Work::Claim));
    let told = told_in(&reply);
    note_claim(scene, told, before, is_first);
    (told, job_in(reply))
}

/// Claims what is due, once more where that finds no memory.
fn claim(scene: &mut Scene) -> Option<Job> {
    let before = scene.state();
    let (told, job) = claim_once(scene, &before, true);
    if told == LACKING {
        drop(job);
        claim_once(scene, &before, false).1
    } else {
        job
    }
}

/// Notes what a desk answered at the end of a job: names, versions and cards are as before whatever that is. Only a
/// publication that the desk makes may find no memory.
fn note_end(scene: &mut Scene, told: Told, before: &[u8], is_link: bool, is_foreign: bool) {
    let is_kept = scene.state().as_slice() == before;
    let is_wanted = match told {
        Told::Refused(Refusal::Foreign) => is_foreign,
        Told::Refused(Refusal::OutOfMemory) => is_link && !is_foreign,
        Told::Refused(_) => false,
        _ => !is_foreign,
    };
    scene.journal.kept(HAND_IN, is_wanted && is_kept);
}

/// Hands in what was made of a job, or gives up its lease. Whether memory lacked to publish it.
fn hand_in(scene: &mut Scene, made: Made, is_foreign: bool) -> bool {
    let before = scene.state();
    let is_link = made.published().is_some();
    // a publication that is not of its lease is delivered; else the desk makes its own
    let call = if is_foreign {
        delivery_of(made)
    } else {
        made.into_call()
    };
    let told = told_of(ask(&mut scene.desk, call));
    note_end(scene, told, &before, is_link, is_foreign);
    told == LACKING
}

/// A job whose result is not one of its lease: it has another version.
fn foreign(mut job: Job) -> Job {
    let version = match &mut job {
        Job::Deck(work) => &mut work.version,
        Job::Link(work) => &mut work.version,
    };
    *version = version.saturating_add(1);
    job
}

/// How the job of a claim is ended.
#[derive(Clone, Copy)]
pub enum End {
    /// Its result is delivered.
    Delivered,
    /// A result is delivered that is not one of its lease.
    Foreign,
    /// Its lease is given up.
    GivenUp,
}

/// What ends a job.
fn made_of(scene: &Scene, job: Job, end: End) -> Made {
    let mut meter = work_meter::begin();
    match end {
        End::Delivered => job.run(scene.alloc, scene.keys, &mut meter),
        End::Foreign => foreign(job).run(scene.alloc, scene.keys, &mut meter),
        End::GivenUp => {
            let (lease, fault) = (job.lease(), RecordFault::Spent);
            drop(job);
            Made::Lost { lease, fault }
        }
    }
}

/// Ends a job, unless it is lost for want of memory, or memory lacks to publish it: whether it is ended.
fn end_once(scene: &mut Scene, job: Job, end: End) -> bool {
    let made = made_of(scene, job, end);
    let is_lost = match &made {
        Made::Lost { fault, .. } => *fault == RecordFault::OutOfMemory,
        _ => false,
    };
    let is_foreign = end == End::Foreign && !is_lost;
    let is_lacking = hand_in(scene, made, is_foreign);
    !is_lost && !is_lacking
}

/// Claims a job and ends it, once more where memory lacks for it; whether there was one.
fn end_next(scene: &mut Scene, end: End) -> bool {
    for _ in 0..2 {
        let Some(job) = claim(scene) else {
            return false;
        };
        if end_once(scene, job, end) {
            scene.journal.made("Job::run", true);
            return true;
        }
        scene.journal.refused("Job::run", true);
    }
    scene.journal.made("Job::run", false);
    false
}

/// Does the jobs that are due, each ended in these ways one after the other, so many at most.
pub fn do_jobs(scene: &mut Scene, ends: &[End], most: usize) {
    for _ in 0..most {
        for end in ends {
            if !end_next(scene, *end) {
                return;
            }
        }
    }
}
