//! The benchmark: a job on inputs that it makes itself, and a digest of all that it gives.
//!
//! `mk_bench JOB[/CASE] SEED [SCALE]`: JOB is one of those below or `all`, SEED a number that determines the inputs, and SCALE
//! their size, 100 unless it is given. With CASE, as in `awkward/fields`, that case of the job runs alone. It makes its inputs
//! from the seed too, so they are others than in the whole job.
//!
//! ```
//! mk_bench all 1 1
//! ```
//!
//! The example is the run of `mk_bench/args`. It prints a digest for each job.
//!
//! Tests: `mk_bench/stdout`, which `rt ci` and `tools/quick` compare with what the run prints.
#![tactic(auto)]

mod awkward;
mod cases;
mod devices;
mod digest;
mod editing;
mod filtering;
mod lines;
mod listing;
mod messages;
mod packing;
mod pool;
mod random;
mod runs;
mod taking;

use crate::cases::Cases;
use crate::random::Random;
use crate::runs::Results;
use std::alloc::{AllocError, Global};
use std::rt::Env;
use std::{env, io};

const SCALE: usize = 100;

/// A job.
#[derive(Clone, Copy, Debug, PartialEq, Eq)]
enum Job {
    Filter,
    Unpack,
    List,
    Edit,
    Pack,
    Awkward,
}

const JOBS: [Job; 6] = [
    Job::Filter,
    Job::Unpack,
    Job::List,
    Job::Edit,
    Job::Pack,
    Job::Awkward,
];

impl Job {
    fn name(self) -> &'static str {
        match self {
            Job::Filter => "filter",
            Job::Unpack => "unpack",
            Job::List => "list",
            Job::Edit => "edit",
            Job::Pack => "pack",
            Job::Awkward => "awkward",
        }
    }

    // Does the job, or the wanted case of it.
    fn run(
        self,
        alloc: Global,
        seed: u64,
        scale: usize,
        cases: &mut Cases<'_>,
    ) -> Result<Results, AllocError> {
        let mut results = Results::new(alloc);
        let mut random = Random::new(seed);
        match self {
            Job::Filter => filtering::run(alloc, &mut random, scale, cases, &mut results)?,
            Job::Unpack => taking::run(alloc, &mut random, scale, cases, &mut results)?,
            Job::List => listing::run(alloc, &mut random, scale, cases, &mut results)?,
            Job::Edit => editing::run(alloc, &mut random, scale, cases, &mut results)?,
            Job::Pack => packing::run(alloc, &mut random, scale, cases, &mut results)?,
            Job::Awkward => awkward::run(alloc, &mut random, scale, cases, &mut results)?,
        }
        Ok(results)
    }
}

fn main(rt: HostRuntime) -> io::Result<()> {
    let words = words(&rt)?;
    let (Some(wanted), Some(seed)) = (words.get(1), words.get(2)) else {
        return rt.eprintln("usage: mk_bench JOB[/CASE] SEED [SCALE]");
    };
    let Ok(seed) = seed.parse::<u64>() else {
        return rt.eprintln("SEED is no number");
    };
    let scale = match words.get(3) {
        Some(word) => word.parse::<usize>().unwrap_or(SCALE),
        None => SCALE,
    };
    let (name, case) = match wanted.split_once('/') {
        Some((name, case)) => (name, Some(case)),
        None => (wanted.as_str(), None),
    };
    let mut cases = Cases::new(case);
    for job in JOBS {
        if job.name() == name || wanted.as_str() == "all" {
            let results = job.run(rt.alloc(), seed, scale, &mut cases)?;
            let named = if case.is_some() {
                wanted.as_str()
            } else {
                job.name()
            };
            if cases.found {
                let (digest, runs, refused) = (results.digest(), results.runs(), results.refused());
                println!(rt; "{named}: {digest:016x}, {runs} runs, {refused} refused")?;
            }
        }
    }
    if !cases.found {
        rt.eprintln("no job or case has this name")?;
    }
    Ok(())
}

// The words of the command line, the program's name first.
fn words<R: Env + AllocGlobal>(rt: &R) -> io::Result<Vec<String>> {
    let words = env::args(rt)?.collect(rt.alloc())?;
    Ok(words)
}
