//! `workloads`: the jobs that users of the engine wait for, one after the other on inputs made by chance, with a digest of all that was answered. Speed is measured on it.
#![tactic(auto)]

mod books;
mod chance;
mod digest;
mod editing;
mod folder;
mod hostile;
mod job;
mod long_blocks;
mod maker;
mod pages;
mod parts;
mod rework;
mod typing;

use crate::chance::Chance;
use crate::digest::Digest;
use crate::job::Job;
use crate::maker::Maker;
use crate::parts::{Parts, lines_of_file};
use anyhow::{Context, Result, bail};
use std::alloc::Global;
use std::{env, fs};

/// By what the sizes of a small run's texts are divided.
const SMALL: usize = 20;

/// The words are the name of a job, the number that the inputs come of, and how many inputs there are. No words make a small run of each job, with an input of each
/// kind.
fn main(rt: HostRuntime) -> Result<()> {
    let alloc = rt.alloc();
    let words: Vec<String> = env::args(&rt)?.collect(alloc)?;
    let sentences = part(&rt, "sentences.txt", "data/sentences.txt")?;
    let titles = part(&rt, "titles.txt", "data/titles.txt")?;
    let code = part(&rt, "code.txt", "data/code.txt")?;
    let entities = part(&rt, "entities.json", "data/entities.json")?;
    let sentences = lines_of_file(alloc, &sentences)?;
    let titles = lines_of_file(alloc, &titles)?;
    let code = lines_of_file(alloc, &code)?;
    let parts = Parts {
        sentences: &sentences,
        titles: &titles,
        code: &code,
        entities: entities.as_bytes(),
    };
    run_words(&rt, &words, parts)
}

/// Runs what the words ask for.
fn run_words(rt: &HostRuntime, words: &[String], parts: Parts<'_>) -> Result<()> {
    let name = word(words, 1);
    if name.is_empty() {
        return run_small(rt, parts);
    }
    let seed = word(words, 2).parse::<u64>().context("the seed")?;
    let count = word(words, 3).parse::<u64>().context("how many inputs")?;
    for job in job::ALL {
        if name == job.name() {
            return run_job(rt, *job, count, Maker::new(parts, Chance::new(seed), 1));
        }
    }
    bail!("no such job")
}

/// A file of this folder; in the crate's own folder it lies in `data`.
fn part(rt: &HostRuntime, name: &str, in_data: &str) -> Result<String> {
    match fs::read_to_string(rt, name) {
        Ok(text) => Ok(text),
        Err(_) => Ok(fs::read_to_string(rt, in_data)?),
    }
}

fn run_small(rt: &HostRuntime, parts: Parts<'_>) -> Result<()> {
    for job in job::ALL {
        let maker = Maker::new(parts, Chance::new(1), SMALL);
        run_job(rt, *job, job.kinds(), maker)?;
    }
    Ok(())
}

/// Prints the digest of a job's answers.
fn run_job(rt: &HostRuntime, job: Job, count: u64, mut maker: Maker<'_>) -> Result<()> {
    let mut digest = Digest::new();
    run(rt.alloc(), job, count, &mut maker, &mut digest)?;
    println!(rt; "{}: {digest}", job.name())?;
    Ok(())
}

fn word(words: &[String], i: usize) -> &str {
    match words.get(i) {
        Some(word) => word.as_str(),
        None => "",
    }
}

fn run(
    alloc: Global,
    job: Job,
    count: u64,
    maker: &mut Maker<'_>,
    digest: &mut Digest,
) -> Result<()> {
    match job {
        Job::Pages => pages::pages(alloc, count, maker, digest),
        Job::Books => books::books(alloc, count, maker, digest),
        Job::Folder => folder::folder(alloc, count, maker, digest),
        Job::Typing => typing::typing(alloc, count, maker, digest),
        Job::LongBlocks => long_blocks::long_blocks(alloc, count, maker, digest),
        Job::Hostile => hostile::hostile(alloc, count, maker, digest),
        Job::Rework => rework::rework(alloc, count, maker, digest),
    }
}
