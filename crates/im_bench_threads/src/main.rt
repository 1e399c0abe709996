//! Workloads of threads, to count groups and to take times.
//!
//! `im_bench_threads WORKLOAD COUNT` passes COUNT items through a pipe, or reads or shows that many cells on a pane.
//! `im_bench_threads WORKLOAD COUNT IMAGE` does COUNT requests, of one element or of each of sixteen, on the image in a
//! file, whose memory is new. They are stores; those of `endless` put and take, and no trace of them is recorded. It
//! prints a line with the result.
#![tactic(auto)]

mod errands;
mod items;
mod joining;
mod ports;
mod readings;
mod stores;

use crate::errands::{Load, kind_of};
use crate::readings::Reading;
use im_disk::{Disk, FileDisk, Start, Unknown};
use im_engine::Engine;
use im_session::Session;
use im_types::{Command, Kind, Op, Refusal, Request};
use std::alloc::Global;
use std::env::{self, Env};
use std::fs::File;
use std::io::{self, Eprint, Print};
use std::process::ExitCode;
use std::rt::Files;
use std::sync::Wait;
use std::thread::Threads;

fn usage<R: Eprint>(rt: &R) -> io::Result<u8> {
    rt.eprintln("usage: im_bench_threads WORKLOAD COUNT [IMAGE]")?;
    Ok(2)
}

// Prints the result of a workload, and returns the status to end with.
fn tell<R: Print + Eprint>(
    rt: &R,
    workload: &str,
    count: u32,
    done: Result<Option<u64>, Refusal>,
) -> io::Result<u8> {
    let status = match done {
        Ok(None) => return usage(rt),
        Ok(Some(sum)) => {
            println!(rt; "{workload} {count} {sum}")?;
            0
        }
        Err(refusal) => {
            println!(rt; "refused {refusal}")?;
            1
        }
    };
    Ok(status)
}

// Returns the result of a workload that takes no image, or `None` if none has this name.
fn with_no_image<R: Threads + Wait + Sync>(
    rt: &R,
    alloc: Global,
    workload: &str,
    count: u32,
) -> Result<Option<u64>, Refusal> {
    let done = match workload {
        "items" => items::pass(rt, alloc, count)?,
        "readings" => readings::run(rt, alloc, Reading::Alone, count)?,
        "readings_beside" => readings::run(rt, alloc, Reading::Beside, count)?,
        "shows" => readings::run(rt, alloc, Reading::Shows, count)?,
        _ => return Ok(None),
    };
    Ok(Some(done))
}

// Makes the block in which all cells lie. Without it no request is answered.
fn make_block<D: Disk>(engine: &mut Engine<D>, kind: Kind) {
    let op = Op::Alloc(kind, engine.memory().cells());
    let _base = engine.serve(&Command::Request(Request {
        element: 0,
        number: 1,
        op,
    }));
}

// Returns what a workload asks for through ports, if it is one of those.
fn load_of(workload: &str) -> Option<Load> {
    match workload {
        "port" => Some(Load::Port),
        "ports" => Some(Load::Ports),
        "endless" => Some(Load::Endless),
        _ => None,
    }
}

// Returns the result of a workload on an image, or `None` if none has this name.
fn on_engine<D: Disk + Drop + Send, R: Threads + Wait + Sync>(
    rt: &R,
    alloc: Global,
    engine: Engine<D>,
    workload: &str,
    count: u32,
) -> Result<Option<u64>, Refusal> {
    let mut engine = engine;
    if workload == "serve" {
        make_block(&mut engine, Kind::I);
        return Ok(Some(stores::serve(&mut engine, count)));
    }
    let Some(load) = load_of(workload) else {
        return Ok(None);
    };
    make_block(&mut engine, kind_of(load));
    if engine.failed() {
        return Err(Refusal::Failed);
    }
    ports::ask(rt, alloc, Session::of(engine), load, count).map(Some)
}

// Opens the image at a path, and does a workload on it. Returns `None` if no workload has this name.
fn on_file<R: Files<File = File> + AllocGlobal + Threads + Wait + Sync, S: Start + Send>(
    rt: &R,
    workload: &str,
    path: &str,
    count: u32,
    start: S,
) -> Result<Option<u64>, Refusal> {
    let Ok(disk) = FileDisk::open(rt, path, start) else {
        return Err(Refusal::Device);
    };
    match Engine::open(rt.alloc(), disk) {
        Ok(engine) => on_engine(rt, rt.alloc(), engine, workload, count),
        Err((refusal, _)) => Err(refusal),
    }
}

// Does what the words of the command line ask for, and returns the status to end with.
fn start<R: Env + Files<File = File> + AllocGlobal + Print + Eprint + Threads + Wait + Sync>(
    rt: &R,
) -> io::Result<u8> {
    let words = env::args(rt)?.collect::<Vec<String>>(rt.alloc())?;
    let [_, workload, count, rest @ ..] = words.as_slice() else {
        return usage(rt);
    };
    let Ok(count) = count.parse::<u32>() else {
        return usage(rt);
    };
    let workload = workload.as_str();
    let done = match rest {
        [] => with_no_image(rt, rt.alloc(), workload, count),
        [image] => on_file(rt, workload, image.as_str(), count, Unknown),
        _ => Ok(None),
    };
    tell(rt, workload, count, done)
}

fn main(rt: HostRuntime) -> ExitCode {
    ExitCode::from(start(&rt).unwrap_or(1))
}
