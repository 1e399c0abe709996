//! Workloads over the structures of the memory, to count what a call costs: `im_bench WORKLOAD COUNT` makes a
//! workload's call COUNT times and prints a line with its checksum. What a call costs is the difference of two counts.
//! `im_bench WORKLOAD COUNT IMAGE` does so on an engine over the image in a file.
#![tactic(auto)]

mod blocks;
mod cells;
mod engine;
mod lists;
mod memory;
mod records;
mod windows;

use im_types::{Kind, MAX_CELLS, Refusal};
use std::alloc::Global;
use std::process::ExitCode;
use std::{env, io};

/// Returns the checksum of a workload, or `None` if no workload has this name.
fn checksum(alloc: Global, workload: &str, count: u32) -> Option<Result<u64, Refusal>> {
    let sum = match workload {
        "push" => lists::push(alloc, count),
        "pop" => lists::pop(alloc, count),
        "push_and_pop" => lists::push_and_pop(alloc, count),
        "fill_and_release" => blocks::fill_and_release(alloc, count),
        "place_and_release_among_holes" => blocks::place_and_release(alloc, count),
        "release_among_holes" => blocks::release(alloc, count),
        "fetch_full" => cells::reads(alloc, Kind::I, MAX_CELLS, count),
        "fetch_deferred" => cells::reads(alloc, Kind::I, 0, count),
        "store_empty" => cells::writes(alloc, Kind::I, 0, count),
        "store_deferred" => cells::writes(alloc, Kind::I, MAX_CELLS, count),
        "take_full" => cells::reads(alloc, Kind::M, MAX_CELLS, count),
        "take_waiting" => cells::reads(alloc, Kind::M, 0, count),
        "put_empty" => cells::writes(alloc, Kind::M, 0, count),
        "put_waiting" => cells::writes(alloc, Kind::M, MAX_CELLS, count),
        "judge_new" => windows::judge(alloc, 0, count),
        "judge_kept" => windows::judge(alloc, MAX_CELLS, count),
        "judge_and_note" => windows::judge_and_note(alloc, count),
        "store_and_fetch" => memory::write_and_read(alloc, Kind::I, count),
        "put_and_take" => memory::write_and_read(alloc, Kind::M, count),
        "fetch_and_store" => memory::read_and_write(alloc, Kind::I, count),
        "take_and_put" => memory::read_and_write(alloc, Kind::M, count),
        "release_and_allocate" => memory::release_and_allocate(alloc, count),
        "read_cell" => Ok(records::read(count)),
        "memory_of_cells" => memory::cells(alloc, count),
        "memory_of_elements" => memory::elements(alloc, count),
        "table_of_cells" => memory::table(alloc, count),
        "arena_of_nodes" => memory::nodes(alloc, count),
        _ => return None,
    };
    Some(sum)
}

fn usage(rt: &HostRuntime) -> io::Result<u8> {
    rt.eprintln("usage: im_bench WORKLOAD COUNT [IMAGE]")?;
    Ok(2)
}

// Prints the result of a workload, and returns the status to end with.
fn tell(
    rt: &HostRuntime,
    workload: &str,
    count: u32,
    done: Option<Result<u64, Refusal>>,
) -> io::Result<u8> {
    match done {
        Some(Ok(sum)) => {
            println!(rt; "{workload} {count} {sum}")?;
            Ok(0)
        }
        Some(Err(refusal)) => {
            println!(rt; "refused {refusal}")?;
            Ok(1)
        }
        None => usage(rt),
    }
}

/// Does what the words of the command line ask for, and returns the status to end with.
fn start(rt: &HostRuntime) -> io::Result<u8> {
    let words = env::args(rt)?.collect::<Vec<String>>(rt.alloc())?;
    let [_, workload, count, rest @ ..] = words.as_slice() else {
        return usage(rt);
    };
    let Ok(count) = count.parse::<u32>() else {
        return usage(rt);
    };
    let workload = workload.as_str();
    let done = match rest {
        [] => checksum(rt.alloc(), workload, count),
        [image] => engine::on_file(rt, workload, image.as_str(), count),
        _ => None,
    };
    tell(rt, workload, count, done)
}

fn main(rt: HostRuntime) -> ExitCode {
    ExitCode::from(start(&rt).unwrap_or(1))
}
