//! Test cases of threads at a node or its lock, or at a mutex in place of either, and of workers in threads: a line of the input names
//! a task, and its results are printed.
//!
//! The input has a section for each, in the order of `print_row`. A line that begins with "==" ends a section, and is printed.
#![tactic(auto)]

mod thread_calls;
mod worker_calls;

use case_io::Row;
use named_log::Drill;
use std::io;
use std::sync::Wait;
use std::thread::Threads;

/// The log of a small drill, which workers deliver.
pub type Log = Drill<64>;

fn print_row<R: Threads + Wait + Sync>(rt: &R, is_of_threads: bool, row: &Row) -> io::Result<()> {
    if is_of_threads {
        thread_calls::answer(rt, row)
    } else {
        worker_calls::answer(rt, row)
    }
}

fn print_rows<R: Threads + Wait + Sync>(rt: &R, host: &HostRuntime) -> io::Result<()> {
    let mut is_of_threads = true;
    for line in host.lines(host.alloc()) {
        let line = line?;
        let line = line.as_str();
        if case_io::ends_section(line) {
            println!(host; "{line}")?;
            is_of_threads = false;
        } else {
            print_row(rt, is_of_threads, &Row::of(host, line))?;
        }
    }
    Ok(())
}

fn main(rt: HostRuntime) -> io::Result<()> {
    print_rows(&rt, &rt)
}
