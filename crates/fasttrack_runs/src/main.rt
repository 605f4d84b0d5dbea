//! `fasttrack_runs`: makes the stored runs of tables, and prints a line for each: `NAME ok`, or what differs from what the
//! table wants. The words of this program are the tables' paths. README.md tells what a table says.
#![tactic(auto)]

mod bytes;
mod call;
mod check;
mod each;
mod fault;
mod journal;
mod run;
mod wanted;

use crate::bytes::{Blocks, append_line};
use crate::check::check_run;
use crate::fault::Fault;
use crate::run::Run;
use std::alloc::Global;
use std::collections::BTreeMap;
use std::rt::Clock;
use std::sync::Wait;
use std::thread::Threads;
use std::{env, fs};

fn main(rt: HostRuntime) -> Result<(), Fault> {
    let mut blocks = BTreeMap::new(rt.alloc());
    for path in env::args(&rt)?.skip(1) {
        let table = fs::read_to_string(&rt, path.as_str())?;
        make_runs(&rt, &mut blocks, table.as_str())?;
    }
    Ok(())
}

/// Reads the blocks of a table in their order, and makes each run where it stands. A block that can't be read is printed.
fn make_runs<R: Print + AllocGlobal + Threads + Wait + Clock + Sync>(
    rt: &R,
    blocks: &mut Blocks,
    table: &str,
) -> Result<(), Fault> {
    for block in table.split("\n\n") {
        match read_block(rt.alloc(), blocks, block) {
            Ok(None) => {}
            Ok(Some(run)) => check_run(rt, &run)?,
            Err(Fault::Unreadable) => println!(rt; "unreadable: {block}")?,
            Err(fault) => return Err(fault),
        }
    }
    Ok(())
}

/// Whether a line of a block says something.
fn is_said(line: &str) -> bool {
    !line.is_empty() && !line.starts_with('#')
}

/// Keeps the bytes of a block under their name, or gives its run.
fn read_block(alloc: Global, blocks: &mut Blocks, block: &str) -> Result<Option<Run>, Fault> {
    let Some(heading) = block.lines().find(|line| is_said(line)) else {
        return Ok(None);
    };
    match heading.split_once(' ') {
        Some(("bytes", name)) => {
            keep_bytes(alloc, blocks, name, block)?;
            Ok(None)
        }
        Some(("run", name)) => Ok(Some(read_run(alloc, blocks, name, block)?)),
        _ => Err(Fault::Unreadable),
    }
}

/// Keeps the bytes that the lines below the heading make. A name is given once.
fn keep_bytes(alloc: Global, blocks: &mut Blocks, name: &str, block: &str) -> Result<(), Fault> {
    let mut bytes = Vec::new(alloc);
    for line in block.lines().filter(|line| is_said(line)).skip(1) {
        append_line(alloc, blocks, &mut bytes, line)?;
    }
    match blocks.insert(String::from_str(alloc, name)?, bytes)? {
        None => Ok(()),
        Some(_) => Err(Fault::Unreadable),
    }
}

/// The run that the lines below the heading tell.
fn read_run(alloc: Global, blocks: &Blocks, name: &str, block: &str) -> Result<Run, Fault> {
    let mut run = Run::new(alloc, name)?;
    for line in block.lines().filter(|line| is_said(line)).skip(1) {
        run.read_line(alloc, blocks, line)?;
    }
    Ok(run)
}
