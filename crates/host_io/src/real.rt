//! Real files and the three standard streams. What they hold is told by no contract, which sees
//! each of them as its count of faults.
ghost use Rattle.std.specs.Prelude.{◌≡◌, ◌<◌, ◌≤◌, None, Ok, length, IfOk, IsErr, MatchResult};
ghost use Rattle.std.specs.Io.{ReadsAtMost, WritesAtMost};
ghost use Rattle.host_io.specs.Faults.{CountsFaults};

use crate::failed::Failed;
use crate::files::Files;
use crate::sink::Sink;
use crate::source::Source;
use std::io::{Read, Seek, SeekFrom, Stderr, Stdin, Stdout, Write};
use std::marker::Model;
use std::rt::Files as SystemFiles;
use std::{fs, io};

/// The answer of a system call, with a failure counted.
fn counted(outcome: io::Result<usize>, faults: &mut u64) -> Result<usize, Failed>
    ensures value { MatchResult outcome (λ n. result ≡ Ok n) (λ _. IsErr result) }
    ensures counts { CountsFaults faults.old faults.new result }
    ensures grows { faults.old ≤ faults.new }
{
    match outcome {
        Ok(count) => Ok(count),
        Err(_) => {
            *faults = faults.saturating_add(1);
            Err(Failed)
        }
    }
}

/// One write, which fails where it takes nothing of a piece that is not empty.
fn write_some<W: Write>(writer: &mut W, piece: &[u8]) -> io::Result<usize>
    ensures bound { WritesAtMost result piece.now }
    ensures moves { IfOk result (λ k. 0 < length piece.now → 0 < k) }
{
    match writer.write(piece) {
        Ok(0) if !piece.is_empty() => Err(io::Error::from(io::ErrorKind::WriteZero)),
        outcome => outcome,
    }
}

/// Bytes of a file from an offset on.
fn read_at<R: SystemFiles>(system: &R, name: &str, at: u64, into: &mut [u8]) -> io::Result<usize>
    ensures { ReadsAtMost result into.new }
{
    let mut file = fs::open(system, name)?;
    file.seek(SeekFrom::Start(at))?;
    file.read(into)
}

/// The files of the system, by path.
#[derive(Drop)]
pub struct RealFiles<'a, R> {
    system: &'a R,
    faults: u64,
}

impl<'a, R> Model for RealFiles<'a, R> {
    ghost use Rattle.std.specs.Prelude.{ℕ};

    ghost Value = { ℕ };

    ghost view = { λ s. s.faults };
}

impl<'a, R: SystemFiles> RealFiles<'a, R> {
    pub fn new(system: &'a R) -> RealFiles<'a, R>
        ensures { result ≡ 0 }
    {
        RealFiles { system, faults: 0 }
    }
}

impl<R: SystemFiles> Files for RealFiles<'_, R> {
    ghost contents = { λ _ _. None };

    ghost faults = { λ f. f };

    fn read(&mut self, name: &str, at: u64, into: &mut [u8]) -> Result<usize, Failed> {
        counted(read_at(self.system, name, at, into), &mut self.faults)
    }
}

/// Standard input.
#[derive(Drop)]
pub struct RealInput {
    stdin: Stdin,
    faults: u64,
}

impl Model for RealInput {
    ghost use Rattle.std.specs.Prelude.{ℕ};

    ghost Value = { ℕ };

    ghost view = { λ s. s.faults };
}

impl RealInput {
    pub fn new(system: &HostRuntime) -> RealInput
        ensures { result ≡ 0 }
    {
        RealInput {
            stdin: system.stdin(),
            faults: 0,
        }
    }
}

impl Source for RealInput {
    ghost remaining = { λ _. None };

    ghost faults = { λ s. s };

    fn read(&mut self, into: &mut [u8]) -> Result<usize, Failed> {
        counted(self.stdin.read(into), &mut self.faults)
    }
}

/// Standard output.
#[derive(Drop)]
pub struct RealOutput {
    stdout: Stdout,
    faults: u64,
}

impl Model for RealOutput {
    ghost use Rattle.std.specs.Prelude.{ℕ};

    ghost Value = { ℕ };

    ghost view = { λ s. s.faults };
}

impl RealOutput {
    pub fn new(system: &HostRuntime) -> RealOutput
        ensures { result ≡ 0 }
    {
        RealOutput {
            stdout: system.stdout(),
            faults: 0,
        }
    }
}

impl Sink for RealOutput {
    ghost contents = { λ _. None };

    ghost faults = { λ s. s };

    fn write(&mut self, piece: &[u8]) -> Result<usize, Failed> {
        counted(write_some(&mut self.stdout, piece), &mut self.faults)
    }
}

/// Standard error, on which the program prints its notes.
#[derive(Drop)]
pub struct RealNotes {
    stderr: Stderr,
    faults: u64,
}

impl Model for RealNotes {
    ghost use Rattle.std.specs.Prelude.{ℕ};

    ghost Value = { ℕ };

    ghost view = { λ s. s.faults };
}

impl RealNotes {
    pub fn new(system: &HostRuntime) -> RealNotes
        ensures { result ≡ 0 }
    {
        RealNotes {
            stderr: system.stderr(),
            faults: 0,
        }
    }
}

impl Sink for RealNotes {
    ghost contents = { λ _. None };

    ghost faults = { λ s. s };

    fn write(&mut self, piece: &[u8]) -> Result<usize, Failed> {
        counted(write_some(&mut self.stderr, piece), &mut self.faults)
    }
}
