//! A stored run: what one call of the program is given, and what must come of it.

use crate::bytes::{Blocks, append_line, split_word};
use crate::fault::Fault;
use crate::wanted::Pieces;
use std::alloc::Global;
use std::collections::BTreeMap;

/// Which calls of each object fail, counted from 0.
#[derive(Clone, Copy)]
pub struct Failing<'a> {
    pub files: &'a [u64],
    pub input: &'a [u64],
    pub out: &'a [u64],
    pub notes: &'a [u64],
}

/// A stored run.
#[derive(Drop)]
pub struct Run {
    pub name: String,
    /// The words behind the program's own name.
    pub words: Vec<String>,
    /// The numbers of workers for each of which it is made, where they are told.
    pub workers: Vec<String>,
    /// The file `g`.
    pub file: Vec<u8>,
    /// The file `h`, if there is one.
    beside: Option<Vec<u8>>,
    /// The further files, by their names.
    pub named: BTreeMap<String, Vec<u8>>,
    pub input: Vec<u8>,
    failing_files: Vec<u64>,
    failing_input: Vec<u64>,
    failing_out: Vec<u64>,
    failing_notes: Vec<u64>,
    /// The sink whose calls fail each in turn, if there is one.
    pub each: Each,
    pub status: Option<u8>,
    /// The answer in full, where the status doesn't tell it.
    pub answer: Option<String>,
    pub out: Pieces,
    pub notes: Pieces,
    /// How many histories are handed out.
    pub histories: usize,
    /// The lines of the history, where they are told.
    pub history: Pieces,
    /// Beginnings of lines of the history, and how many lines begin so.
    pub counts: Vec<(usize, String)>,
    /// What a check of the journal that is printed must tell behind its first line, if the journal is checked.
    pub checked: Pieces,
}

/// The sink whose calls fail each in turn.
#[derive(Clone, Copy, PartialEq, Eq)]
pub enum Each {
    Neither,
    Out,
    /// `out`, however many calls it gets.
    Beginning,
    Notes,
}

impl Run {
    /// A run of which only the name is known.
    pub fn new(alloc: Global, name: &str) -> Result<Run, Fault> {
        Ok(Run {
            name: String::from_str(alloc, name)?,
            words: Vec::new(alloc),
            workers: Vec::new(alloc),
            file: Vec::new(alloc),
            beside: None,
            named: BTreeMap::new(alloc),
            input: Vec::new(alloc),
            failing_files: Vec::new(alloc),
            failing_input: Vec::new(alloc),
            failing_out: Vec::new(alloc),
            failing_notes: Vec::new(alloc),
            each: Each::Neither,
            status: None,
            answer: None,
            out: Pieces::new(alloc),
            notes: Pieces::new(alloc),
            histories: 0,
            history: Pieces::new(alloc),
            counts: Vec::new(alloc),
            checked: Pieces::new(alloc),
        })
    }

    /// The words with so many workers.
    pub fn words_with(&self, alloc: Global, workers: &str) -> Result<Vec<String>, Fault> {
        let mut words = Vec::new(alloc);
        for word in self.words.iter() {
            words.push(String::from_str(alloc, word.as_str())?)?;
        }
        words.push(String::from_str(alloc, "--workers")?)?;
        words.push(String::from_str(alloc, workers)?)?;
        Ok(words)
    }

    /// The file `h`, if there is one.
    pub fn beside(&self) -> Option<&[u8]> {
        match &self.beside {
            Some(bytes) => Some(bytes.as_slice()),
            None => None,
        }
    }

    /// Whether the journal that is printed is checked.
    pub fn is_checked(&self) -> bool {
        !self.checked.all().is_empty()
    }

    /// Which calls of each object fail.
    pub fn failing(&self) -> Failing<'_> {
        Failing {
            files: self.failing_files.as_slice(),
            input: self.failing_input.as_slice(),
            out: self.failing_out.as_slice(),
            notes: self.failing_notes.as_slice(),
        }
    }

    /// The same, but for `out`.
    pub fn failing_out<'a>(&'a self, out: &'a [u64]) -> Failing<'a> {
        Failing {
            out,
            ..self.failing()
        }
    }

    /// The same, but for `notes`.
    pub fn failing_notes<'a>(&'a self, notes: &'a [u64]) -> Failing<'a> {
        Failing {
            notes,
            ..self.failing()
        }
    }

    /// Takes in what a line says.
    pub fn read_line(&mut self, alloc: Global, blocks: &Blocks, line: &str) -> Result<(), Fault> {
        let (key, rest) = split_word(line);
        match key {
            "words" => read_words(alloc, &mut self.words, rest),
            "workers" => read_words(alloc, &mut self.workers, rest),
            "file" => append_line(alloc, blocks, &mut self.file, rest),
            "beside" => self.read_beside(alloc, blocks, rest),
            "named" => self.read_named(alloc, blocks, rest),
            "input" => append_line(alloc, blocks, &mut self.input, rest),
            "fails" => self.read_failing(rest),
            "each" => self.read_each(rest),
            "out" => self.out.read_line(alloc, blocks, rest),
            "notes" => self.notes.read_line(alloc, blocks, rest),
            "history" => self.history.read_line(alloc, blocks, rest),
            "checked" => self.checked.read_line(alloc, blocks, rest),
            _ => self.read_end(alloc, key, rest),
        }
    }

    /// Appends to the file `h`, which is there from the first such line on.
    fn read_beside(&mut self, alloc: Global, blocks: &Blocks, line: &str) -> Result<(), Fault> {
        let mut bytes = match self.beside.take() {
            Some(bytes) => bytes,
            None => Vec::new(alloc),
        };
        append_line(alloc, blocks, &mut bytes, line)?;
        self.beside = Some(bytes);
        Ok(())
    }

    /// NAME LINE: appends to the file of this name, which is there from the first such line on.
    fn read_named(&mut self, alloc: Global, blocks: &Blocks, text: &str) -> Result<(), Fault> {
        let (name, line) = split_word(text);
        let mut bytes = match self.named.remove(name) {
            Some(bytes) => bytes,
            None => Vec::new(alloc),
        };
        append_line(alloc, blocks, &mut bytes, line)?;
        self.named.insert(String::from_str(alloc, name)?, bytes)?;
        Ok(())
    }

    /// Takes in what a line says of the answer, or of how many histories there are.
    fn read_end(&mut self, alloc: Global, key: &str, rest: &str) -> Result<(), Fault> {
        match key {
            "status" => self.status = Some(rest.parse()?),
            "answer" => self.answer = Some(String::from_str(alloc, rest)?),
            "histories" => self.histories = rest.parse()?,
            "count" => {
                let (count, start) = split_word(rest);
                self.counts
                    .push((count.parse()?, String::from_str(alloc, start)?))?;
            }
            _ => return Err(Fault::Unreadable),
        }
        Ok(())
    }

    /// OBJECT NUMBER ..: the calls of an object that fail.
    fn read_failing(&mut self, text: &str) -> Result<(), Fault> {
        let (object, numbers) = split_word(text);
        let failing = match object {
            "files" => &mut self.failing_files,
            "input" => &mut self.failing_input,
            "out" => &mut self.failing_out,
            "notes" => &mut self.failing_notes,
            _ => return Err(Fault::Unreadable),
        };
        for number in numbers.split_whitespace() {
            failing.push(number.parse()?)?;
        }
        Ok(())
    }

    fn read_each(&mut self, sink: &str) -> Result<(), Fault> {
        self.each = match sink {
            "out" => Each::Out,
            "beginning" => Each::Beginning,
            "notes" => Each::Notes,
            _ => return Err(Fault::Unreadable),
        };
        Ok(())
    }
}

fn read_words(alloc: Global, words: &mut Vec<String>, text: &str) -> Result<(), Fault> {
    for word in text.split_whitespace() {
        words.push(String::from_str(alloc, word)?)?;
    }
    Ok(())
}
