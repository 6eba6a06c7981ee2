//! Reads, filters and writes, file by file.

use crate::arguments::Options;
use crate::json::{JsonError, Strings};
use crate::output::{write_count, write_end, write_lines};
use crate::report::shown;
use release_filter::{Counts, Lines, LinesError};
use semver_parser::RangeError;
use std::alloc::{AllocError, Global};
use std::fs;
use std::io::{self, ErrorKind, Read};
use tool_ranges::version_range::VersionRange;

/// How many bytes of the input are read at once.
const AT_ONCE: usize = 65536;

/// The name of standard input.
const STANDARD_INPUT: &str = "-";

/// The error of a run.
#[derive(Drop)]
pub enum Error {
    /// The range is invalid.
    Range(RangeError),
    /// An allocation failed.
    OutOfMemory,
    /// The lines are strict, and one is invalid. The string has its file, its number there, and its
    /// text.
    Invalid(String),
    /// A file isn't an array of strings in JSON. The string has its name, the offset, and what is
    /// wrong there.
    Json(String),
    /// Standard input can't be read.
    Read(io::Error),
    /// This file can't be read.
    File(String, io::Error),
    /// Writing failed.
    Write(io::Error),
}

/// The lines that are read, and where the kept ones go.
#[derive(Drop)]
pub struct Copying<'a> {
    options: &'a Options,
    lines: Lines,
    /// The buffer for reading.
    buffer: Vec<u8>,
    /// The state of reading the file as JSON.
    strings: Strings,
    /// The strings that were read, and not filtered yet.
    records: Vec<u8>,
    /// The kept lines that were not written yet.
    kept: Vec<u8>,
    /// Whether anything was written.
    has_written: bool,
    /// The number of lines in the previous files.
    before: u64,
}

impl<'a> Copying<'a> {
    /// Returns the state before anything was read.
    pub fn new(
        alloc: Global,
        options: &'a Options,
        range: VersionRange,
    ) -> Result<Copying<'a>, AllocError> {
        let mut prefixes = Vec::new(alloc);
        for prefix in options.prefixes.iter() {
            prefixes.push(prefix.as_str().to_string(alloc)?)?;
        }
        Ok(Copying {
            options,
            lines: Lines::new(alloc, range, prefixes, options.lines),
            buffer: vec![in alloc; 0; AT_ONCE]?,
            strings: Strings::new(),
            records: Vec::new(alloc),
            kept: Vec::new(alloc),
            has_written: false,
            before: 0,
        })
    }

    /// Returns the counts of the lines so far.
    pub fn counts(&self) -> &Counts {
        self.lines.counts()
    }

    /// Filters the lines of all files, or of standard input. Kept lines are written before more is
    /// read. Returns whether there was a kept line.
    pub fn run(&mut self, rt: &HostRuntime, files: &[String]) -> Result<bool, Error> {
        let mut name = STANDARD_INPUT;
        if files.is_empty() {
            self.take_file(rt, name)?;
        }
        for (index, file) in files.iter().enumerate() {
            if index > 0 {
                self.end_file(rt, name)?;
            }
            name = file.as_str();
            self.take_file(rt, name)?;
        }
        self.finish(rt, name)?;
        Ok(self.lines.counts().kept > 0)
    }

    /// Takes the bytes of a file.
    fn take_file(&mut self, rt: &HostRuntime, name: &str) -> Result<(), Error> {
        if name == STANDARD_INPUT {
            return self.take(rt, name, &mut rt.reader());
        }
        match fs::open(rt, name) {
            Ok(mut file) => self.take(rt, name, &mut file),
            Err(error) => Err(unreadable(rt, name, error)),
        }
    }

    /// Takes the bytes of a reader.
    fn take<R: Read>(&mut self, rt: &HostRuntime, name: &str, input: &mut R) -> Result<(), Error> {
        self.strings = Strings::new();
        for _ in 0..u64::MAX {
            let count = match read(input, &mut self.buffer) {
                Ok(count) => count,
                Err(error) => return Err(unreadable(rt, name, error)),
            };
            let piece = self.buffer.get(..count).unwrap_or_default();
            if piece.is_empty() {
                break;
            }
            let mut parsed = Ok(());
            let pushed = if self.options.is_json {
                self.records.clear();
                parsed = self.strings.push(piece, &mut self.records);
                let records = self.records.as_slice();
                self.lines.push(rt.alloc(), records, &mut self.kept)
            } else {
                self.lines.push(rt.alloc(), piece, &mut self.kept)
            };
            self.write(rt)?;
            if let Err(error) = pushed {
                return Err(self.stopped(rt, name, error));
            }
            self.check_json(rt, name, parsed)?;
        }
        if self.options.is_json {
            let ended = self.strings.finish();
            self.check_json(rt, name, ended)?;
        }
        Ok(())
    }

    /// Takes the end of a file that is followed by another one.
    fn end_file(&mut self, rt: &HostRuntime, name: &str) -> Result<(), Error> {
        let ended = self.lines.end_file(rt.alloc(), &mut self.kept);
        self.write(rt)?;
        if let Err(error) = ended {
            return Err(self.stopped(rt, name, error));
        }
        self.before = self.lines.counts().lines;
        Ok(())
    }

    /// Takes the end of the last file, and writes the rest.
    fn finish(&mut self, rt: &HostRuntime, name: &str) -> Result<(), Error> {
        if let Err(error) = self.lines.finish(rt.alloc(), &mut self.kept) {
            return Err(self.stopped(rt, name, error));
        }
        self.write(rt)?;
        if !self.options.is_counted {
            if !self.options.is_json {
                return Ok(());
            }
            let ended = write_end(rt.alloc(), &mut io::writer(rt), self.has_written);
            return ended.map_err(Error::Write);
        }
        let (selection, kept) = (self.options.lines.selection, self.lines.counts().kept);
        let written = write_count(rt.alloc(), &mut io::writer(rt), selection, kept);
        written.map_err(Error::Write)
    }

    /// Writes the lines that were kept.
    fn write(&mut self, rt: &HostRuntime) -> Result<(), Error> {
        let (mut output, are_first) = (io::writer(rt), !self.has_written);
        self.has_written = self.has_written || !self.kept.is_empty();
        let kept = &mut self.kept;
        let written = write_lines(rt.alloc(), &mut output, self.options, are_first, kept);
        written.map_err(Error::Write)
    }

    /// Returns the error of a file that isn't an array of strings.
    fn check_json(
        &self,
        rt: &HostRuntime,
        name: &str,
        parsed: Result<(), JsonError>,
    ) -> Result<(), Error> {
        let Err(JsonError::Invalid(what)) = parsed else {
            return parsed.map_err(|_| Error::OutOfMemory);
        };
        let mut text = String::new(rt.alloc());
        match write!(
            text,
            "{name}: invalid JSON at offset {}: {what}",
            self.strings.offset()
        ) {
            Ok(()) => Err(Error::Json(text)),
            Err(_) => Err(Error::OutOfMemory),
        }
    }

    /// Returns the error if the lines of a file can't be taken to the end.
    fn stopped(&self, rt: &HostRuntime, name: &str, error: LinesError) -> Error {
        match error {
            LinesError::NoVersion(number) => match self.invalid_line(rt, name, number) {
                Ok(text) => Error::Invalid(text),
                Err(_) => Error::OutOfMemory,
            },
            LinesError::OutOfMemory => Error::OutOfMemory,
        }
    }

    /// Returns the file of the first invalid line, its number there, and its text.
    fn invalid_line(
        &self,
        rt: &HostRuntime,
        name: &str,
        number: u64,
    ) -> Result<String, AllocError> {
        let number = number.saturating_sub(self.before);
        let mut text = String::new(rt.alloc());
        write!(text, "{name}:{number}: invalid version")?;
        if let Some(first) = &self.lines.counts().first_invalid {
            let (front, more) = shown(first.front.as_slice());
            write!(text, ": {}{more}", front.escape_ascii())?;
        }
        Ok(text)
    }
}

/// Returns the error of a file that can't be read.
fn unreadable(rt: &HostRuntime, name: &str, error: io::Error) -> Error {
    if name == STANDARD_INPUT {
        return Error::Read(error);
    }
    match name.to_string(rt.alloc()) {
        Ok(name) => Error::File(name, error),
        Err(_) => Error::OutOfMemory,
    }
}

/// Reads the next bytes, and returns how many there are.
fn read<R: Read>(input: &mut R, buffer: &mut [u8]) -> io::Result<usize> {
    for _ in 0..u64::MAX {
        match input.read(buffer) {
            Err(error) if error.kind() == ErrorKind::Interrupted => {}
            read => return read,
        }
    }
    Ok(0)
}
