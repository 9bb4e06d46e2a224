//! Runs the command on the words and the input in `data/`, and compares what it writes with stored
//! files.
//!
//! `names` has a NAME a line. NAME.words has a word a line and NAME.stdin the standard input. The
//! command must write NAME.stdout to standard output and NAME.stderr to standard error, and exit
//! with the status in NAME.status.
#![tactic(auto)]

use anyhow::Result;
use command::do_words;
use std::alloc::Global;
use std::fs;
use std::rt::HostRuntime;

/// What a run of the command writes and returns.
#[derive(Debug, Drop)]
struct Outcome {
    written: String,
    said: String,
    status: String,
}

impl Outcome {
    fn is(&self, other: &Outcome) -> bool {
        self.written.as_str() == other.written.as_str()
            && self.said.as_str() == other.said.as_str()
            && self.status.as_str() == other.status.as_str()
    }
}

fn text_of(rt: &HostRuntime, name: &str, ending: &str) -> Result<String> {
    let file = format!(in rt.alloc(); "{name}.{ending}")?;
    Ok(fs::read_to_string(rt, file.as_str())?)
}

// Returns the words on these lines, after the name of the program.
fn words_of(alloc: Global, lines: &str) -> Result<Vec<String>> {
    let mut words = Vec::new(alloc);
    words.push(String::from_str(alloc, "hourstable")?)?;
    for line in lines.lines() {
        words.push(String::from_str(alloc, line)?)?;
    }
    Ok(words)
}

// Returns the outcome in the files of this name.
fn expected(rt: &HostRuntime, name: &str) -> Result<Outcome> {
    Ok(Outcome {
        written: text_of(rt, name, "stdout")?,
        said: text_of(rt, name, "stderr")?,
        status: text_of(rt, name, "status")?,
    })
}

// Runs the command on the words and the input with this name.
fn given_for(rt: &HostRuntime, name: &str) -> Result<Outcome> {
    let lines = text_of(rt, name, "words")?;
    let words = words_of(rt.alloc(), lines.as_str())?;
    let input = text_of(rt, name, "stdin")?;
    let mut reader = input.as_str().as_bytes();
    let mut written = Vec::new(rt.alloc());
    let mut said = Vec::new(rt.alloc());
    let status = do_words(rt, words.as_slice(), &mut reader, &mut written, &mut said);
    Ok(Outcome {
        written: String::from_utf8(written)?,
        said: String::from_utf8(said)?,
        status: format!(in rt.alloc(); "{status}\n")?,
    })
}

// Plays what has this name, and prints whether it is as expected.
fn play(rt: &HostRuntime, name: &str) -> Result<()> {
    let given = given_for(rt, name)?;
    let wanted = expected(rt, name)?;
    if given.is(&wanted) {
        println!(rt; "{name}: as expected")?;
    } else {
        println!(rt; "{name}: gave {given:?} in place of {wanted:?}")?;
    }
    Ok(())
}

fn main(rt: HostRuntime) -> Result<()> {
    let names = fs::read_to_string(&rt, "names")?;
    for name in names.as_str().lines() {
        play(&rt, name)?;
    }
    Ok(())
}
