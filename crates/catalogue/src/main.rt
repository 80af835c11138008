// Prints what the strict part of each image derives: the files that are named, or standard input where none is.
// It links the derivation part and nothing above it.
#![tactic(auto)]

ghost use Rattle.std.specs.Prelude.{◌≤◌, length};

use literals::LiteralSet;
use std::env::{Env, FillError};
use std::io::{Print, Read};
use std::rt::Files;
use std::{fs, io};

fn main(rt: HostRuntime) -> io::Result<()> {
    let mut name = [0u8; 256];
    if let Err(FillError::NotPresent) = rt.arg(1, &mut name) {
        return from_file(&rt, &mut rt.stdin());
    }
    for i in 1..usize::MAX {
        match rt.arg(i, &mut name) {
            Ok(length) => named(&rt, &name[..length])?,
            Err(FillError::TooLong) => missing(&rt)?,
            Err(FillError::NotPresent) => break,
        }
    }
    Ok(())
}

// The file of a name. One that is longer than the buffer, or no text, names none.
fn named<R: Files + Print>(rt: &R, name: &[u8]) -> io::Result<()> {
    let Ok(path) = str::from_utf8(name) else {
        return missing(rt);
    };
    match fs::open(rt, path) {
        Ok(mut file) => from_file(rt, &mut file),
        Err(_) => missing(rt),
    }
}

fn missing(rt: &impl Print) -> io::Result<()> {
    println!(rt; "no such file")
}

// An image has at most 1,836 bytes: of a longer file the first 2,048 are enough to refuse it.
fn from_file(rt: &impl Print, file: &mut impl Read) -> io::Result<()> {
    let mut bytes = [0u8; 2048];
    let length = fill(file, &mut bytes);
    strict_part(rt, &bytes[..length])
}

// Reads to the end of the file, to a read that fails, or until the buffer is full.
fn fill(file: &mut impl Read, buffer: &mut [u8]) -> usize
    ensures { result ≤ length buffer.new }
{
    let mut length: usize = 0;
    while length < buffer.len() {
        match file.read(&mut buffer[length..]) {
            Ok(0) => return length,
            Ok(more) => length += more,
            Err(_) => return length,
        }
    }
    length
}

// One line: the literals that the facts and strict rules derive, ascending, or why the image is refused.
fn strict_part(rt: &impl Print, image: &[u8]) -> io::Result<()> {
    let mut table = [0; 419];
    match image::read(image, &mut table) {
        Ok(()) => literals_of(rt, derivation::close(&table, 0, LiteralSet::empty())),
        Err(refusal) => println!(rt; "{refusal}"),
    }
}

fn literals_of(rt: &impl Print, set: LiteralSet) -> io::Result<()> {
    print!(rt; "derived")?;
    for literal in set {
        print!(rt; " {literal}")?;
    }
    println!(rt; "")
}
