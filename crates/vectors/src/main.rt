// Runs the planner on the outside texts of data/ and compares what it says with the stored outputs.
#![tactic(auto)]

mod stored;

ghost use Rattle.std.specs.Prelude.{◌≤◌, length, IfOk};

use crate::stored::agrees;
use std::io::Read;
use std::rt::Files;
use std::{fs, io, str};

// What a file of data/ begins with, as far as the buffer has room. Paths are text: a name that is none names no file, and nothing is read.
fn read_file<'a>(rt: &impl Files, name: &[u8], buffer: &'a mut [u8]) -> io::Result<&'a [u8]>
    ensures { IfOk result (λ front. length front.now ≤ length buffer.old) }
{
    let Ok(path) = str::from_utf8(name) else {
        return Ok(&[]);
    };
    let room = buffer.len() as u64;
    let size = io::copy(&mut fs::open(rt, path)?.take(room), &mut &mut buffer[..])?;
    Ok(&buffer[..size.min(room) as usize])
}

// One text, with its stored output.
fn compare(rt: &(impl Files + Print), name: &[u8], output_name: &[u8]) -> io::Result<()> {
    let mut text = [0u8; 65536];
    let mut output = [0u8; 4096];
    let text = read_file(rt, name, &mut text)?;
    let output = read_file(rt, output_name, &mut output)?;
    rt.write_all(name)?;
    if agrees(text, output) {
        print!(rt; " agrees\n")
    } else {
        print!(rt; " differs\n")
    }
}

// A line without the LF that ends it.
fn name_on(line: &[u8]) -> &[u8] {
    line.strip_suffix(b"\n").unwrap_or(line)
}

// The texts and their stored outputs, by name, a line each; at most 64.
fn main(rt: HostRuntime) -> io::Result<()> {
    let mut texts = [0u8; 4096];
    let mut outputs = [0u8; 4096];
    let texts = read_file(&rt, b"texts", &mut texts)?;
    let outputs = read_file(&rt, b"outputs", &mut outputs)?;
    let lines = texts
        .split_inclusive(|b| *b == b'\n')
        .zip(outputs.split_inclusive(|b| *b == b'\n'));
    for (line, output_line) in lines.take(64) {
        compare(&rt, name_on(line), name_on(output_line))?;
    }
    Ok(())
}
