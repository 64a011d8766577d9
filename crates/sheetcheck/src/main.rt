#![tactic(auto)]
// Checks a sheet of orders, from standard input or from the file that is named as argument, and prints the verdict.
// The first line is for programs; what follows is for people.
mod marked;
mod refused;
mod taken;

use loader::Loader;
use refused::Refused;
use sheets::Sheet;
use std::alloc::Global;
use std::fs::File;
use std::io::{Read, Write};
use std::{env, io};
use taken::Taken;

// One byte more than a sheet may have is enough to refuse it by.
const ENOUGH: u64 = 32769;

fn read_from<R: Read + Drop>(heap: Global, source: R) -> io::Result<Vec<u8>> {
    let mut bytes = Vec::new(heap);
    source.take(ENOUGH).read_to_end(&mut bytes)?;
    Ok(bytes)
}

fn read_file(rt: &HostRuntime, path: &str) -> io::Result<Vec<u8>> {
    read_from(rt.alloc(), File::open(rt, path)?)
}

// The bytes of the sheet. An error at a named file is told twice: here with the name, for people, and by main's result, which ends the program.
fn read_input(rt: &HostRuntime) -> io::Result<Vec<u8>> {
    let Some(path) = env::args(rt)?.nth(1) else {
        return read_from(rt.alloc(), rt.stdin());
    };
    let read = read_file(rt, path.as_str());
    if let Err(e) = &read {
        eprintln!(rt; "sheetcheck: {path} cannot be read: {e}")?;
    }
    read
}

fn run(rt: &HostRuntime) -> anyhow::Result<()> {
    let heap = rt.alloc();
    let text = read_input(rt)?;
    let mut loader = Loader::new(heap)?;
    let mut sheet = Sheet::new(heap)?;
    let page = match loader.load(&text, &mut sheet) {
        Ok(()) => Taken(&sheet).to_string(heap)?,
        Err(fault) => Refused { text: &text, fault }.to_string(heap)?,
    };
    // In one write: `print!` would cut a long page into pieces, between which another program's lines may come, or the reader may go.
    rt.stdout().write_all(page.as_bytes())?;
    Ok(())
}

fn main(rt: HostRuntime) -> anyhow::Result<()> {
    run(&rt)
}
