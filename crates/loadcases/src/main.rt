#![tactic(auto)]
// Loads each text of a list and prints the verdict. A line of standard input is a case: a label, a space, and a text in which
// `\n` and `\t` stand for a line feed and a tab, `\xHH` for a byte, and `{N:piece}` for a piece N times over, `#` in it being the turn from 0.
// Prints the label and `taken` with the numbers of tags, points and orders, or `refused` with the number, the line and the field.
mod expand;

use expand::expand;
use loader::Loader;
use sheets::Sheet;
use std::fmt;
use std::io::Read;
use text::cut;

// Lines past so many are not read.
const MOST_LINES: usize = 100_000;

// How much a sheet declares.
#[derive(Clone, Copy, PartialEq, Eq)]
struct Counts {
    tags: usize,
    points: usize,
    orders: usize,
}

impl Counts {
    fn of(sheet: &Sheet) -> Counts {
        Counts {
            tags: sheet.tags().len(),
            points: sheet.points().len(),
            orders: sheet.orders().len(),
        }
    }
}

impl fmt::Display for Counts {
    fn fmt<W: fmt::Write>(&self, f: &mut fmt::Formatter<W>) -> fmt::Result {
        let Counts {
            tags,
            points,
            orders,
        } = self;
        write!(f, "{tags}\t{points}\t{orders}")
    }
}

// One case: its text is expanded, loaded and told. A refusal must leave the sheet of the case before as it was.
fn run_case(
    rt: &HostRuntime,
    loader: &mut Loader,
    sheet: &mut Sheet,
    line: &[u8],
) -> anyhow::Result<()> {
    let (label, more) = cut(line, b' ');
    let text = expand(rt.alloc(), more.unwrap_or(b""))?;
    let label = std::str::from_utf8(label)?;
    let before = Counts::of(sheet);
    let verdict = loader.load(&text, sheet);
    let after = Counts::of(sheet);
    match verdict {
        Ok(()) => println!(rt; "{label}\ttaken\t{after}")?,
        Err(fault) => {
            let number = fault.number();
            let line = fault.line();
            let field = fault.field();
            let change = if after == before {
                ""
            } else {
                "\tand the sheet changed"
            };
            println!(rt; "{label}\trefused\t{number}\t{line}\t{field}{change}")?;
        }
    }
    Ok(())
}

fn run(rt: &HostRuntime) -> anyhow::Result<()> {
    let heap = rt.alloc();
    let mut input = Vec::new(heap);
    rt.stdin().read_to_end(&mut input)?;
    let mut loader = Loader::new(heap)?;
    let mut sheet = Sheet::new(heap)?;
    let lines = input.split(|b| *b == b'\n').take(MOST_LINES);
    for line in lines.filter(|line| !line.is_empty()) {
        run_case(rt, &mut loader, &mut sheet, line)?;
    }
    Ok(())
}

fn main(rt: HostRuntime) -> anyhow::Result<()> {
    run(&rt)
}
