#![tactic(auto)]
// Drives registers of every make through one long list of calls, from a fixed seed, and compares each answer with a plain set kept beside them.
mod calls;
mod drive;
mod plain;

use chain::{Chain, Link};
use drive::drive;
use duties::{Duty, TagSet, Task};
use pair::Pair;
use plain::Key;
use registers::Register;
use shelf::Shelf;

// What the rows hold before a register is made over them does not matter.
const OLD: Duty = Duty {
    due: 7,
    task: Task::Scan(TagSet(1)),
};

const OLD_LINK: Link = Link { duty: OLD, next: 3 };

// Drives one register and prints what the trial came to.
fn report<R: Register>(rt: &HostRuntime, what: &str, register: &mut R) -> anyhow::Result<()> {
    let tally = drive(rt.alloc(), register)?;
    println!(rt; "  {what}: {tally}")?;
    Ok(())
}

// Whether the rows past the 64th are as they were.
fn are_old(rows: &[Duty], links: &[Link]) -> bool {
    let old = Key::from(OLD);
    rows.iter().skip(64).all(|d| Key::from(*d) == old)
        && links.iter().skip(64).all(|link| Key::from(link.duty) == old
            && link.next == OLD_LINK.next)
}

// Every make over the given rows.
fn all_makes(
    rt: &HostRuntime,
    shelf_rows: &mut [Duty],
    chain_rows: &mut [Link],
    more_rows: &mut [Link],
) -> anyhow::Result<()> {
    let mut shelf = Shelf::new(shelf_rows);
    report(rt, "shelf", &mut shelf)?;
    let mut chain = Chain::new(chain_rows);
    report(rt, "chain", &mut chain)?;
    let mut pair = Pair::new(shelf, chain);
    report(rt, "pair of that shelf and that chain", &mut pair)?;
    let mut pairs = Pair::new(Chain::new(more_rows), pair);
    report(rt, "pair of a chain and that pair", &mut pairs)
}

// The same, and what it leaves of the rows. Slices, and no arrays of a const N: their size would want a bound on N as a premise.
fn over(
    rt: &HostRuntime,
    shelf_rows: &mut [Duty],
    chain_rows: &mut [Link],
    more_rows: &mut [Link],
) -> anyhow::Result<()> {
    let n = shelf_rows.len();
    println!(rt; "{n} rows")?;
    all_makes(rt, shelf_rows, chain_rows, more_rows)?;
    let kept = are_old(shelf_rows, chain_rows);
    println!(rt; "  rows past the 64th as they were: {kept}")?;
    Ok(())
}

fn main(rt: HostRuntime) -> anyhow::Result<()> {
    over(
        &rt,
        &mut [OLD; 70],
        &mut [OLD_LINK; 70],
        &mut [OLD_LINK; 70],
    )?;
    over(&rt, &mut [OLD; 9], &mut [OLD_LINK; 9], &mut [OLD_LINK; 9])?;
    over(&rt, &mut [], &mut [], &mut [])
}
