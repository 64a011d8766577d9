// A chain that is full, and whose struck rows are used again.
use crate::chain::Chain;
use crate::link::Link;
use duties::{Duty, Literal, Task};
use registers::Register;
use std::process::Abort;

fn hold(due: u32) -> Duty {
    Duty {
        due,
        task: Task::Hold(Literal::Is(1)),
    }
}

// Just the duties that are due at these minutes, in this order.
fn has_just(chain: &Chain, dues: &[u32]) -> bool {
    let mut last = None;
    let has_each = dues.iter().all(|due| {
        last = chain.after(last);
        last.is_some_and(|d| d.due == *due && chain.held(d))
    });
    has_each && chain.after(last).is_none() && chain.count() == dues.len()
}

// One line each: over a closure the calls below would be longer.
fn enters(chain: &mut Chain, dues: &[u32]) -> bool {
    dues.iter().all(|due| chain.enter(hold(*due)))
}

fn strikes(chain: &mut Chain, dues: &[u32]) -> bool {
    dues.iter().all(|due| chain.strike(hold(*due)))
}

// A full chain: one more is refused, and one that is held is not; then out at the front, in the middle and at the end, and in again.
fn round(rt: &impl Abort, chain: &mut Chain) {
    assert!(rt; has_just(chain, &[10, 20, 30, 40, 50]));
    assert!(rt; !enters(chain, &[35]) && enters(chain, &[20]));
    assert!(rt; strikes(chain, &[10, 30, 50]) && !strikes(chain, &[30]));
    assert!(rt; has_just(chain, &[20, 40]));
    assert!(rt; enters(chain, &[30, 50, 10]));
}

#[test]
fn struck_rows_are_used_again(rt: HostRuntime) {
    let mut rows = [Link {
        duty: hold(30),
        next: 3,
    }; 5];
    let mut chain = Chain::new(&mut rows);
    assert!(rt; has_just(&chain, &[]));
    assert!(rt; enters(&mut chain, &[30, 10, 50, 20, 40]));
    for _ in 0..50 {
        round(&rt, &mut chain);
    }
    chain.clear();
    assert!(rt; has_just(&chain, &[]));
}
