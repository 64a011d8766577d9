// Duties in ordered rows.
use crate::duty::{Duty, Literal, Task};
use crate::sets::TagSet;
use ordered::OrderedRows;

// By due minute, then scan, reach, hold, then by what is asked: a point before its denial.
#[test]
fn duties_come_out_in_order(rt: HostRuntime) {
    let scan = Duty {
        due: 5,
        task: Task::Scan(TagSet(1)),
    };
    let reach = Duty {
        due: 5,
        task: Task::Reach(Literal::Is(3)),
    };
    let reach_not = Duty {
        due: 5,
        task: Task::Reach(Literal::Not(3)),
    };
    let mut rows = [reach_not; 3];
    let mut all = OrderedRows::new(&mut rows);
    assert!(rt; all.insert(reach_not));
    assert!(rt; all.insert(scan));
    assert!(rt; all.insert(reach));
    assert!(rt;
        matches!(
            all.after(scan),
            Some(Duty {
                task: Task::Reach(Literal::Is(3)),
                ..
            })
        )
    );
    assert!(rt; all.after(reach_not).is_none());
}
