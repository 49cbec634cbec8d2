//! Tests of the weave.

use crate::checks::equal;
use crate::text::refuse;
use xfs_collections::Weave;

#[test]
fn moves_a_node(rt: HostRuntime) {
    let rt = &rt;
    let Ok(mut weave) = Weave::make(rt.alloc(), 4, 2) else {
        refuse(rt, "memory is wanting", "a weave");
    };
    weave.push_back(0, 2);
    weave.push_back(0, 1);
    weave.move_to(1, 2);
    equal(rt, weave.first(0), Some(1));
    equal(rt, weave.next(1), None);
    equal(rt, weave.first(1), Some(2));
    equal(rt, weave.next(2), None);
    equal(rt, weave.list_of(1), Some(0));
    equal(rt, weave.list_of(2), Some(1));
    equal(rt, weave.list_of(3), None);
}

#[test]
fn takes_from_the_front_and_the_middle(rt: HostRuntime) {
    let rt = &rt;
    let Ok(mut weave) = Weave::make(rt.alloc(), 5, 1) else {
        refuse(rt, "memory is wanting", "a weave");
    };
    weave.push_back(0, 4);
    weave.push_back(0, 0);
    weave.push_back(0, 3);
    weave.push_back(0, 1);
    weave.unlink(3);
    equal(
        rt,
        (weave.list_of(3), weave.next(3), weave.prev(3)),
        (None, None, None),
    );
    equal(
        rt,
        (weave.next(4), weave.next(0), weave.next(1)),
        (Some(0), Some(1), None),
    );
    equal(
        rt,
        (weave.prev(4), weave.prev(0), weave.prev(1)),
        (None, Some(4), Some(0)),
    );
    equal(rt, weave.pop_front(0), Some(4));
    weave.move_to(0, 0);
    equal(
        rt,
        (weave.pop_front(0), weave.pop_front(0), weave.pop_front(0)),
        (Some(1), Some(0), None),
    );
    equal(rt, weave.first(0), None);
}
