//! Orders of few children, worked out by hand. Each call that may want memory is made with ample memory.

ghost use Rattle.std.specs.Prelude.{◌≡◌, ◌≤◌, ◌<◌, ◌^◌, length};
ghost use Rattle.plan_model.specs.net_order.Meaning.{AreBelow};

use plan_model::Pair;
use plan_model::net_order::{ChildSet, Order, OrderError};
use std::alloc::Global;
use std::process::Abort;

// The last child must come before the first one, and child 1 is free: the line isn't the order of the numbers.
#[test]
fn last_before_first(rt: HostRuntime) {
    match Order::new(rt.alloc(), 3, &[Pair { first: 2, then: 0 }]) {
        Ok(order) => {
            let right = has(&order, &[1, 2, 0], Some(0), None) && is_free_in_the_middle(&order);
            drop(order);
            assert!(rt; right);
        }
        Err(_) => panic!(rt; "no order"),
    }
}

fn has(order: &Order, line: &[u32], heir: Option<u32>, last: Option<u32>) -> bool {
    order.line().as_slice() == line && order.heir() == heir && order.last() == last
}

fn is_free_in_the_middle(order: &Order) -> bool
    requires { order.now.count ≡ 3 }
{
    let before = (
        order.precedes(2, 0),
        order.precedes(0, 2),
        order.precedes(1, 0),
    );
    let maximal = (order.maximal(0), order.maximal(1), order.maximal(2));
    before == (true, false, false)
        && maximal == (true, true, false)
        && (order.cut(1), order.cut(2)) == (false, false)
}

// 1 < 0, 0 < 3 and 0 < 2: child 1 also precedes 2 and 3, and the line is cut after 1 and after 0.
#[test]
fn fork(rt: HostRuntime) {
    let pairs = [
        Pair { first: 0, then: 3 },
        Pair { first: 1, then: 0 },
        Pair { first: 0, then: 2 },
    ];
    match Order::new(rt.alloc(), 4, &pairs) {
        Ok(order) => {
            let right = has(&order, &[1, 0, 2, 3], Some(3), None) && is_fork(&order);
            drop(order);
            assert!(rt; right);
        }
        Err(_) => panic!(rt; "no order"),
    }
}

fn is_fork(order: &Order) -> bool
    requires { order.now.count ≡ 4 }
{
    let before = (
        order.precedes(1, 2),
        order.precedes(1, 3),
        order.precedes(2, 3),
    );
    let cuts = (order.cut(1), order.cut(2), order.cut(3));
    before == (true, true, false) && cuts == (true, true, false)
}

// 0 < 1 < 2: the third child is last. Without children there is neither heir nor last; a lone child is both.
#[test]
fn last_children(rt: HostRuntime) {
    let pairs = [Pair { first: 0, then: 1 }, Pair { first: 1, then: 2 }];
    assert!(rt; has_last(rt.alloc(), 3, &pairs, Some(2)));
    assert!(rt; has_last(rt.alloc(), 0, &[], None));
    assert!(rt; has_last(rt.alloc(), 1, &[], Some(0)));
}

// The last child is the heir.
fn has_last(alloc: Global, count: u32, pairs: &[Pair], last: Option<u32>) -> bool
    requires small { count ≤ 4097 }
    requires below { AreBelow count pairs.now }
    requires few { length pairs.now < 2 ^ 32 }
{
    match Order::new(alloc, count, pairs) {
        Ok(order) => {
            let right = order.heir() == last && order.last() == last;
            drop(order);
            right
        }
        Err(_) => false,
    }
}

// The third pair closes the cycle 0 < 1 < 2 < 0, and the fourth closes another one.
#[test]
fn cycles(rt: HostRuntime) {
    let pairs = [
        Pair { first: 0, then: 1 },
        Pair { first: 1, then: 2 },
        Pair { first: 2, then: 0 },
        Pair { first: 1, then: 0 },
    ];
    let made = Order::new(rt.alloc(), 3, &pairs);
    assert!(rt; closing(&rt, made) == 2);
    let itself = Order::new(rt.alloc(), 2, &[Pair { first: 1, then: 1 }]);
    assert!(rt; closing(&rt, itself) == 0);
}

fn closing(rt: &impl Abort, answer: Result<Order, OrderError>) -> u32 {
    match answer {
        Err(OrderError::Cycle { pair }) => pair,
        Err(OrderError::Memory) => panic!(rt; "out of memory"),
        Ok(order) => {
            drop(order);
            panic!(rt; "no cycle")
        }
    }
}

fn has_inserted(set: &ChildSet) -> bool
    requires { length set.now ≡ 70 }
{
    (set.len(), set.contains(65), set.contains(1)) == (70, true, false)
}

#[test]
fn sets(rt: HostRuntime) {
    match ChildSet::new(rt.alloc(), 70) {
        Ok(mut set) => {
            set.insert(65);
            let inserted = has_inserted(&set);
            drop(set);
            assert!(rt; inserted);
        }
        Err(_) => panic!(rt; "out of memory"),
    }
}
