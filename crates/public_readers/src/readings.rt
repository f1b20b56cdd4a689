//! Two small texts are read to their value with ample memory.

use plan_model::Hddl;
use text_values::hddl_of;

const DOMAIN: &[u8] = b"(define (domain d) (:task t :parameters ())
    (:METHOD M :parameters () :task (t) :subtasks (a)) ; a comment (
    (:action a :parameters ()))";

const PROBLEM: &[u8] = b"(define (problem p) (:domain d) (:htn :subtasks (t)))";

fn is_smallest(value: &Hddl) -> bool {
    value.tasks.len() == 1 && value.methods.len() == 1 && value.top.children.len() == 1
}

#[test]
fn reads_the_smallest_problem(rt: HostRuntime) {
    match hddl_of(rt.alloc(), DOMAIN, PROBLEM) {
        Ok(value) => {
            let smallest = is_smallest(&value);
            drop(value);
            assert!(rt; smallest);
        }
        Err(_) => panic!(rt; "a fault"),
    }
}
