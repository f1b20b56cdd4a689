//! A printed problem with four slots, in conjunctions of literals: vehicle `v` is to get from `a` to `b`, over as many roads
//! as it likes. At each road the task is decomposed by `m` and its first subtask, the drive `d`, is done. Names have one
//! letter, so that a million steps are no longer than a text may be.
use super::validations::ends;
use super::{Before, Source};
use htn_cli::Status;

const DOMAIN: &str = concat!(
    "(define (domain d) (:types slot other - object location vehicle - other)",
    " (:constants a b c - location v w - vehicle p q r s - slot)",
    " (:predicates (road ?from - location ?to - location) (at ?v - vehicle ?l - location) (top ?h - slot) (free ?h - slot) (before ?x - slot ?h - slot)",
    " (get_to ?h - slot ?v - vehicle ?to - location) (drive ?h - slot ?v - vehicle ?from - location ?to - location))",
    // the top task becomes that of getting to `b`
    " (:action o :parameters (?h - slot) :precondition (and (top ?h) (not (before p ?h)) (not (before q ?h)) (not (before r ?h)) (not (before s ?h))) :effect (and (not (top ?h)) (get_to ?h v b)))",
    // getting to a place becomes a drive and then getting there
    " (:action m :parameters (?h - slot ?g - slot ?v - vehicle ?from - location ?over - location ?to - location)",
    " :precondition (and (get_to ?h ?v ?to) (free ?g) (not (before p ?h)) (not (before q ?h)) (not (before r ?h)) (not (before s ?h)))",
    " :effect (and (not (get_to ?h ?v ?to)) (not (free ?g)) (drive ?g ?v ?from ?over) (get_to ?h ?v ?to) (before ?g ?h)))",
    // the vehicle is where it is to get to
    " (:action e :parameters (?h - slot ?v - vehicle ?to - location)",
    " :precondition (and (get_to ?h ?v ?to) (at ?v ?to) (not (before p ?h)) (not (before q ?h)) (not (before r ?h)) (not (before s ?h)))",
    " :effect (and (not (get_to ?h ?v ?to)) (free ?h) (not (before ?h p)) (not (before ?h q)) (not (before ?h r)) (not (before ?h s))))",
    " (:action d :parameters (?h - slot ?v - vehicle ?from - location ?to - location)",
    " :precondition (and (drive ?h ?v ?from ?to) (at ?v ?from) (road ?from ?to) (not (before p ?h)) (not (before q ?h)) (not (before r ?h)) (not (before s ?h)))",
    " :effect (and (not (drive ?h ?v ?from ?to)) (not (at ?v ?from)) (at ?v ?to) (free ?h) (not (before ?h p)) (not (before ?h q)) (not (before ?h r)) (not (before ?h s)))))",
);

const PROBLEM: &str = concat!(
    "(define (problem p)",
    " (:init (top p) (free q) (free r) (free s) (road a b) (road b a) (road b c) (road c b) (at v a) (at w c))",
    " (:goal (and (free p) (free q) (free r) (free s))))",
);

const THERE: &str = "(m p q v a b b)(d q v a b)";

const THERE_AND_BACK: &str = "(m p q v a b b)(d q v a b)(m p q v b a b)(d q v b a)";

/// The vehicle starts, drives an odd number of times, and is there.
#[test]
fn a_million_steps(rt: HostRuntime) {
    let before = Before::Plan(
        Source::Text(DOMAIN),
        Source::Text(PROBLEM),
        Source::Times(&[
            ("(o p)", 1),
            (THERE_AND_BACK, 249_999),
            (THERE, 1),
            ("(e p v b)", 1),
        ]),
    );
    ends(&rt, rt.alloc(), before, Status::Done, "");
}

/// Without the last drive the vehicle is not there.
#[test]
fn two_steps_less(rt: HostRuntime) {
    let before = Before::Plan(
        Source::Text(DOMAIN),
        Source::Text(PROBLEM),
        Source::Times(&[("(o p)", 1), (THERE_AND_BACK, 249_999), ("(e p v b)", 1)]),
    );
    let line = "not a plan: step 999998 Condition\n";
    ends(&rt, rt.alloc(), before, Status::Finding, line);
}
