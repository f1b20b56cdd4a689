//! The smallest problem: one task, one method, one action. Its printed texts were made by two programs that share nothing with this one.

pub(crate) const DOMAIN: &str =
    "(define (domain d) (:task t :parameters ()) (:method m :parameters () :task (t) :subtasks (a)) (:action a :parameters ()))";

pub(crate) const PROBLEM: &str = "(define (problem p) (:domain d) (:htn :subtasks (t)))";

pub(crate) const PRINTED_DOMAIN: &str = concat!(
    "(define (domain d)\n",
    " (:requirements :adl)\n",
    " (:types htn_slot - object htn_object - object)\n",
    " (:constants htn_s1 - htn_slot)\n",
    " (:predicates (htn_top ?htn_h - htn_slot) (htn_free ?htn_h - htn_slot) (htn_before ?htn_x - htn_slot ?htn_h - htn_slot) (htn_t_t ?htn_h - htn_slot) (htn_a_a ?htn_h - htn_slot))\n",
    " (:action htn_start :parameters (?htn_h - htn_slot) :precondition (and (htn_top ?htn_h) (forall (?htn_x - htn_slot) (not (htn_before ?htn_x ?htn_h)))) :effect (and (not (htn_top ?htn_h)) (htn_t_t ?htn_h)))\n",
    " (:action htn_m_m :parameters (?htn_h - htn_slot) :precondition (and (htn_t_t ?htn_h) (forall (?htn_x - htn_slot) (not (htn_before ?htn_x ?htn_h)))) :effect (and (not (htn_t_t ?htn_h)) (htn_a_a ?htn_h)))\n",
    " (:action a :parameters (?htn_h - htn_slot) :precondition (and (htn_a_a ?htn_h) (forall (?htn_x - htn_slot) (not (htn_before ?htn_x ?htn_h)))) :effect (and (not (htn_a_a ?htn_h)) (htn_free ?htn_h) (forall (?htn_x - htn_slot) (not (htn_before ?htn_h ?htn_x)))))\n",
    ")\n",
);

pub(crate) const PRINTED_PROBLEM: &str = concat!(
    "(define (problem p)\n",
    " (:domain d)\n",
    " (:objects)\n",
    " (:init (htn_top htn_s1))\n",
    " (:goal (and (forall (?htn_x - htn_slot) (htn_free ?htn_x))))\n",
    ")\n",
);

/// The same with two subtasks, without an order. Its printed texts have first-free slots; they were made by hand, from the rules.
pub(crate) const TWO_DOMAIN: &str =
    "(define (domain d) (:task t :parameters ()) (:method m :parameters () :task (t) :subtasks (and (a) (a))) (:action a :parameters ()))";

pub(crate) const FIRST_DOMAIN: &str = concat!(
    "(define (domain d)\n",
    " (:requirements :adl)\n",
    " (:types htn_slot - object htn_object - object)\n",
    " (:constants htn_s1 - htn_slot htn_s2 - htn_slot)\n",
    " (:predicates (htn_top ?htn_h - htn_slot) (htn_free ?htn_h - htn_slot) (htn_before ?htn_x - htn_slot ?htn_h - htn_slot) (htn_t_t ?htn_h - htn_slot) (htn_a_a ?htn_h - htn_slot) (htn_less ?htn_x - htn_slot ?htn_h - htn_slot))\n",
    " (:action htn_start :parameters (?htn_h - htn_slot) :precondition (and (htn_top ?htn_h) (forall (?htn_x - htn_slot) (not (htn_before ?htn_x ?htn_h)))) :effect (and (not (htn_top ?htn_h)) (htn_t_t ?htn_h)))\n",
    " (:action htn_m_m :parameters (?htn_h - htn_slot ?htn_h1 - htn_slot) :precondition (and (htn_t_t ?htn_h) (forall (?htn_x - htn_slot) (not (htn_before ?htn_x ?htn_h))) (htn_free ?htn_h1) (forall (?htn_x - htn_slot) (not (and (htn_free ?htn_x) (htn_less ?htn_x ?htn_h1))))) :effect (and (not (htn_t_t ?htn_h)) (not (htn_free ?htn_h1)) (htn_a_a ?htn_h1) (htn_a_a ?htn_h) (forall (?htn_x - htn_slot) (when (htn_before ?htn_h ?htn_x) (htn_before ?htn_h1 ?htn_x)))))\n",
    " (:action a :parameters (?htn_h - htn_slot) :precondition (and (htn_a_a ?htn_h) (forall (?htn_x - htn_slot) (not (htn_before ?htn_x ?htn_h)))) :effect (and (not (htn_a_a ?htn_h)) (htn_free ?htn_h) (forall (?htn_x - htn_slot) (not (htn_before ?htn_h ?htn_x)))))\n",
    ")\n",
);

pub(crate) const FIRST_PROBLEM: &str = concat!(
    "(define (problem p)\n",
    " (:domain d)\n",
    " (:objects)\n",
    " (:init (htn_top htn_s1) (htn_free htn_s2) (htn_less htn_s1 htn_s2))\n",
    " (:goal (and (forall (?htn_x - htn_slot) (htn_free ?htn_x))))\n",
    ")\n",
);

/// Those of the smallest problem with the cells of a stack; they were made by hand, from the rules.
pub(crate) const STACK_DOMAIN: &str = concat!(
    "(define (domain d)\n",
    " (:requirements :adl)\n",
    " (:types htn_slot - object htn_object - object)\n",
    " (:constants htn_s0 - htn_slot htn_s1 - htn_slot)\n",
    " (:predicates (htn_top ?htn_h - htn_slot) (htn_tip ?htn_h - htn_slot) (htn_up ?htn_x - htn_slot ?htn_h - htn_slot) (htn_t_t ?htn_h - htn_slot) (htn_a_a ?htn_h - htn_slot))\n",
    " (:action htn_start :parameters (?htn_h - htn_slot) :precondition (and (htn_top ?htn_h) (htn_tip ?htn_h)) :effect (and (not (htn_top ?htn_h)) (htn_t_t ?htn_h)))\n",
    " (:action htn_m_m :parameters (?htn_h - htn_slot) :precondition (and (htn_t_t ?htn_h) (htn_tip ?htn_h)) :effect (and (not (htn_t_t ?htn_h)) (htn_a_a ?htn_h)))\n",
    " (:action a :parameters (?htn_d - htn_slot ?htn_h - htn_slot) :precondition (and (htn_a_a ?htn_h) (htn_tip ?htn_h) (htn_up ?htn_d ?htn_h)) :effect (and (not (htn_a_a ?htn_h)) (not (htn_tip ?htn_h)) (htn_tip ?htn_d)))\n",
    ")\n",
);

pub(crate) const STACK_PROBLEM: &str = concat!(
    "(define (problem p)\n",
    " (:domain d)\n",
    " (:objects)\n",
    " (:init (htn_top htn_s1) (htn_tip htn_s1) (htn_up htn_s0 htn_s1))\n",
    " (:goal (and (htn_tip htn_s0)))\n",
    ")\n",
);

pub(crate) const PLAN: &str = "(htn_start htn_s1)\n(htn_m_m htn_s1)\n(a htn_s1)\n";

pub(crate) const STACK_PLAN: &str = "(htn_start htn_s1)\n(htn_m_m htn_s1)\n(a htn_s0 htn_s1)\n";

pub(crate) const TREE: &str = "==>\n0 a\nroot 1\n1 t -> m 0\n<==\n";

/// What is left of it, as HDDL.
pub(crate) const PRUNED_DOMAIN: &str = concat!(
    "(define (domain d)\n",
    " (:requirements :adl :typing :hierarchy :method-preconditions)\n",
    " (:types)\n",
    " (:constants)\n",
    " (:predicates)\n",
    " (:task t :parameters ())\n",
    " (:method m :parameters () :task (t) :precondition (and) :subtasks (and (s0 (a))) :ordering (and) :constraints (and))\n",
    " (:action a :parameters () :precondition (and) :effect (and))\n",
    ")\n",
);

pub(crate) const PRUNED_PROBLEM: &str = concat!(
    "(define (problem p)\n",
    " (:domain d)\n",
    " (:objects)\n",
    " (:htn :parameters () :subtasks (and (s0 (t))) :ordering (and) :constraints (and))\n",
    " (:init)\n",
    " (:goal (and))\n",
    ")\n",
);
