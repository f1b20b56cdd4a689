//! The made problem with one package, as two programs that share nothing with this one print it.

pub(crate) const MADE_DOMAIN: &str = concat!(
    "(define (domain transport)\n",
    " (:requirements :adl)\n",
    " (:types htn_slot - object htn_object - object location - htn_object locatable - htn_object vehicle - locatable package - locatable)\n",
    " (:constants l0 - location l1 - location v1 - vehicle p1 - package htn_s1 - htn_slot htn_s2 - htn_slot htn_s3 - htn_slot htn_s4 - htn_slot htn_s5 - htn_slot)\n",
    " (:predicates (road ?l1 - location ?l2 - location) (at ?x - locatable ?l - location) (in ?p - package ?v - vehicle) (htn_top ?htn_h - htn_slot) (htn_free ?htn_h - htn_slot) (htn_before ?htn_x - htn_slot ?htn_h - htn_slot) (htn_t_deliver ?htn_h - htn_slot ?htn_a1 - htn_object ?htn_a2 - htn_object) (htn_t_get-to ?htn_h - htn_slot ?htn_a1 - htn_object ?htn_a2 - htn_object) (htn_a_drive ?htn_h - htn_slot ?htn_a1 - htn_object ?htn_a2 - htn_object ?htn_a3 - htn_object) (htn_a_pick-up ?htn_h - htn_slot ?htn_a1 - htn_object ?htn_a2 - htn_object ?htn_a3 - htn_object) (htn_a_drop ?htn_h - htn_slot ?htn_a1 - htn_object ?htn_a2 - htn_object ?htn_a3 - htn_object) (htn_c_m-there ?htn_h - htn_slot ?htn_a1 - htn_object ?htn_a2 - htn_object))\n",
    " (:action htn_start :parameters (?htn_h - htn_slot) :precondition (and (htn_top ?htn_h) (forall (?htn_x - htn_slot) (not (htn_before ?htn_x ?htn_h)))) :effect (and (not (htn_top ?htn_h)) (htn_t_deliver ?htn_h p1 l1)))\n",
    " (:action htn_m_m-deliver :parameters (?htn_h - htn_slot ?htn_h1 - htn_slot ?htn_h2 - htn_slot ?htn_h3 - htn_slot ?v - vehicle ?p - package ?l1 - location ?l2 - location) :precondition (and (htn_t_deliver ?htn_h ?p ?l2) (forall (?htn_x - htn_slot) (not (htn_before ?htn_x ?htn_h))) (htn_free ?htn_h1) (htn_free ?htn_h2) (htn_free ?htn_h3) (not (= ?htn_h1 ?htn_h2)) (not (= ?htn_h1 ?htn_h3)) (not (= ?htn_h2 ?htn_h3))) :effect (and (not (htn_t_deliver ?htn_h ?p ?l2)) (not (htn_free ?htn_h1)) (not (htn_free ?htn_h2)) (not (htn_free ?htn_h3)) (htn_t_get-to ?htn_h1 ?v ?l1) (htn_a_pick-up ?htn_h2 ?v ?l1 ?p) (htn_t_get-to ?htn_h3 ?v ?l2) (htn_a_drop ?htn_h ?v ?l2 ?p) (htn_before ?htn_h1 ?htn_h2) (htn_before ?htn_h2 ?htn_h3) (htn_before ?htn_h3 ?htn_h)))\n",
    " (:action htn_m_m-via :parameters (?htn_h - htn_slot ?htn_h1 - htn_slot ?v - vehicle ?l1 - location ?l2 - location ?l3 - location) :precondition (and (htn_t_get-to ?htn_h ?v ?l3) (forall (?htn_x - htn_slot) (not (htn_before ?htn_x ?htn_h))) (htn_free ?htn_h1)) :effect (and (not (htn_t_get-to ?htn_h ?v ?l3)) (not (htn_free ?htn_h1)) (htn_a_drive ?htn_h1 ?v ?l1 ?l2) (htn_t_get-to ?htn_h ?v ?l3) (htn_before ?htn_h1 ?htn_h)))\n",
    " (:action htn_m_m-there :parameters (?htn_h - htn_slot ?v - vehicle ?l - location) :precondition (and (htn_t_get-to ?htn_h ?v ?l) (forall (?htn_x - htn_slot) (not (htn_before ?htn_x ?htn_h)))) :effect (and (not (htn_t_get-to ?htn_h ?v ?l)) (htn_c_m-there ?htn_h ?v ?l)))\n",
    " (:action htn_c_m-there :parameters (?htn_h - htn_slot ?v - vehicle ?l - location) :precondition (and (htn_c_m-there ?htn_h ?v ?l) (forall (?htn_x - htn_slot) (not (htn_before ?htn_x ?htn_h))) (at ?v ?l)) :effect (and (not (htn_c_m-there ?htn_h ?v ?l)) (htn_free ?htn_h) (forall (?htn_x - htn_slot) (not (htn_before ?htn_h ?htn_x)))))\n",
    " (:action drive :parameters (?htn_h - htn_slot ?v - vehicle ?l1 - location ?l2 - location) :precondition (and (htn_a_drive ?htn_h ?v ?l1 ?l2) (forall (?htn_x - htn_slot) (not (htn_before ?htn_x ?htn_h))) (and (at ?v ?l1) (road ?l1 ?l2))) :effect (and (not (htn_a_drive ?htn_h ?v ?l1 ?l2)) (htn_free ?htn_h) (forall (?htn_x - htn_slot) (not (htn_before ?htn_h ?htn_x))) (and (not (at ?v ?l1)) (at ?v ?l2))))\n",
    " (:action pick-up :parameters (?htn_h - htn_slot ?v - vehicle ?l - location ?p - package) :precondition (and (htn_a_pick-up ?htn_h ?v ?l ?p) (forall (?htn_x - htn_slot) (not (htn_before ?htn_x ?htn_h))) (and (at ?v ?l) (at ?p ?l))) :effect (and (not (htn_a_pick-up ?htn_h ?v ?l ?p)) (htn_free ?htn_h) (forall (?htn_x - htn_slot) (not (htn_before ?htn_h ?htn_x))) (and (not (at ?p ?l)) (in ?p ?v))))\n",
    " (:action drop :parameters (?htn_h - htn_slot ?v - vehicle ?l - location ?p - package) :precondition (and (htn_a_drop ?htn_h ?v ?l ?p) (forall (?htn_x - htn_slot) (not (htn_before ?htn_x ?htn_h))) (and (at ?v ?l) (in ?p ?v))) :effect (and (not (htn_a_drop ?htn_h ?v ?l ?p)) (htn_free ?htn_h) (forall (?htn_x - htn_slot) (not (htn_before ?htn_h ?htn_x))) (and (not (in ?p ?v)) (at ?p ?l))))\n",
    ")\n",
);

pub(crate) const MADE_PROBLEM: &str = concat!(
    "(define (problem made)\n",
    " (:domain transport)\n",
    " (:objects)\n",
    " (:init (htn_top htn_s1) (htn_free htn_s2) (htn_free htn_s3) (htn_free htn_s4) (htn_free htn_s5) (road l0 l1) (road l1 l0) (at v1 l0) (at p1 l0))\n",
    " (:goal (and (forall (?htn_x - htn_slot) (htn_free ?htn_x))))\n",
    ")\n",
);
