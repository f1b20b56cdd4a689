ghost use Rattle.std.specs.Prelude.{◌≡◌, ◌++◌, ◌∷◌, [], IfOk, OnOk};
ghost use Rattle.std.specs.List.{flat_map};
ghost use Rattle.made_transport.specs.Made as spec;

use htn_base::{Memory, Text};
use itoa::Buffer;
use std::alloc::Global;

/// The lines of the domain.
const DOMAIN: [&[u8]; 17] = [
    b"(define (domain transport)",
    b" (:requirements :typing :hierarchy :method-preconditions)",
    b" (:types location locatable - object vehicle package - locatable)",
    b" (:predicates (road ?l1 ?l2 - location) (at ?x - locatable ?l - location) (in ?p - package ?v - vehicle))",
    b" (:task deliver :parameters (?p - package ?l - location))",
    b" (:task get-to :parameters (?v - vehicle ?l - location))",
    b" (:method m-deliver :parameters (?v - vehicle ?p - package ?l1 ?l2 - location) :task (deliver ?p ?l2)",
    b"  :ordered-subtasks (and (get-to ?v ?l1) (pick-up ?v ?l1 ?p) (get-to ?v ?l2) (drop ?v ?l2 ?p)))",
    b" (:method m-via :parameters (?v - vehicle ?l1 ?l2 ?l3 - location) :task (get-to ?v ?l3)",
    b"  :ordered-subtasks (and (drive ?v ?l1 ?l2) (get-to ?v ?l3)))",
    b" (:method m-there :parameters (?v - vehicle ?l - location) :task (get-to ?v ?l) :precondition (at ?v ?l) :subtasks ())",
    b" (:action drive :parameters (?v - vehicle ?l1 ?l2 - location)",
    b"  :precondition (and (at ?v ?l1) (road ?l1 ?l2)) :effect (and (not (at ?v ?l1)) (at ?v ?l2)))",
    b" (:action pick-up :parameters (?v - vehicle ?l - location ?p - package)",
    b"  :precondition (and (at ?v ?l) (at ?p ?l)) :effect (and (not (at ?p ?l)) (in ?p ?v)))",
    b" (:action drop :parameters (?v - vehicle ?l - location ?p - package)",
    b"  :precondition (and (at ?v ?l) (in ?p ?v)) :effect (and (not (in ?p ?v)) (at ?p ?l))))",
];

/// More bytes than the lines of the domain have.
const DOMAIN_ROOM: usize = 2_048;

/// More bytes than the problem has without its packages, and than it has more for each package, whose number has at most three digits.
const PROBLEM_ROOM: usize = 256;

const PACKAGE_ROOM: usize = 36;

/// The domain.
pub(crate) fn domain(alloc: Global) -> Result<Text, Memory>
    ensures { IfOk result (λ text. text ≡ spec.made_domain) }
{
    lines(alloc, &DOMAIN)
}

// The lines, each ended by a newline.
fn lines(alloc: Global, lines: &[&[u8]]) -> Result<Text, Memory>
    ensures { IfOk result (λ text. text ≡ flat_map (λ line. line.now ++ 10 ∷ []) lines.now) }
{
    let mut text = Text::new(alloc);
    text.reserve(DOMAIN_ROOM)?;
    for line in lines {
        text.push_all(line)?;
        text.push(b'\n')?;
    }
    Ok(text)
}

/// The problem of k packages.
pub(crate) fn problem(alloc: Global, k: u32) -> Result<Text, Memory>
    ensures { IfOk result (λ text. text ≡ spec.made_problem k) }
{
    let mut text = Text::new(alloc);
    text.reserve(PROBLEM_ROOM + PACKAGE_ROOM * k as usize)?;
    text.push_all(
        b"(define (problem made) (:domain transport) (:objects l0 l1 - location v1 - vehicle",
    )?;
    put_each(k, b" p", b"", &mut text)?;
    text.push_all(b" - package) (:htn :subtasks (and")?;
    put_each(k, b" (deliver p", b" l1)", &mut text)?;
    text.push_all(b")) (:init (road l0 l1) (road l1 l0) (at v1 l0)")?;
    put_each(k, b" (at p", b" l0)", &mut text)?;
    text.push_all(b"))\n")?;
    Ok(text)
}

// Puts the number of each package between these bytes.
fn put_each(k: u32, front: &[u8], back: &[u8], into: &mut Text) -> Result<(), Memory>
    ensures put { OnOk result (into.new ≡ into.old ++ spec.each_package k front.now back.now) }
{
    let mut digits = Buffer::new();
    for i in 0..k {
        into.push_all(front)?;
        into.push_all(digits.format(i + 1).as_bytes())?;
        into.push_all(back)?;
    }
    Ok(())
}
