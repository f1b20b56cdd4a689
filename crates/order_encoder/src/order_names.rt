use htn_base::Name;

/// What the printed problem calls its order pairs: the number of their predicate, the type of slots, the name of a slot
/// that is quantified, and the object of the first slot, after which the others follow.
#[derive(Clone, Copy)]
pub struct OrderNames {
    pub before: u32,
    pub slot_type: u32,
    pub x: Name,
    pub first_slot: u32,
}
