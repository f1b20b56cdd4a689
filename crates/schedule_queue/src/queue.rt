ghost use Rattle.std.specs.Prelude.{ℕ, List as Items, ◌≡◌, ◌≢◌, ◌-◌, ◌∷◌, ◌++◌, [], slice_index, IfOk, OnOk};
ghost use Rattle.htn_base.specs.Different.{AreDifferent};
ghost use Rattle.plan_model.specs.task_networks.Tree.{Tree as DecompositionTree, Address};
ghost use Rattle.plan_model.specs.plan_meaning.Network.{network};
ghost use Rattle.schedule_queue.specs.Given.{IsGiven};
ghost use Rattle.schedule_queue.specs.Children.{IsNode};
ghost use Rattle.schedule_queue.specs.Queue as spec;
ghost use Rattle.schedule_queue.specs.Kept as kept;

use crate::given::Given;
use htn_base::Memory;
use std::alloc::Global;
use std::collections::BTreeSet;

/// What is kept while nodes are taken: of each node by its address how many children are not whole, and how many of the siblings
/// right before it; the nodes that can be taken and are no primitives, by gap and address; and how many primitives are taken.
pub(crate) struct Queue {
    unfinished: Vec<usize>,
    blocked: Vec<usize>,
    waiting: BTreeSet<(u32, u32)>,
    passed: usize,
}

impl Drop for Queue {
    fn drop(self) {
        let Queue {
            unfinished: _,
            blocked: _,
            waiting: _,
            passed: _,
        } = self;
    }
}

impl Queue {
    /// Nothing is taken.
    pub(crate) fn new(alloc: Global, given: &Given<'_>) -> Result<Queue, Memory>
        ensures { IfOk result (λ queue. (T : DecompositionTree (network given.now.c.now)) (plan : Items Address) (gap : Address → ℕ)
            → IsGiven given.now T plan gap → kept.IsQueueOf (network given.now.c.now) T plan gap [] queue) }
    {
        let mut unfinished = Vec::new(alloc);
        let mut blocked = Vec::new(alloc);
        for address in 0..given.tree.size() {
            unfinished.push(given.children.below(address).len())?;
            blocked.push(given.right_before(address) as usize)?;
        }
        let mut queue = Queue {
            unfinished,
            blocked,
            waiting: BTreeSet::new(alloc),
            passed: 0,
        };
        queue.offer_one(given, 0)?;
        Ok(queue)
    }

    /// The next node: the first of those that wait, where its gap has come, and else the primitive of the gap.
    pub(crate) fn next(&mut self, actions: &[u32]) -> Option<u32>
        ensures { spec.IsNext actions.now self.old self.new result }
    {
        if let Some(address) = self.pop() {
            return Some(address);
        }
        let address = *actions.get(self.passed)?;
        self.passed += 1;
        Some(address)
    }

    /// Takes the first of those that wait out, where its gap has come.
    fn pop(&mut self) -> Option<u32>
        ensures { spec.IsPopped self.old self.new result }
    {
        let (gap, _) = *self.waiting.first()?;
        if gap as usize > self.passed {
            return None;
        }
        let (_, address) = self.waiting.pop_first()?;
        Some(address)
    }

    /// The node is taken. It was not in the queue, or was taken out.
    pub(crate) fn take(
        &mut self,
        alloc: Global,
        given: &Given<'_>,
        address: u32,
    ) -> Result<(), Memory>
        ensures { OnOk result ((T : DecompositionTree (network given.now.c.now)) (plan : Items Address) (gap : Address → ℕ)
            (taken : Items Address) (p : Address) → IsGiven given.now T plan gap → IsNode (network given.now.c.now) T address p
            → kept.IsTakenOut (network given.now.c.now) T plan gap taken p self.old
            → kept.IsQueueOf (network given.now.c.now) T plan gap (taken ++ p ∷ []) self.new) }
    {
        let children = given.children.below(address);
        self.offer(given, children)?;
        if children.len() > 0 {
            return Ok(());
        }
        self.walk(alloc, given, address)
    }

    /// The node has become whole. From there it goes up, as far as parents become whole.
    fn walk(&mut self, alloc: Global, given: &Given<'_>, address: u32) -> Result<(), Memory>
        ensures { OnOk result ((T : DecompositionTree (network given.now.c.now)) (plan : Items Address) (gap : Address → ℕ)
            (taken : Items Address) (p v : Address) → IsGiven given.now T plan gap → IsNode (network given.now.c.now) T address v
            → kept.IsWholeAt (network given.now.c.now) T plan gap taken p v self.old
            → kept.IsQueueOf (network given.now.c.now) T plan gap (taken ++ p ∷ []) self.new) }
    {
        let mut whole = address;
        while let Some(parent) = given.tree.parent(whole) {
            if parent >= whole {
                return Ok(());
            }
            self.tell(alloc, given, whole, parent)?;
            if self.unfinished(parent) > 0 {
                return Ok(());
            }
            whole = parent;
        }
        Ok(())
    }

    /// What waits for the node, which has become whole, has one less to wait for.
    fn tell(
        &mut self,
        alloc: Global,
        given: &Given<'_>,
        whole: u32,
        parent: u32,
    ) -> Result<(), Memory>
        ensures { OnOk result ((T : DecompositionTree (network given.now.c.now)) (plan : Items Address) (gap : Address → ℕ)
            (taken : Items Address) (p q : Address) (i : ℕ) → IsGiven given.now T plan gap
            → IsNode (network given.now.c.now) T whole (i ∷ q) → IsNode (network given.now.c.now) T parent q
            → kept.IsWholeAt (network given.now.c.now) T plan gap taken p (i ∷ q) self.old
            → kept.IsToldTo (network given.now.c.now) T plan gap taken p q self.new) }
    {
        let after = given.right_after(alloc, whole)?;
        lower_all(&mut self.blocked, after.as_slice());
        lower(&mut self.unfinished, parent);
        self.offer(given, after.as_slice())
    }

    /// Those of these that nothing blocks wait from now on, but for primitives.
    fn offer(&mut self, given: &Given<'_>, addresses: &[u32]) -> Result<(), Memory>
        ensures { OnOk result (spec.AreOffered given.now.actions.now given.now.gaps.now addresses.now self.old self.new) }
    {
        for address in addresses {
            self.offer_one(given, *address)?;
        }
        Ok(())
    }

    /// Where nothing blocks it, the node waits from now on, unless it is a primitive.
    fn offer_one(&mut self, given: &Given<'_>, address: u32) -> Result<(), Memory>
        ensures { OnOk result (spec.IsOffered given.now.actions.now given.now.gaps.now address self.old self.new) }
    {
        if self.blocked(address) == 0 {
            if let Some(gap) = given.waits_in(address) {
                self.waiting.insert((gap, address))?;
            }
        }
        Ok(())
    }

    /// How many children of the node are not whole.
    fn unfinished(&self, address: u32) -> usize
        ensures { result ≡ spec.unfinished_at self.now address }
    {
        at(&self.unfinished, address)
    }

    /// How many siblings right before the node are not whole.
    fn blocked(&self, address: u32) -> usize
        ensures { result ≡ spec.blocked_at self.now address }
    {
        at(&self.blocked, address)
    }
}

/// The count at the address.
fn at(counts: &Vec<usize>, address: u32) -> usize
    ensures { result ≡ slice_index counts.now.items address }
{
    match counts.get(address as usize) {
        Some(count) => *count,
        None => 0,
    }
}

/// One less at the address.
fn lower(counts: &mut Vec<usize>, address: u32)
    ensures here { slice_index counts.new.items address ≡ slice_index counts.old.items address - 1 }
    ensures others { (k : ℕ) → k ≢ address → slice_index counts.new.items k ≡ slice_index counts.old.items k }
{
    let place = address as usize;
    if place < counts.len() {
        counts[place] = counts[place].saturating_sub(1);
    }
}

/// One less at each of these.
fn lower_all(counts: &mut Vec<usize>, addresses: &[u32])
    ensures { AreDifferent addresses.now → spec.AreLowered addresses.now counts.old.items counts.new.items }
{
    for address in addresses {
        lower(counts, *address);
    }
}
