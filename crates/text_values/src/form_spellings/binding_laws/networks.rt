// Laws of declarations and of networks that go over from the numbers of names to their words.
ghost use Rattle.hddl_reader.specs.declared.networks.RawNet.{RawNet};
ghost use Rattle.text_values.specs.form_spellings.binding_laws.Calls.{HasCallFaults, HasTaskFaults, HasSecondCallables};
ghost use Rattle.text_values.specs.form_spellings.binding_laws.Calls.{IsCallBound, OfAllCallables};
ghost use Rattle.text_values.specs.form_spellings.binding_laws.Orders.{HasUnknownIds, HasCycle, HasLimit, OfAllNetworks};
ghost use Rattle.text_values.specs.form_spellings.binding_laws.Seconds.{HasSecondTerms, HasSecondParams, HasSecondHeads, HasSecondMethods};
ghost use Rattle.text_values.specs.form_spellings.binding_laws.WholeNetworks.{HasNetworkFaults};
ghost use Rattle.text_values.specs.form_spellings.binding_laws.NetworkValues.{IsNetworkBound};
ghost use Rattle.text_values.specs.form_spellings.binding_laws.SoundNetworks.{HasSoundNetwork};
ghost use Rattle.std.specs.Prelude.{ℕ, List};

/// The faults of second declarations stand at the names whose word stands in front already: ids and other terms, variables and
/// objects, predicates and tasks, methods; of tasks and actions together, which share one space of names, at those behind another
/// of their word in the text.
pub fn seconds_are_said()
    ensures terms { HasSecondTerms }
    ensures params { HasSecondParams }
    ensures heads { HasSecondHeads }
    ensures methods { HasSecondMethods }
    ensures callables { OfAllCallables HasSecondCallables }
{}

/// The faults of the ordering of a network: the ids in pairs that no subtask has, the pair that closes the first cycle, and the
/// first subtask past the limit.
pub fn orders_are_said()
    ensures unknown { OfAllNetworks HasUnknownIds }
    ensures cycle { OfAllNetworks HasCycle }
    ensures limit { (net : RawNet) → HasLimit net }
{}

/// The faults of the name that a subtask calls are those of its use, and those of the task of a method likewise. Without faults,
/// and where no two declarations have one word, what a subtask calls is the task, or else the action, of its word.
pub fn calls_are_said()
    ensures subtasks { OfAllCallables HasCallFaults }
    ensures tasks { OfAllCallables HasTaskFaults }
    ensures bound { OfAllCallables IsCallBound }
{}

/// The faults of a whole network are those of its ids, its ordering and its limit, and those of the uses in its subtasks and
/// constraints. Without faults, and where no two callables have one word, a network is bound to what it stands for.
pub fn networks_are_said()
    ensures faults { OfAllCallables (λ names d known.
        (objects scope : List ℕ) → HasNetworkFaults names d known objects scope) }
    ensures bound { OfAllCallables (λ names d known.
        (objects scope : List ℕ) → IsNetworkBound names d known objects scope) }
{}

/// The network of a method without faults is sound: pairs are of its subtasks, and the ids that are written are names and differ.
pub fn networks_are_sound()
    ensures sound { HasSoundNetwork }
{}
