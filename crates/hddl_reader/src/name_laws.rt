// Laws of the faults of names.
ghost use Rattle.hddl_reader.specs.names.Laws.{OfAllTexts, OneIsLeastOfDomain, OneIsLeastOfProblem};
ghost use Rattle.hddl_reader.specs.names.Laws.{OneIsLeastOfBoth, AreNameCodes};
ghost use Rattle.hddl_reader.specs.names.Laws.{IsLeastByFile, IsNoneByFile};
ghost use Rattle.hddl_reader.specs.names.Laws.{OfAllNetworks, OneCycleIsAFault, OneTypeCycleIsAFault};
ghost use Rattle.hddl_reader.specs.names.Laws.{LimitComesFirst, UnknownIdsCloseNone};

/// At most one fault is the least, of one text and of two. The codes of names go from 10 to 22, and
/// 18 is none of them.
pub fn one_fault_is_the_least()
    ensures domain { OneIsLeastOfDomain }
    ensures problem { OneIsLeastOfProblem }
    ensures both { OfAllTexts OneIsLeastOfBoth }
    ensures codes { OfAllTexts AreNameCodes }
{}

/// The least fault is the domain's least, or the problem's where the domain has none.
pub fn the_domain_comes_first()
    ensures least { OfAllTexts IsLeastByFile }
    ensures none { OfAllTexts IsNoneByFile }
{}

/// At most one cycle is a fault, of a network and of the types. A network past the limit on subtasks
/// has none, and a pair with an unknown id closes none.
pub fn one_cycle_is_a_fault()
    ensures networks { OfAllNetworks OneCycleIsAFault }
    ensures types { OneTypeCycleIsAFault }
    ensures limit { OfAllNetworks LimitComesFirst }
    ensures unknown { OfAllNetworks UnknownIdsCloseNone }
{}
