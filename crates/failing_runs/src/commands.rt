//! The commands, each over the smallest problem.
use crate::made::{MADE_DOMAIN, MADE_PROBLEM};
use crate::texts::{
    DOMAIN, FIRST_DOMAIN, FIRST_PROBLEM, PLAN, PRINTED_DOMAIN, PRINTED_PROBLEM, PROBLEM,
    PRUNED_DOMAIN, PRUNED_PROBLEM, STACK_DOMAIN, STACK_PLAN, STACK_PROBLEM, TREE, TWO_DOMAIN,
};

/// What a text is read as.
#[derive(Clone, Copy)]
pub(crate) enum Form {
    /// A domain or a problem, of HDDL or of PDDL.
    Definition,
    /// A plan that is decoded.
    Spelling,
    /// A plan that is validated.
    Steps,
    /// A hierarchical plan.
    Tree,
}

/// A file that a command reads.
#[derive(Clone, Copy)]
pub(crate) struct Input {
    pub(crate) name: &'static str,
    pub(crate) text: &'static str,
    pub(crate) form: Form,
}

/// The words of a run, what it reads in order, the names and texts that it writes in order, and what it tells.
#[derive(Clone, Copy)]
pub(crate) struct Command {
    pub(crate) words: &'static [&'static str],
    pub(crate) reads: &'static [Input],
    pub(crate) writes: &'static [(&'static str, &'static str)],
    pub(crate) tells: &'static str,
}

impl Command {
    /// How many gets and puts it makes.
    pub(crate) fn calls(&self) -> usize {
        self.reads.len().saturating_add(self.writes.len())
    }
}

const D: Input = Input {
    name: "d.hddl",
    text: DOMAIN,
    form: Form::Definition,
};

const P: Input = Input {
    name: "p.hddl",
    text: PROBLEM,
    form: Form::Definition,
};

const TWO: Input = Input {
    name: "d.hddl",
    text: TWO_DOMAIN,
    form: Form::Definition,
};

const SPELLING: Input = Input {
    name: "plan",
    text: PLAN,
    form: Form::Spelling,
};

const STACKED: Input = Input {
    name: "plan",
    text: STACK_PLAN,
    form: Form::Spelling,
};

const HPLAN: Input = Input {
    name: "hplan",
    text: TREE,
    form: Form::Tree,
};

const PD: Input = Input {
    name: "pd",
    text: PRINTED_DOMAIN,
    form: Form::Definition,
};

const PP: Input = Input {
    name: "pp",
    text: PRINTED_PROBLEM,
    form: Form::Definition,
};

const STEPS: Input = Input {
    name: "plan",
    text: PLAN,
    form: Form::Steps,
};

pub(crate) const COMMANDS: &[Command] = &[
    Command {
        words: &["translate", "d.hddl", "p.hddl", "od", "op", "--bound", "1"],
        reads: &[D, P],
        writes: &[("od", PRINTED_DOMAIN), ("op", PRINTED_PROBLEM)],
        tells: "slots 1\n",
    },
    Command {
        words: &[
            "translate",
            "d.hddl",
            "p.hddl",
            "od",
            "op",
            "--slots",
            "first",
        ],
        reads: &[TWO, P],
        writes: &[("od", FIRST_DOMAIN), ("op", FIRST_PROBLEM)],
        tells: "slots 2\n",
    },
    Command {
        words: &[
            "translate",
            "d.hddl",
            "p.hddl",
            "od",
            "op",
            "--form",
            "stack",
        ],
        reads: &[D, P],
        writes: &[("od", STACK_DOMAIN), ("op", STACK_PROBLEM)],
        tells: "slots 1\n",
    },
    Command {
        words: &["bound", "d.hddl", "p.hddl"],
        reads: &[D, P],
        writes: &[],
        tells: "1\n",
    },
    Command {
        words: &["decode", "d.hddl", "p.hddl", "plan"],
        reads: &[D, P, SPELLING],
        writes: &[],
        tells: TREE,
    },
    Command {
        words: &["bound", "d.hddl", "p.hddl", "--level", "ground"],
        reads: &[D, P],
        writes: &[],
        tells: "1\n",
    },
    Command {
        words: &["encode", "d.hddl", "p.hddl", "hplan"],
        reads: &[D, P, HPLAN],
        writes: &[],
        tells: "; slots 1\n(htn_start htn_s1)\n(htn_m_m htn_s1)\n(a htn_s1)\n",
    },
    Command {
        words: &["decode", "d.hddl", "p.hddl", "plan", "--form", "stack"],
        reads: &[D, P, STACKED],
        writes: &[],
        tells: TREE,
    },
    Command {
        words: &["encode", "d.hddl", "p.hddl", "hplan", "--form", "stack"],
        reads: &[D, P, HPLAN],
        writes: &[],
        tells: "; slots 1\n(htn_start htn_s1)\n(htn_m_m htn_s1)\n(a htn_s0 htn_s1)\n",
    },
    Command {
        words: &["validate", "pd", "pp", "plan"],
        reads: &[PD, PP, STEPS],
        writes: &[],
        tells: "valid\n",
    },
    Command {
        words: &["prune", "d.hddl", "p.hddl", "od", "op"],
        reads: &[D, P],
        writes: &[("od", PRUNED_DOMAIN), ("op", PRUNED_PROBLEM)],
        tells: "tasks 1 methods 1 actions 1\n",
    },
    // make
    Command {
        words: &["make", "1", "od", "op"],
        reads: &[],
        writes: &[("od", MADE_DOMAIN), ("op", MADE_PROBLEM)],
        tells: "packages 1\nactions 8\nbound 5\nwidth 4\nsteps 10\n",
    },
];
