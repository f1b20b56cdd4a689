ghost use Rattle.std.specs.Prelude.{IfOk, IfErr};
ghost use Rattle.plan_model.specs.Parts.{AreListed};
ghost use Rattle.problem_texts.specs.ArePrinted.{IsCompiledProblem};
ghost use Rattle.htn_cli.specs.Texts.{texts_of};
ghost use Rattle.htn_cli.specs.Stops.{StopsPrinted};
ghost use Rattle.htn_cli.specs.Printing.{AreWhole, IsPrintedWithin};

use crate::manner::Manner;
use crate::refusal::{Failure, Limit, Refusal};
use command_words::PrintedForm;
use htn_base::Memory;
use htn_base::limits::LONGEST_OUTPUT;
use plan_model::Compiled;
use problem_texts::{Printed, Texts, texts_of};
use stack_encoder::stack_texts_of;
use std::alloc::Global;

/// The printed texts of a compiled problem, if neither is too long.
pub(crate) fn printed<'a>(
    alloc: Global,
    compiled: &Compiled,
    manner: &Manner,
) -> Result<Texts, Refusal<'a>>
    requires compiled { IsCompiledProblem compiled.now }
    requires listed { AreListed compiled.now.hddl.types }
    ensures whole { IfOk result (λ texts. AreWhole compiled.now manner.now (texts_of texts)) }
    ensures refused { IfErr result (StopsPrinted compiled.now manner.now) }
{
    match printed_within(alloc, compiled, manner) {
        Ok(Printed::Whole(texts)) => Ok(texts),
        Ok(Printed::TooLong(size)) => Err(Refusal::Limit(Limit::Output(size))),
        Err(_) => Err(Refusal::Failure(Failure::Memory)),
    }
}

/// These texts, or the length of the first that is too long.
fn printed_within(alloc: Global, compiled: &Compiled, manner: &Manner) -> Result<Printed, Memory>
    requires compiled { IsCompiledProblem compiled.now }
    requires listed { AreListed compiled.now.hddl.types }
    ensures printed { IfOk result (IsPrintedWithin compiled.now manner.now) }
{
    match manner.form {
        PrintedForm::Slots => texts_of(
            alloc,
            compiled,
            manner.slots,
            &manner.rule,
            &manner.style,
            LONGEST_OUTPUT,
        ),
        PrintedForm::Stack => stack_texts_of(alloc, compiled, manner.slots, LONGEST_OUTPUT),
    }
}
