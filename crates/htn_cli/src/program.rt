ghost use Rattle.std.specs.Prelude.{ℕ, ◌≡◌, ◌≢◌, ◌↔◌, ◌⊎◌, ◌<◌, ◌≤◌, ◌^◌, IfOk, IfErr, OnOk};
ghost use Rattle.outside_io.specs.Seen.{Seen};
ghost use Rattle.outside_io.specs.Files.{GetHasFailed, PutHasFailed};
ghost use Rattle.outside_io.specs.Sink.{WriteHasFailed};
ghost use Rattle.command_words.specs.Names.{words_of};
ghost use Rattle.command_words.specs.Words.{AreOfAForm, request_of};
ghost use Rattle.htn_cli.specs.Ending.{Achieves, AskForNoFile, AskForSlots, AskForTooMany, Ends, IsAnswered, IsBeforePuts};
ghost use Rattle.htn_cli.specs.Ending.{IsDone, IsOfAnAnswer, IsRefused, IsRefusedFor, IsUntouched};
ghost use Rattle.htn_cli.specs.Left.{Leaves};
ghost use Rattle.htn_cli.specs.Answer.{gives};
ghost use Rattle.htn_cli.specs.Calling.{PassesInputs, PassesRequest, StopsInputs, StopsRequest};
ghost use Rattle.htn_cli.specs.Made.{GivesOutput, output_of};
ghost use Rattle.htn_cli.specs.Passing.{CallsAre, CallsBefore, PassesDone, PassesFinding, PassesRefused};
ghost use Rattle.htn_cli.specs.Stops.{IsWellAsked, StopsOutput};
ghost use Rattle.htn_cli.specs.promise.Promise.{KeepsPromise};

use crate::bounding::bounding;
use crate::decode::decode;
use crate::delivery::deliver;
use crate::encode::encode;
use crate::make::make;
use crate::output::Output;
use crate::prune::pruning;
use crate::refusal::{Limit, Refusal};
use crate::status::Status;
use crate::telling::tell;
use crate::translation::translation;
use crate::validation::validation;
use command_words::{Asked, asked};
use decode_answers::values_are_decoded_alike;
use encode_answers::{no_width_is_past_the_bound, values_are_encoded_alike};
use ground_answers::values_have_one_ground_bound;
use outside_io::{Files, Sink};
use stack_answers::values_are_stack_decoded_alike;
use stack_encode_answers::values_are_stacked_alike;
use std::alloc::Global;

/// Does what the words ask, and tells on `err` why where it cannot.
pub fn run<F: Files, O: Sink, E: Sink>(
    alloc: Global,
    words: &[String],
    files: &mut F,
    out: &mut O,
    err: &mut E,
) -> Status
    // Where nothing outside fails, a run ends with the answer to its words, or wants memory. And
    // each status but those of failures and of memory is that of the answer, whatever fails.
    ensures answer { (Seen F.state GetHasFailed files.old files.new → ⊥) →
        (Seen F.state PutHasFailed files.old files.new → ⊥) →
        (Seen O.state WriteHasFailed out.old out.new → ⊥) →
        (result ≡ Status.NoMemory) ⊎ IsAnswered (words_of words.now)
        (F.state files.old) (F.state files.new) (O.state out.old) (O.state out.new)
        result (E.state err.old) (E.state err.new) }
    ensures answered { IsOfAnAnswer result → IsAnswered (words_of words.now)
        (F.state files.old) (F.state files.new) (O.state out.old) (O.state out.new)
        result (E.state err.old) (E.state err.new) }
    ensures refused { result ≢ Status.Done → Ends (words_of words.now)
        (F.state files.old) (F.state files.new) (O.state out.old) (O.state out.new)
        result (E.state err.old) (E.state err.new) }

    // What was written and told is true of the problem that the inputs spell, or that was made.
    ensures promise { KeepsPromise (words_of words.now) (F.state files.old) (F.state files.new)
        (O.state out.old) (O.state out.new) (E.state err.old) (E.state err.new) result }

    // And it is true of the bytes that passed between the run and its files: the gets and the puts that
    // it made are these, in this order.
    ensures passed { result ≡ Status.Done → PassesDone (words_of words.now)
        (CallsAre (F.passed files.old) (F.passed files.new)) (O.state out.old) (O.state out.new) }
    ensures stopped { IsBeforePuts result → PassesRefused (words_of words.now)
        (CallsAre (F.passed files.old) (F.passed files.new)) result
        (E.state err.old) (E.state err.new) }
    ensures found { result ≡ Status.Finding → PassesFinding (words_of words.now)
        (CallsAre (F.passed files.old) (F.passed files.new)) (E.state err.old) (E.state err.new) }

    ensures quiet { result ≡ Status.Done → E.state err.new ≡ E.state err.old }
    ensures untouched { IsBeforePuts result →
        IsUntouched (F.state files.old) (F.state files.new) (O.state out.old) (O.state out.new) }
    ensures inputs_stay { AskForNoFile (words_of words.now) →
        (F.state files.new).held ≡ (F.state files.old).held }
    ensures words { (result ≡ Status.Words) ↔ (AreOfAForm (words_of words.now) → ⊥) }

    // A number of slots that is given, or that a made problem takes, and past a limit is refused before
    // any file is read, and takes no memory.
    ensures past_all { (n : ℕ) → AskForSlots (words_of words.now) n → 2 ^ 128 ≤ n → IsRefusedFor
        (F.state files.old) (F.state files.new) (O.state out.old) (O.state out.new)
        (Refusal.Limit Limit.Bound) result (E.state err.old) (E.state err.new) }
    ensures past_slots { (n : ℕ) → AskForTooMany (words_of words.now) n →
        n < 2 ^ 128 → IsRefusedFor
        (F.state files.old) (F.state files.new) (O.state out.old) (O.state out.new)
        (Refusal.Limit (Limit.Slots n)) result (E.state err.old) (E.state err.new) }

    // A fault of reading or writing comes only where a count rose, and a count that rose shows.
    ensures read_fault { result ≡ Status.ReadFault → Seen F.state GetHasFailed files.old files.new }
    ensures write_fault { result ≡ Status.WriteFault →
        Seen F.state PutHasFailed files.old files.new
        ⊎ Seen O.state WriteHasFailed out.old out.new }
    ensures failed_get { (F.state files.old).get_faults < (F.state files.new).get_faults →
        result ≡ Status.ReadFault }
    ensures failed_put { (F.state files.old).put_faults < (F.state files.new).put_faults →
        result ≡ Status.WriteFault }
    ensures failed_write { (O.state out.old).faults < (O.state out.new).faults →
        result ≡ Status.WriteFault }
{
    // laws, which do nothing
    values_are_decoded_alike();
    values_are_stack_decoded_alike();
    values_are_encoded_alike();
    values_are_stacked_alike();
    no_width_is_past_the_bound();
    values_have_one_ground_bound();
    match act(alloc, words, files, out) {
        Ok(()) => Status::Done,
        Err(refusal) => {
            tell(err, &refusal);
            let status = refusal.status();
            drop(refusal);
            status
        }
    }
}

fn act<'a, F: Files, O: Sink>(
    alloc: Global,
    words: &'a [String],
    files: &mut F,
    out: &mut O,
) -> Result<(), Refusal<'a>>
    ensures done { OnOk result (IsDone (words_of words.now)
        (F.state files.old) (F.state files.new) (O.state out.old) (O.state out.new)) }
    ensures refused { IfErr result (IsRefused (words_of words.now)
        (F.state files.old) (F.state files.new) (O.state out.old) (O.state out.new)) }
    ensures passed { OnOk result (PassesDone (words_of words.now)
        (CallsAre (F.passed files.old) (F.passed files.new)) (O.state out.old) (O.state out.new)) }
    ensures stopped { IfErr result (CallsBefore (words_of words.now)
        (CallsAre (F.passed files.old) (F.passed files.new))) }
{
    // laws, which do nothing
    values_are_decoded_alike();
    values_are_stack_decoded_alike();
    values_are_encoded_alike();
    values_are_stacked_alike();
    no_width_is_past_the_bound();
    values_have_one_ground_bound();
    match asked(words) {
        None => Err(Refusal::Words),
        Some(asked) => perform(alloc, &asked, files, out),
    }
}

/// Does what is asked for. The output is complete before the first put.
fn perform<'a, F: Files, O: Sink>(
    alloc: Global,
    asked: &Asked<'a>,
    files: &mut F,
    out: &mut O,
) -> Result<(), Refusal<'a>>
    requires well { IsWellAsked asked.now }
    ensures done { OnOk result (Achieves
        (F.state files.old) (F.state files.new) (O.state out.old) (O.state out.new)
        (request_of asked.now)) }
    ensures refused { IfErr result (Leaves (request_of asked.now)
        (F.state files.old) (F.state files.new) (O.state out.old) (O.state out.new)) }
    ensures passed { OnOk result (PassesRequest (request_of asked.now)
        (F.passed files.old) (F.passed files.new) (O.state out.old) (O.state out.new)) }
    ensures stopped { IfErr result
        (Seen F.passed (StopsRequest (request_of asked.now)) files.old files.new) }
{
    let output = output_for(alloc, asked, files)?;
    let delivered = deliver(&output, files, out);
    drop(output);
    delivered
}

/// What is given for what is asked.
fn output_for<'a, F: Files>(
    alloc: Global,
    asked: &Asked<'a>,
    files: &mut F,
) -> Result<Output<'a>, Refusal<'a>>
    requires well { IsWellAsked asked.now }
    ensures given { IfOk result (Seen F.state
        (GivesOutput (request_of asked.now)) files.old files.new) }
    ensures refused { IfErr result (Seen F.state
        (StopsOutput (request_of asked.now)) files.old files.new) }
    ensures passed { IfOk result (λ made. Seen F.passed (PassesInputs (request_of asked.now))
        files.old files.new (gives (output_of made))) }
    ensures stopped { IfErr result
        (Seen F.passed (StopsInputs (request_of asked.now)) files.old files.new) }
{
    match asked {
        Asked::Translation(asked) => translation(alloc, asked, files),
        Asked::Bound(asked) => bounding(alloc, asked, files),
        Asked::Decoding(asked) => decode(alloc, asked, files),
        Asked::Encoding(asked) => encode(alloc, asked, files),
        Asked::Validation(asked) => validation(alloc, asked, files),
        Asked::Making(asked) => make(alloc, asked),
        Asked::Pruning(asked) => pruning(alloc, asked, files),
    }
}
