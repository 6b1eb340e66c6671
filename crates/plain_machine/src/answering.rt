//! From words and the bytes of a script to what the program writes, and the status.

ghost use Rattle.std.specs.Prelude.{◌≡◌, ◌≢◌, IfOk, None, Ok, Some, map, string_bytes};
ghost use Rattle.chunk_store.specs.Digests.{cut_address};
ghost use Rattle.script_text.specs.Collisions.{IsFault};
ghost use Rattle.script_text.specs.Input.{script};
ghost use Rattle.script_text.specs.declared.scripts.Script.{Script};
ghost use Rattle.script_run.specs.Scripts.{IsSoundScript};
ghost use Rattle.plain_machine.specs.Answers.{Answers, AnswersInput};
ghost use Rattle.plain_machine.specs.Words.{is_given, order_asked};
ghost use Rattle.plain_machine.specs.declared.words.MomentOrder.{MomentOrder};
ghost use Rattle.plain_machine.specs.declared.words.MomentOrder.TheVariants.{Given, OfLines};

use crate::words::{MomentOrder, USAGE, order_asked};
use chunk_store::PutFault;
use plain_run::{Followed, plain_output_in_given_order, plain_output_in_text_order};
use script_run::law_of_read_scripts;
use script_text::{Script, ScriptFault, Status, collision_text, fault_text, read_script};
use std::alloc::{AllocError, Global};
use tuple_codec::Blob;
use wire_io::{ReadStop, Source, read_up_to};

/// The date of every commit.
const EPOCH: i64 = 0;

/// One byte above the longest script.
const MOST_TAKEN: usize = 16_777_217;

/// What the program writes, and how it ends.
#[derive(Drop)]
pub struct Answer {
    pub status: Status,
    pub text: Blob,
}

/// What the program writes where it is given these words, without its own name, and this input. Where the words ask for no order nothing is read.
pub fn answer_words<S: Source>(
    alloc: Global,
    words: &[String],
    input: &mut S,
) -> Result<Answer, ReadStop>
    ensures { IfOk result (λ answer. AnswersInput (order_asked (map (λ word. string_bytes word) words.now)) (S.left input.old) (S.left input.new) answer.status answer.text) }
{
    match order_asked(words) {
        Some(order) => answer_input(alloc, order, input),
        None => Ok(Answer {
            status: Status::Usage,
            text: Blob::from_vec(Vec::from_slice(alloc, USAGE)?),
        }),
    }
}

fn answer_input<S: Source>(
    alloc: Global,
    order: MomentOrder,
    input: &mut S,
) -> Result<Answer, ReadStop>
    ensures { IfOk result (λ answer. AnswersInput (Some order) (S.left input.old) (S.left input.new) answer.status answer.text) }
{
    let bytes = read_up_to(alloc, input, MOST_TAKEN)?;
    Ok(answer_bytes(alloc, order, bytes.as_slice())?)
}

/// What the plain machine writes of the script in these bytes, in the order of its lines or in the one that it gives.
pub fn answer_bytes(alloc: Global, order: MomentOrder, bytes: &[u8]) -> Result<Answer, AllocError>
    ensures { IfOk result (λ answer. Answers order (script bytes.now (is_given order)) answer.status answer.text) }
{
    law_of_read_scripts();
    match read_script(alloc, bytes, order.is_given()) {
        Ok(script) => answer_script(alloc, order, script),
        Err(ScriptFault::Bad(bad)) => Ok(Answer {
            status: Status::Script,
            text: bytes_of(fault_text(alloc, bad)?),
        }),
        Err(ScriptFault::Memory) => Err(AllocError),
    }
}

fn answer_script(alloc: Global, order: MomentOrder, script: Script) -> Result<Answer, AllocError>
    requires sound { IsSoundScript script }
    requires ordered { order ≡ Given → script.order ≢ None }
    ensures { IfOk result (λ answer. Answers order (Ok script) answer.status answer.text) }
{
    match order {
        MomentOrder::OfLines => answer_in_text_order(alloc, script),
        MomentOrder::Given => answer_in_given_order(alloc, script),
    }
}

fn answer_in_text_order(alloc: Global, script: Script) -> Result<Answer, AllocError>
    requires sound { IsSoundScript script }
    ensures { IfOk result (λ answer. Answers OfLines (Ok script) answer.status answer.text) }
{
    match plain_output_in_text_order(alloc, script, EPOCH) {
        Ok(text) => Ok(Answer {
            status: Status::Done,
            text,
        }),
        Err(fault) => answer_fault(alloc, fault),
    }
}

fn answer_in_given_order(alloc: Global, script: Script) -> Result<Answer, AllocError>
    requires sound { IsSoundScript script }
    requires ordered { script.order ≢ None }
    ensures { IfOk result (λ answer. Answers Given (Ok script) answer.status answer.text) }
{
    match plain_output_in_given_order(alloc, script, EPOCH) {
        Ok(Followed::Text(text)) => Ok(Answer {
            status: Status::Done,
            text,
        }),
        Ok(Followed::Stop(text)) => Ok(Answer {
            status: Status::Order,
            text,
        }),
        Err(fault) => answer_fault(alloc, fault),
    }
}

fn answer_fault(alloc: Global, fault: PutFault) -> Result<Answer, AllocError>
    requires { IsFault cut_address fault }
    ensures { (order : MomentOrder) (read : Script) → IfOk result (λ answer. Answers order (Ok read) answer.status answer.text) }
{
    match fault {
        PutFault::Memory => Err(AllocError),
        PutFault::Collision(clash) => Ok(Answer {
            status: Status::Collision,
            text: Blob::from_vec(collision_text(alloc, &clash)?),
        }),
    }
}

fn bytes_of(text: String) -> Blob
    ensures { result ≡ string_bytes text }
{
    Blob::from_vec(text.into_bytes())
}
