//! What replies tell that no rule of SQL does.

ghost use Rattle.std.specs.Prelude.{◌≡◌, ℕ, List, IfErr, IfOk, true};
ghost use Rattle.std.specs.List.{list_all};
ghost use Rattle.script_text.specs.Collisions.{AllTellTruly, IsFault, TellsTruly};
ghost use Rattle.std.specs.List.{AllByRecursion};
ghost use Rattle.plain_run.specs.Plain.{is_by_rule};

use chunk_store::PutFault;
use script_text::Reply;
use tuple_codec::Sequence;

/// The first want of memory or collision that the replies tell, as a fault.
pub(crate) fn find_shortage(replies: &[Sequence<Reply>]) -> Result<(), PutFault>
    ensures none { IfOk result (λ _. list_all (list_all is_by_rule) replies.now ≡ true) }
    ensures fault { (address : List ℕ → List ℕ) → AllTellTruly address replies.now → IfErr result (IsFault address) }
{
    for session in replies {
        find_shortage_of(session.as_slice())?;
    }
    Ok(())
}

fn find_shortage_of(replies: &[Reply]) -> Result<(), PutFault>
    ensures none { IfOk result (λ _. list_all is_by_rule replies.now ≡ true) }
    ensures fault { (address : List ℕ → List ℕ) → AllByRecursion (TellsTruly address) replies.now → IfErr result (IsFault address) }
{
    for reply in replies {
        shortage_of(reply)?;
    }
    Ok(())
}

fn shortage_of(reply: &Reply) -> Result<(), PutFault>
    ensures none { IfOk result (λ _. is_by_rule reply.now ≡ true) }
    ensures fault { (address : List ℕ → List ℕ) → TellsTruly address reply.now → IfErr result (IsFault address) }
{
    match reply {
        Reply::Refused(number) if *number == 1 || *number == 2 => Err(PutFault::Memory),
        Reply::Collided(clash) => Err(PutFault::Collision(clash.clone()?)),
        _ => Ok(()),
    }
}
