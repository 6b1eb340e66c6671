//! What a statement is answered.

ghost use Rattle.std.specs.Prelude.{◌≡◌, true};
ghost use Rattle.script_text.specs.Shown.{are_bytes, is_whole_address};

use chunk_store::Clash;
use tuple_codec::{Address, Answer};

/// What a statement answers.
#[derive(Drop)]
pub enum Reply {
    Done,
    /// So many rows were added.
    Count(u64),
    Rows(Answer),
    /// The number of the refusal; each has its text.
    Refused(u16),
    /// A text that is no statement, number 1064, and the byte from 0 at which it stops to be one.
    Syntax(u32),
    /// Two byte strings of one address were met: number 3.
    Collided(Clash),
}

impl Reply {
    ghost use Rattle.std.specs.Prelude.{◌≡◌, true};
    ghost use Rattle.script_text.specs.Shown.{is_shown_reply};
    ghost use Rattle.script_text.specs.declared.replies.Reply.TheVariants.{Collided};

    /// The reply that tells of a collision, and that what it tells can be read back: its address is whole, and its strings
    /// are bytes.
    pub fn collided(clash: Clash) -> Reply
        ensures value { result ≡ Collided clash }
        ensures shown { is_shown_reply result ≡ true }
    {
        // each call does nothing, and its contract says what its argument's type holds
        know_address(clash.address);
        know_bytes(clash.first.as_slice());
        know_bytes(clash.second.as_slice());
        Reply::Collided(clash)
    }
}

/// An address has twenty bytes.
fn know_address(address: Address)
    ensures { is_whole_address address.0 ≡ true }
{
    know_bytes(&address.0);
}

/// What a slice of bytes holds is below 256.
fn know_bytes(bytes: &[u8])
    ensures { are_bytes bytes.now ≡ true }
{}
