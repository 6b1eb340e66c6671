//! The shared database at a gate.

ghost use Rattle.std.specs.Prelude.{◌≡◌, ◌≤ℤ◌, ℕ, List, [], length, pos, IfErr, IfOk};
ghost use Rattle.plain_sessions.specs.Records.{opening};
ghost use Rattle.session_state.specs.Changes.{StateStands};
ghost use Rattle.shared_db.specs.Opening.{IsOpeningFault};
ghost use Rattle.shared_history.specs.Fitting.{Fits};
ghost use Rattle.shared_history.specs.Spelling.{spelling_of};

use chunk_store::PutFault;
use seat_gate::Kept;
use shared_db::SharedDb;
use std::alloc::Global;
use std::marker::PhantomData;
use tuple_codec::Digester;

/// The shared database with the digest by which its chunks are named, for the threads that take turns at it.
#[derive(Drop)]
pub struct GatedDb<D: Digester> {
    pub db: SharedDb,
    digester: PhantomData<D>,
}

impl<D: Digester> Kept for GatedDb<D> {
    ghost spelled = { λ gated. spelling_of gated.db.parts };

    ghost fits = { λ gated opened log. Fits D.address gated.db opened log };
}

impl<D: Digester> GatedDb<D> {
    /// Opens a database for sessions with so many statements each, before any moment.
    pub fn open(alloc: Global, statements: &[u32], epoch: i64) -> Result<GatedDb<D>, PutFault>
        requires { pos 0 ≤ℤ epoch }
        ensures opening { IfOk result (λ gated. (names : List (List ℕ)) → length names ≡ length statements.now → StateStands D.address gated.db.parts (opening D.address epoch names)) }
        ensures numbers { IfOk result (λ gated. gated.db.parts.numbers ≡ statements.now) }
        ensures fits { IfOk result (λ gated. Fits D.address gated.db (spelling_of gated.db.parts) []) }
        ensures fault { IfErr result (IsOpeningFault D.address epoch) }
    {
        let db = SharedDb::open::<D>(alloc, statements, epoch)?;
        Ok(GatedDb {
            db,
            digester: PhantomData,
        })
    }
}
