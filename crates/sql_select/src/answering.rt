//! A SELECT on a database in chunks.

ghost use Rattle.schema_model.specs.PlainTables.{PlainDatabase};
ghost use Rattle.chunk_store.specs.Drafts.{chunks_of};
ghost use Rattle.table_root.specs.Standing.{CanRead, IsReadAt};
ghost use Rattle.plain_sql.specs.Plans.{answer};
ghost use Rattle.sql_select.specs.Gives.{Answers};
ghost use Rattle.sql_select.specs.Sources.{known};

use crate::faults::AskFault;
use crate::laws::law_of_reading;
use crate::reading::known_read;
use crate::sources::Sources;
use chunk_store::Draft;
use plain_sql::answer as plain_answer;
use sql_ast::Select;
use std::alloc::Global;
use tuple_codec::{Answer, Digester};

/// What a SELECT shows of a database and of system tables, or its first refusal. The tables that it names are read once each, whole, or
/// where the WHERE bounds an only source's primary key or fixes an index's columns, just the rows of those keys. The draft is only read.
///
/// `@@name` and `active_branch()` have no value here: whoever knows the session puts literals in their places.
pub fn answer<D: Digester>(
    alloc: Global,
    draft: &Draft<D>,
    sources: &Sources,
    select: &Select,
) -> Result<Answer, AskFault>
    requires { CanRead D.address (chunks_of draft.now.chunks) sources.now.database.0 }
    ensures { (database : PlainDatabase) → IsReadAt D.address (chunks_of draft.now.chunks) sources.now.database.0 database
        → Answers result (answer (known database sources.now.system) select.now) }
{
    law_of_reading();
    match select {
        Select::From(query) => {
            let system = sources.system.as_slice();
            let known = known_read(alloc, draft, query, &sources.database, system)?;
            Ok(plain_answer(alloc, known.as_slice(), select)?)
        }
        Select::Alone(_) => Ok(plain_answer(alloc, &[], select)?),
    }
}
