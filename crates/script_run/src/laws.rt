//! The law of scripts that are read: a function that does nothing, to be called where a proof needs it.

ghost use Rattle.script_run.specs.Laws.{ReadsOrdered, ReadsSound};

/// Every script that is read is sound, and has an order where one was asked for.
pub fn law_of_read_scripts()
    ensures sound { ReadsSound }
    ensures ordered { ReadsOrdered }
{}
