//! That a SELECT needs no table but those that it names.

ghost use Rattle.sql_select.specs.Sources.{ReadsSuffice};

/// What a SELECT shows is what it shows of the tables that it names alone.
pub fn law_of_reading()
    ensures { ReadsSuffice }
{}
