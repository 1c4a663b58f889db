//! Which table of turns a type's tokens belong to, said by a type parameter.
use std::marker::Brand;

/// Which table of turns the tokens of a type are of, where a type has to say it: a queue that is
/// called under a lock, and what it takes and gives, name their table by one type parameter of
/// this trait. It has no code and no value; who makes the queue picks the name.
pub trait TableName {
    ghost use Rattle.atomic_table.specs.Seated.{TableId};

    ghost table: { TableId };
}

impl TableName for Brand {
    ghost use Rattle.std.specs.Prelude.{[]};

    ghost table = { record { words = 0; slots = 0; views_name = 0; atom = 0; block = 0; offset = 0; slot_names = [] } };
}
