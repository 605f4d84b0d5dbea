//! Facts about the definitions, as contracts of functions that do nothing.

ghost use Rattle.guest_model.specs.Rows.{WordRows, ValueRows};

/// Words with the instructions that the table gives them.
pub fn word_rows()
    ensures { WordRows }
{}

/// Values of the M extension and of shifts at their edges.
pub fn value_rows()
    ensures { ValueRows }
{}
