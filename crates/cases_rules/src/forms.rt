//! Which commands keep their form.

ghost use Rattle.cases_rules.specs.FormCases.{AllWellFormed, NoneWellFormed};

/// The commands of the other cases keep their form.
pub fn cases_keep_form()
    ensures { AllWellFormed }
{}

/// Lists out of order, ids of the program's own making, empty lists and instants out of range do not.
pub fn bad_forms()
    ensures { NoneWellFormed }
{}
