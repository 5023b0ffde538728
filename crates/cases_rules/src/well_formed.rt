//! The commands of the cases on publishing, streams and supervisors.

ghost use Rattle.cases_rules.specs.WellFormedCases.{SetUpsKeepForm};

/// They keep their form.
pub fn set_ups_keep_form()
    ensures { SetUpsKeepForm }
{}
