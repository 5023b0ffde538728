//! Publications stay.

ghost use Rattle.laws_shown.specs.Growth.{PublicationsGoOn, PublicationsStay};

/// No command changes or removes a publication.
pub fn publications_go_on()
    ensures { PublicationsGoOn }
{}

/// No list of commands does.
pub fn publications_stay()
    ensures { PublicationsStay }
{}
