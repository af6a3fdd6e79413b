//! Laws of the definitions. The functions do nothing: each contract is a law.

ghost use Rattle.recover.specs.Laws.{HistoriesAreDetermined, DamagesAreDetermined, LawfulAreNotDamaged, OpenAreLawfulOrDamaged, DamagedAreOpen, SurvivorsAreOpened};

/// Bytes stand for at most one history, as far as they say it: they do not hold the passes of its events.
pub fn histories_are_determined()
    ensures { HistoriesAreDetermined }
{}

/// An area has at most one first damage, and is open if it has one.
pub fn damages_are_determined()
    ensures one { DamagesAreDetermined }
    ensures is_open { DamagedAreOpen }
{}

/// An area that stands for a lawful history is not damaged. So a store is opened exactly on such areas.
pub fn lawful_areas_are_not_damaged()
    ensures { LawfulAreNotDamaged }
{}

/// No open area neither stands for a lawful history nor is damaged. With the laws above it is one of both, and if it is
/// damaged, it has one first damage.
pub fn open_areas_are_lawful_or_damaged()
    ensures { OpenAreLawfulOrDamaged }
{}

/// What a crash leaves of a store that is ready is opened again: the newest area is not damaged, and its history
/// resumes the events that are left, with its closed gate. So the store that is opened has that history, and is ready.
pub fn what_survives_is_opened()
    ensures { SurvivorsAreOpened }
{}
