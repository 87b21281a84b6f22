//! What follows from the form of a dump, and from what stands in it.
ghost use Rattle.dump_replay.specs.Laws.{BindsAlike, BoundAlike, HasOneFault, SaysOne, SaysOrLacks};

/// A text says one dump at most, or it has one first line that isn't of the form.
pub fn dumps_are_one()
    ensures one { SaysOne }
    ensures fault { HasOneFault }
    ensures either { SaysOrLacks }
{}

/// A query is bound over the tables that its FROM names as it is over the whole catalogue.
pub fn dumps_bind_alike()
    ensures binding { BindsAlike }
    ensures bound { BoundAlike }
{}
