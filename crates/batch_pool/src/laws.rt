ghost use Rattle.batch_pool.specs.Laws.{PushesComeFirst};

/// No number is pushed once one was taken.
pub fn pushes_come_first()
    ensures { PushesComeFirst }
{}
