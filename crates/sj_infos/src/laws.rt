// What small bodies ask for.
ghost use Rattle.sj_infos.specs.Rows.{BodiesAsk};

/// What each of some small bodies asks for, worked out.
pub fn worked_bodies()
    ensures { BodiesAsk }
{}
