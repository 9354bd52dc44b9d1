//! A record is added to the log.

ghost use Rattle.log_order.specs.AppendLaws.{AddMoments, AppendMoments, AppendRefines, DoubtWeakens};

/// At each moment inside `append` the record is in doubt.
pub fn append_is_in_doubt()
    ensures { AppendMoments }
{}

/// Behind `append` the record is the last one of the order.
pub fn appended_log_refines()
    ensures { AppendRefines }
{}

/// A moment at which nothing is in doubt is also one at which a record is. So it is in doubt at each moment inside a
/// checkpoint and an append behind it.
pub fn doubt_weakens()
    ensures moment { DoubtWeakens }
    ensures moments { AddMoments }
{}
