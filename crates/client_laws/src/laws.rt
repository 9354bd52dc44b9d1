ghost use Rattle.client_laws.specs.Laws.{BatchesTyped, BeginTyped, ConnectsTyped, FinishesTyped, HangsUpTyped, HearsTyped, ResumesTyped};

/// What a client queues is an update, and handles stand on paths with creation numbers of 64 bits: so a node begins, and
/// so each event of its clients leaves it.
pub fn clients_stay_typed()
    ensures begin { BeginTyped }
    ensures hears { HearsTyped }
    ensures resumes { ResumesTyped }
    ensures finishes { FinishesTyped }
    ensures connects { ConnectsTyped }
    ensures hangs_up { HangsUpTyped }
    ensures batches { BatchesTyped }
{}
