use clusapi_stubs::Out;

/// What a call comes to.
#[derive(Debug, Drop)]
pub enum Effect {
    /// Its results.
    Results(Out),
    /// It isn't executed, for the reason that the status tells.
    Fault(u32),
}
