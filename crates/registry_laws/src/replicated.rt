use cluster_laws::Replicated;

/// The registry, as what is replicated.
pub struct ReplicatedRegistry;

impl Replicated for ReplicatedRegistry {
    ghost use Rattle.registry_machine.specs.Machine.{registry_machine};
    ghost use Rattle.registry_machine.proofs.Instance.{is_machine};

    ghost machine = { registry_machine };

    ghost lawful = { is_machine };
}
