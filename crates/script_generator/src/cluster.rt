//! The cluster of a generated script.

ghost use Rattle.std.specs.Prelude.{◌≡◌, ◌<◌, ◌^◌, ℕ};
ghost use Rattle.script_generator.specs.Clusters.{IsWithin, first_cluster, of_node, reborn, with_node};

/// A number for each of the nodes 1 to 3.
#[derive(Clone, Copy, Debug)]
pub(crate) struct ByNode {
    pub(crate) first: u64,
    pub(crate) second: u64,
    pub(crate) third: u64,
}

impl ByNode {
    pub(crate) fn of_node(&self, node: u64) -> u64
        ensures { result ≡ of_node node self.now }
    {
        match node {
            1 => self.first,
            2 => self.second,
            _ => self.third,
        }
    }

    fn set(&mut self, node: u64, number: u64)
        ensures { self.new ≡ with_node node number self.old }
    {
        match node {
            1 => self.first = number,
            2 => self.second = number,
            _ => self.third = number,
        }
    }
}

/// The nodes 1 to 3: the connection and the incarnation of each, the last view, and the greatest connection.
#[derive(Clone, Copy, Debug)]
pub(crate) struct Cluster {
    pub(crate) conns: ByNode,
    pub(crate) incs: ByNode,
    pub(crate) view: u64,
    pub(crate) greatest: u64,
}

impl Cluster {
    pub(crate) fn first() -> Cluster
        ensures { result ≡ first_cluster }
    {
        Cluster {
            conns: ByNode {
                first: 1,
                second: 2,
                third: 3,
            },
            incs: ByNode {
                first: 1,
                second: 1,
                third: 1,
            },
            view: 1,
            greatest: 3,
        }
    }

    /// A node starts again, in the next view and with the next connection.
    #[tactic(auto, unfolding(crate::specs::Clusters::reborn))]
    pub(crate) fn rebear(&mut self, node: u64)
        requires room { (most : ℕ) × IsWithin most self.old × (most < 2 ^ 63) }
        ensures { self.new ≡ reborn node self.old }
    {
        let inc = self.incs.of_node(node) + 1;
        self.incs.set(node, inc);
        self.view += 1;
        self.greatest += 1;
        self.conns.set(node, self.greatest);
    }
}
