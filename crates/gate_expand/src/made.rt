//! What was made so far.

ghost use Rattle.std.specs.Prelude.{◌≡◌, ◌+◌, ◌≤◌, [], All};
ghost use Rattle.circuit_core.specs.Circuit.{nodes_in, all_nodes};
ghost use Rattle.circuit_core.specs.Op.{HasSmallAngles, angles_of};
ghost use Rattle.gate_names.specs.Causes.{Gives, Leaves};
ghost use Rattle.gate_expand.specs.Angles.{IsSmall};
ghost use Rattle.gate_expand.specs.Making.{counted, with_op};
ghost use Rattle.gate_expand.specs.Nodes.{nodes_fit};

use circuit_core::{Angle, Op};
use gate_names::{Cause, Counted};
use std::alloc::Global;
use std::marker::Model;

/// How many applications may be reached.
const MAX_APPLICATIONS: u64 = 100_000;

/// How many operations a circuit may have.
const MAX_OPS: usize = 10_000;

/// How many nodes all angles of a circuit may have.
const MAX_NODES: u64 = 1_000_000;

/// The operations so far, how many applications were reached, and how many nodes the angles have.
#[derive(Drop)]
pub struct Made {
    ops: Vec<Op>,
    applications: u64,
    nodes: u64,
}

impl Model for Made {
    ghost use Rattle.std.specs.Prelude.{◌≡◌, ◌≤◌};
    ghost use Rattle.circuit_core.specs.Circuit.{all_nodes};
    ghost use Rattle.circuit_core.specs.contracts.angle.Angle as angle;
    ghost use Rattle.gate_expand.specs.Making.{MadeValue};
    ghost use Rattle.std.specs.Coded.{codes};

    ghost Value = { MadeValue };

    ghost coded = { Prim.hlevel (codes, angle.the_row.coded) };

    ghost view = { λ m. record { ops = m.ops.items; applications = m.applications } };

    ghost invariant = { λ m. (m.nodes ≡ all_nodes m.ops.items) × (m.nodes ≤ 1000000) };
}

/// So many nodes and those of the angles, if they are not too many.
fn add_nodes(nodes: u64, angles: &[Angle]) -> Result<u64, Cause>
    requires few { nodes ≤ 1000000 }
    requires small { All IsSmall angles.now }
    ensures { Gives (λ n. n) result (nodes_fit (nodes + nodes_in angles.now)) }
{
    let mut nodes = nodes;
    for angle in angles {
        nodes += u64::from(angle.nodes());
        if nodes > MAX_NODES {
            return Err(Cause::TooMany(Counted::Nodes));
        }
    }
    Ok(nodes)
}

/// So many nodes and those of the operation, if they are not too many.
fn add_nodes_of(nodes: u64, op: &Op) -> Result<u64, Cause>
    requires few { nodes ≤ 1000000 }
    requires small { HasSmallAngles op.now }
    ensures { Gives (λ n. n) result (nodes_fit (nodes + nodes_in (angles_of op.now))) }
{
    match op {
        Op::U {
            theta,
            phi,
            lambda,
            ..
        } => {
            let more = u64::from(theta.nodes())
                + u64::from(phi.nodes())
                + u64::from(lambda.nodes());
            if nodes + more > MAX_NODES {
                return Err(Cause::TooMany(Counted::Nodes));
            }
            Ok(nodes + more)
        }
        Op::Opaque { params, .. } => add_nodes(nodes, params.items()),
        _ => Ok(nodes),
    }
}

impl Made {
    /// Nothing is made.
    pub fn new(alloc: Global) -> Made
        ensures { result ≡ record { ops = []; applications = 0 } }
    {
        Made {
            ops: Vec::new(alloc),
            applications: 0,
            nodes: 0,
        }
    }

    /// Counts an application.
    pub fn count(&mut self) -> Result<(), Cause>
        ensures { Leaves result self.new (counted self.old) }
    {
        if self.applications >= MAX_APPLICATIONS {
            return Err(Cause::TooMany(Counted::Applications));
        }
        self.applications += 1;
        Ok(())
    }

    /// Adds an operation.
    #[tactic(auto, using(crate::proofs::Sums::nodes_more))]
    pub fn push(&mut self, op: Op) -> Result<(), Cause>
        requires { HasSmallAngles op }
        ensures { Leaves result self.new (with_op op self.old) }
    {
        if self.ops.len() >= MAX_OPS {
            return Err(Cause::TooMany(Counted::Ops));
        }
        let nodes = add_nodes_of(self.nodes, &op)?;
        self.ops.push(op)?;
        self.nodes = nodes;
        Ok(())
    }

    /// The operations.
    pub fn into_ops(self) -> Vec<Op>
        ensures { result.items ≡ self.ops }
    {
        let Made { ops, .. } = self;
        ops
    }
}
