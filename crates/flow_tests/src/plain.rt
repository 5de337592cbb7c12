//! A slow reference solver: successive shortest paths, one unit at a time, each path found by going over all arcs until
//! no label falls (Bellman 1958).
use min_cost_flow::{Arc, Cap, Network};
use std::alloc::Global;
use std::process::Abort;

/// The label of a node that no path reaches.
const FAR: i64 = 1 << 40;

/// The last arc of a path to a node, and whether it is taken backwards.
#[derive(Clone, Copy, Debug, PartialEq, Eq)]
struct Step {
    arc: usize,
    back: bool,
}

/// A flow in progress: what each arc carries, and the remaining surplus or demand of each node.
#[derive(Drop)]
struct Sending {
    arcs: Vec<Arc>,
    carried: Vec<u32>,
    excess: Vec<i32>,
}

/// The least cost of a flow, or `None` if there is no flow.
pub(crate) fn least_cost(rt: &impl Abort, alloc: Global, network: &Network) -> Option<u64> {
    let mut sending = begin(rt, alloc, network);
    for _ in 0..100_000 {
        let Some(root) = sending.excess.iter().position(|units| *units > 0) else {
            break;
        };
        if !send_from(rt, alloc, &mut sending, root) {
            return None;
        }
    }
    if sending.excess.iter().any(|units| *units != 0) {
        return None;
    }
    Some(cost_of(&sending))
}

/// The cost of the units that the arcs carry.
fn cost_of(sending: &Sending) -> u64 {
    let mut total = 0u64;
    for (arc, units) in sending.arcs.iter().zip(&sending.carried) {
        total = total.saturating_add(u64::from(arc.cost).saturating_mul(u64::from(*units)));
    }
    total
}

/// Sends one unit from a node to one with demand; returns whether there is a path.
fn send_from(rt: &impl Abort, alloc: Global, sending: &mut Sending, root: usize) -> bool {
    let labels = labels_from(rt, alloc, sending, root);
    let Some(target) = nearest(sending, &labels) else {
        return false;
    };
    let path = path_to(rt, alloc, sending, &labels, root, target);
    send(sending, &path, root, target);
    true
}

/// The state before any unit is sent.
fn begin(rt: &impl Abort, alloc: Global, network: &Network) -> Sending {
    let mut arcs = Vec::new(alloc);
    for i in 0..network.arc_count() {
        arcs.push(network.arcs()[i]).expect(rt, "memory");
    }
    Sending {
        arcs,
        carried: vec![in alloc; 0; network.arc_count()].expect(rt, "memory"),
        excess: network.supplies().to_vec(alloc).expect(rt, "memory"),
    }
}

/// Both ends of a step and its cost, if one more unit can go along it.
fn open_step(sending: &Sending, step: Step) -> Option<(usize, usize, i64)> {
    let arc = sending.arcs.get(step.arc)?;
    let carried = *sending.carried.get(step.arc)?;
    let (from, to) = (arc.from as usize, arc.to as usize);
    if step.back {
        return (carried > 0).then_some((to, from, -i64::from(arc.cost)));
    }
    let open = match arc.cap {
        Cap::AtMost(limit) => carried < limit,
        Cap::Any => true,
    };
    open.then_some((from, to, i64::from(arc.cost)))
}

/// The least cost of a path from a node to each, and its last step.
fn labels_from(
    rt: &impl Abort,
    alloc: Global,
    sending: &Sending,
    root: usize,
) -> Vec<(i64, Option<Step>)> {
    let mut labels = vec![in alloc; (FAR, None); sending.excess.len()].expect(rt, "memory");
    if let Some(label) = labels.get_mut(root) {
        *label = (0, None);
    }
    for _ in 0..sending.excess.len() {
        for arc in 0..sending.arcs.len() {
            relax(sending, &mut labels, Step { arc, back: false });
            relax(sending, &mut labels, Step { arc, back: true });
        }
    }
    labels
}

/// Lowers the label of a step's end, if the path along it costs less.
fn relax(sending: &Sending, labels: &mut [(i64, Option<Step>)], step: Step) {
    let Some((from, to, cost)) = open_step(sending, step) else {
        return;
    };
    let Some((start, _)) = labels.get(from).copied() else {
        return;
    };
    let offered = start.saturating_add(cost);
    if let Some(label) = labels.get_mut(to)
        && start < FAR
        && offered < label.0
    {
        *label = (offered, Some(step));
    }
}

/// The node at the end of a path of least cost among those with demand.
fn nearest(sending: &Sending, labels: &[(i64, Option<Step>)]) -> Option<usize> {
    let mut best = None;
    let mut least = FAR;
    for (node, (units, label)) in sending.excess.iter().zip(labels).enumerate() {
        if *units < 0 && label.0 < least {
            best = Some(node);
            least = label.0;
        }
    }
    best
}

/// The steps of the path to a node, last to first.
fn path_to(
    rt: &impl Abort,
    alloc: Global,
    sending: &Sending,
    labels: &[(i64, Option<Step>)],
    root: usize,
    target: usize,
) -> Vec<Step> {
    let mut path = Vec::new(alloc);
    let mut node = target;
    for _ in 0..labels.len() {
        if node == root {
            break;
        }
        let Some((_, Some(step))) = labels.get(node).copied() else {
            break;
        };
        let Some((from, _, _)) = open_step(sending, step) else {
            break;
        };
        path.push(step).expect(rt, "memory");
        node = from;
    }
    path
}

/// Sends one unit along a path.
fn send(sending: &mut Sending, path: &[Step], root: usize, target: usize) {
    for step in path {
        if let Some(carried) = sending.carried.get_mut(step.arc) {
            *carried = if step.back {
                carried.saturating_sub(1)
            } else {
                carried.saturating_add(1)
            };
        }
    }
    if let Some(units) = sending.excess.get_mut(root) {
        *units = units.saturating_sub(1);
    }
    if let Some(units) = sending.excess.get_mut(target) {
        *units = units.saturating_add(1);
    }
}
