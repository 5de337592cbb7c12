//! A flow that is kept while supplies move.
ghost use Rattle.std.specs.Prelude.{◌≡◌, ◌<◌, ◌≤◌, ◌≤ℤ◌, pos, negsuc, true, IfSome};
ghost use Rattle.min_cost_flow.specs.Networks.{node_count, supply_at};

use crate::flows::{FREE_WAY, cost_of, network};
use min_cost_flow::{Network, WarmStart};
use test_tools::same;

/// Whether one supply may grow by 40 and another may fall by as much.
fn is_within(more: i32, less: i32) -> bool
    ensures more { result ≡ true → more ≤ℤ pos 2000 }
    ensures less { result ≡ true → negsuc 1999 ≤ℤ less }
{
    more <= 2000 && less >= -2000
}

/// The supply of a node.
fn supply(network: &Network, node: u32) -> i32
    requires { node < node_count network.now }
    ensures { result ≡ supply_at network.now node }
{
    network.supplies()[node as usize]
}

/// Lets one node supply more and another less in a kept flow and in a network that is the same, unless their supplies
/// are too great already.
fn moved(
    warm_start: WarmStart,
    twin: &mut Network,
    from: u32,
    to: u32,
    amount: u32,
) -> Option<WarmStart>
    requires same { warm_start ≡ twin.old }
    requires from { from < node_count twin.old }
    requires to { to < node_count twin.old }
    requires few { amount ≤ 40 }
    ensures { IfSome result (λ s. s ≡ twin.new) }
{
    // Only the proof needs this: `node_count` says that the network is one.
    let _nodes = twin.node_count();
    let more = supply(twin, from);
    let less = supply(twin, to);
    if !is_within(more, less) {
        return Some(warm_start);
    }
    twin.shift(from, to, amount);
    warm_start.shift(from, to, amount)
}

/// Moved supplies have the least cost of the moved network, or no flow.
/// At first a unit takes the expensive arc. Then the first node supplies one unit less, so that none has to. In the end
/// the second node demands two units, and the one arc to it carries only one.
#[test]
fn moved_supplies_have_their_costs(rt: HostRuntime) {
    let twin = network(&rt, rt.alloc(), &[2, 0, -2], &FREE_WAY);
    let mut twin = twin.expect(&rt, "a network");
    assert!(rt; twin.node_count() == 3);
    let warm_start = WarmStart::new(rt.alloc(), &twin).expect(&rt, "a flow");
    let dear = warm_start.least_cost().0;
    let warm_start = moved(warm_start, &mut twin, 1, 0, 1).expect(&rt, "a flow");
    let free = warm_start.least_cost().0;
    let solved = warm_start.solved(rt.alloc()).expect(&rt, "memory");
    let read_off = cost_of(warm_start.network(), &solved);
    same!(&rt, (dear, free, read_off), (1, 0, 0));
    assert!(rt; twin.node_count() == 3);
    assert!(rt; moved(warm_start, &mut twin, 0, 1, 3).is_none());
}
