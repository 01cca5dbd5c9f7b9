//! Places that wait for a walk to come to them.
ghost use Rattle.std.specs.Prelude.{◌<◌, ℕ, length, Contains, IfOk, OnOk};
ghost use Rattle.hg_graph.specs.Waiting.{Widens};
ghost use Rattle.hg_instab.specs.Settling.{IsBeside, WaitFrom};

use hg_graph::{Graph, PlaceQueue};
use std::alloc::{AllocError, Global};

// Which places wait on account of one.
#[derive(Clone, Copy)]
pub(crate) enum Beside {
    Children,
    Parents,
}

// These places wait, and what stands so beside the others.
pub(crate) fn waiting_from(
    alloc: Global,
    graph: &Graph,
    places: &[usize],
    beside: Beside,
    others: &[usize],
) -> Result<PlaceQueue, AllocError>
    requires { (k : ℕ) → Contains others.now k → k < length graph.now }
    ensures { IfOk result (WaitFrom beside graph.now places.now others.now) }
{
    let mut waiting = PlaceQueue::of(alloc, places)?;
    for other in others {
        wait_beside_place(graph, *other, beside, &mut waiting)?;
    }
    Ok(waiting)
}

// What stands so beside the place waits.
pub(crate) fn wait_beside_place(
    graph: &Graph,
    place: usize,
    beside: Beside,
    waiting: &mut PlaceQueue,
) -> Result<(), AllocError>
    requires { place < length graph.now }
    ensures { OnOk result (Widens (IsBeside beside graph.now place) waiting.old waiting.new) }
{
    match beside {
        Beside::Children => waiting.insert_each(graph.children(place)),
        Beside::Parents => waiting.insert_parents(graph, place),
    }
}
