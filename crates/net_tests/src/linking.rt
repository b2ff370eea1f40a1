// Steps over links, as far as there are few events.
ghost use Rattle.std.specs.Prelude.{◌≤◌, ◌+◌, IfSome};

use chem_model::Event;
use lossy_link::{LinkNet, Step};
use net_core::{Net, Played};
use std::alloc::Global;

// More events no network has whose links are started, and more steps no list has.
const MOST: u32 = 1_000;

/// The links of a network of few events.
pub fn link(alloc: Global, net: Net) -> Option<LinkNet>
    ensures { IfSome result (λ links. links.net.events ≤ 1000) }
{
    if net.events() > MOST {
        drop(net);
        return None;
    }
    LinkNet::start(alloc, net).ok()
}

/// Makes a step, where it is enabled.
pub fn make_step(alloc: Global, links: LinkNet, step: &Step) -> Option<(LinkNet, Option<Event>)>
    requires { links.net.events ≤ 100000 }
    ensures { IfSome result (λ r. r.0.net.events ≤ links.net.events + 1) }
{
    if !links.enabled(step) {
        drop(links);
        return None;
    }
    match links.step(alloc, step) {
        Ok(stepped) => Some(stepped),
        Err(_) => None,
    }
}

/// Plays a list of few steps.
pub fn play_few(alloc: Global, links: LinkNet, steps: &[Step]) -> Option<(LinkNet, Played)>
    requires { links.net.events ≤ 100000 }
{
    if steps.len() > MOST as usize {
        drop(links);
        return None;
    }
    links.play(alloc, steps).ok()
}
