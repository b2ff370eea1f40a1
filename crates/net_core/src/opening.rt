// The opening of a network.
ghost use Rattle.std.specs.Prelude.{◌≡◌, ◌<◌, ◌^◌, length, IfOk, OnOk};
ghost use Rattle.chem_model.specs.Opening.{opening};
ghost use Rattle.env_store.specs.Reading.{IsCodeOf};
ghost use Rattle.env_store.specs.Laws.{rules_of_group};
ghost use Rattle.net_laws.specs.Net.{Stands};
ghost use Rattle.net_laws.specs.Opened.{opened_net, RunsCode};
ghost use Rattle.net_core.specs.Senders.{opened_froms};
ghost use Rattle.net_core.specs.inside.Starting.{HandsOut, HandsAllOut};

use crate::net::Net;
use crate::parts::Parts;
use crate::pieces::add_piece;
use crate::senders::{Run, push_run};
use crate::slots::send;
use chem_model::{Memory, Program};
use env_store::Code;
use site_solution::Effects;
use site_turn::open_sites;
use std::alloc::Global;
use std::collections::VecDeque;

// Hands out what the opening of the site with this number leaves: its observables and its packets.
fn hand_out(
    parts: &mut Parts,
    senders: &mut VecDeque<Run>,
    effects: Effects,
    number: u32,
) -> Result<(), Memory>
    ensures { OnOk result
        (HandsOut number effects parts.old senders.old.items parts.new senders.new.items) }
{
    push_run(senders, number, effects.sends.len() as u32)?;
    parts.trace.reserve(1)?;
    add_piece(&mut parts.trace, effects.outs);
    send(&mut parts.flights, &mut parts.under_way, effects.sends)
}

// Hands out what the openings of all sites leave, in order.
fn hand_all_out(
    parts: &mut Parts,
    senders: &mut VecDeque<Run>,
    handed: &mut VecDeque<Effects>,
) -> Result<(), Memory>
    requires { length handed.old.items < 2 ^ 32 }
    ensures { OnOk result (HandsAllOut 0 handed.old.items parts.old senders.old.items parts.new
        senders.new.items) }
{
    for number in 0..handed.len() as u32 {
        let Some(effects) = handed.pop_front() else {
            unreachable!()
        };
        hand_out(parts, senders, effects, number)?;
    }
    Ok(())
}

impl Net {
    /// The network of a program's code before any event: each site is opened, in order, and the
    /// packets under way are what the openings send, each from the site that sends it. Its version
    /// is the program's, and it stands for the program's opening.
    pub fn start(alloc: Global, program: &Program, code: &Code) -> Result<Net, Memory>
        requires { IsCodeOf program.now code.now }
        ensures opened { IfOk result (λ net. net.net ≡ opened_net program.now.version code.now) }
        ensures code { IfOk result (λ net. net.code ≡ code.now) }
        ensures froms { IfOk result (λ net.
            net.froms ≡ opened_froms program.now.version code.now) }
        ensures events { IfOk result (λ net. net.events ≡ 0) }
        ensures stands { IfOk result (λ net.
            Stands (rules_of_group program.now) net.net (opening program.now)) }
        ensures runs { IfOk result (λ net. RunsCode program.now net.code net.net) }
    {
        let _tops = &program.tops;
        let _known = &code.tops;
        let mut opened = open_sites(alloc, code)?;
        let mut senders = VecDeque::new(alloc);
        let mut parts = Parts {
            version: program.version,
            sites: opened.sites,
            tree: opened.tree,
            trace: Vec::new(alloc),
            flights: VecDeque::new(alloc),
            under_way: 0,
        };
        hand_all_out(&mut parts, &mut senders, &mut opened.handed)?;
        let code = code.copy(alloc)?;
        Ok(Net {
            code,
            parts,
            senders,
            events: 0,
            asked: Vec::new(alloc),
            acted: false,
            idle: Vec::new(alloc),
        })
    }
}
