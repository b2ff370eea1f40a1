// The steps over links.
ghost use Rattle.std.specs.Prelude.{◌≡◌, ◌-◌, ◌<◌, ◌^◌, [], Some, None, IfOk, OnOk, OnErr, length};
ghost use Rattle.std.specs.Prelude.{slice_get};
ghost use Rattle.net_core.specs.Laws.{IsLedFrom};
ghost use Rattle.lossy_link.specs.declared.step.Step.TheVariants as step;
ghost use Rattle.lossy_link.specs.Lines.{all_sent, line_of};
ghost use Rattle.lossy_link.specs.Over.{StepsTo, IsEnabled};
ghost use Rattle.lossy_link.specs.Standing.{LinksLead, ReceiptFalls, net_of_links};
ghost use Rattle.lossy_link.specs.Whole.{links_of, IsWhole, HasStarted};
ghost use Rattle.lossy_link.specs.Links.{IsTrueOf};
ghost use Rattle.lossy_link.specs.inside.Parted.{Comes, ComesIn, IsReceived};

use crate::frame::Frame;
use crate::lines::Lines;
use crate::parts::Parts;
use crate::step::Step;
use crate::wire::Wire;
use chem_model::{Event, Memory, Text};
use net_core::{Choice, FlightFroms, Net};
use std::alloc::Global;

// Packets get the next numbers of their pairs, in order.
fn leave_all(alloc: Global, lines: &mut Lines, packets: FlightFroms) -> Result<(), Memory>
    ensures sent { OnOk result (lines.new ≡ all_sent packets lines.old) }
    ensures left { OnErr result (packets ≡ [] → ⊥) }
{
    let mut left = packets;
    while let Some(packet) = left.next() {
        let flight = packet.flight;
        lines.leave(alloc, packet.from, flight.target, flight.bytes)?;
    }
    Ok(())
}

// The packets of a network get the first numbers of their pairs.
pub(crate) fn start(alloc: Global, net: Net) -> Result<Parts, Memory>
    ensures started { IfOk result (λ parts. HasStarted net (links_of parts)) }
    ensures whole { IfOk result (λ parts. IsWhole (links_of parts)) }
    ensures leads { IfOk result (λ parts.
        IsLedFrom net.net None (net_of_links (links_of parts)) net.code) }
    ensures left { OnErr result (net.net.packets ≡ [] → ⊥) }
{
    let mut net = net;
    net.code_is_kept();
    net.stands_for_some();
    let packets = net.drain(alloc);
    let mut lines = Lines::new(alloc);
    leave_all(alloc, &mut lines, packets)?;
    let wire = Wire::new(alloc);
    Ok(Parts { net, wire, lines })
}

// The network makes a choice.
pub(crate) fn act(alloc: Global, parts: &mut Parts, choice: &Choice) -> Result<Event, Memory>
    requires whole { IsWhole (links_of parts.old) }
    requires enabled { IsEnabled (links_of parts.old) (step.Act choice.now) }
    requires few { parts.old.net.events < 2 ^ 32 - 1 }
    ensures steps { IfOk result (λ e.
        StepsTo (links_of parts.old) (step.Act choice.now) (Some e) (links_of parts.new)) }
    ensures whole { OnOk result (IsWhole (links_of parts.new)) }
    ensures leads { IfOk result (λ e.
        LinksLead (links_of parts.old) (Some e) (links_of parts.new)) }
{
    match parts.net.act(alloc, choice)? {
        Some(event) => {
            let packets = parts.net.drain(alloc);
            leave_all(alloc, &mut parts.lines, packets)?;
            Ok(event)
        }
        None => unreachable!(),
    }
}

// A packet is put on the wire.
pub(crate) fn send(
    alloc: Global,
    parts: &mut Parts,
    from: u32,
    into: u32,
    number: u64,
) -> Result<(), Memory>
    requires whole { IsWhole (links_of parts.old) }
    requires enabled { IsEnabled (links_of parts.old) (step.Send from into number) }
    ensures steps { OnOk result (StepsTo (links_of parts.old) (step.Send from into number) None
        (links_of parts.new)) }
    ensures whole { OnOk result (IsWhole (links_of parts.new)) }
    ensures leads { OnOk result (LinksLead (links_of parts.old) None (links_of parts.new)) }
{
    let Some(found) = parts.lines.open_at(from, into, number) else {
        unreachable!();
    };
    let bytes = found.copy(alloc)?;
    let frame = Frame::Data {
        from,
        into,
        number,
        bytes,
    };
    parts.wire.put(alloc, &frame)
}

// A frame is lost.
pub(crate) fn lose(parts: &mut Parts, frame: u32)
    requires whole { IsWhole (links_of parts.old) }
    requires enabled { IsEnabled (links_of parts.old) (step.Lose frame) }
    ensures steps { StepsTo (links_of parts.old) (step.Lose frame) None (links_of parts.new) }
    ensures whole { IsWhole (links_of parts.new) }
    ensures leads { LinksLead (links_of parts.old) None (links_of parts.new) }
{
    parts.wire.lose(frame);
}

// A frame is repeated.
pub(crate) fn repeat(alloc: Global, parts: &mut Parts, frame: u32) -> Result<(), Memory>
    requires whole { IsWhole (links_of parts.old) }
    requires enabled { IsEnabled (links_of parts.old) (step.Repeat frame) }
    ensures steps { OnOk result (StepsTo (links_of parts.old) (step.Repeat frame) None
        (links_of parts.new)) }
    ensures whole { OnOk result (IsWhole (links_of parts.new)) }
    ensures leads { OnOk result (LinksLead (links_of parts.old) None (links_of parts.new)) }
{
    parts.wire.repeat(alloc, frame)
}

// The next packet of a pair is received. What goes on gets the next numbers of its own pairs.
fn receive(
    alloc: Global,
    parts: &mut Parts,
    from: u32,
    into: u32,
    bytes: Text,
) -> Result<(), Memory>
    requires whole { IsWhole (links_of parts.old) }
    requires next { slice_get (line_of from into parts.old.lines).history.sent
        (length (line_of from into parts.old.lines).history.handed) ≡ Some bytes }
    ensures { OnOk result (IsReceived from into bytes (links_of parts.old) (links_of parts.new)) }
{
    parts.net.receive(alloc, into, bytes.as_slice())?;
    let packets = parts.net.drain(alloc);
    parts.lines.hand(from, into, bytes)?;
    leave_all(alloc, &mut parts.lines, packets)
}

// A packet that was taken off the wire: where it has the receiver's next number it is received; an
// acknowledgement goes back.
fn take_in(
    alloc: Global,
    parts: &mut Parts,
    from: u32,
    into: u32,
    number: u64,
    bytes: Text,
) -> Result<(), Memory>
    requires whole { IsWhole (links_of parts.old) }
    requires there { slice_get (line_of from into parts.old.lines).history.sent number
        ≡ Some bytes }
    ensures { OnOk result (ComesIn from into number bytes (links_of parts.old)
        (links_of parts.new)) }
{
    let next = parts.lines.next_number(from, into);
    if number != next {
        let ack = Frame::Ack {
            from,
            into,
            number: next,
        };
        return parts.wire.put(alloc, &ack);
    }
    receive(alloc, parts, from, into, bytes)?;
    let ack = Frame::Ack {
        from,
        into,
        number: next + 1,
    };
    parts.wire.put(alloc, &ack)
}

// What becomes of a frame that was taken off the wire.
fn come(alloc: Global, parts: &mut Parts, frame: Frame) -> Result<(), Memory>
    requires whole { IsWhole (links_of parts.old) }
    requires says { IsTrueOf parts.old.lines frame }
    ensures { OnOk result (Comes frame (links_of parts.old) (links_of parts.new)) }
{
    match frame {
        Frame::Data {
            from,
            into,
            number,
            bytes,
        } => take_in(alloc, parts, from, into, number, bytes),
        Frame::Ack { from, into, number } => {
            parts.lines.acknowledge(from, into, number);
            Ok(())
        }
    }
}

// A frame arrives.
pub(crate) fn arrive(alloc: Global, parts: &mut Parts, frame: u32) -> Result<(), Memory>
    requires whole { IsWhole (links_of parts.old) }
    requires enabled { IsEnabled (links_of parts.old) (step.Arrive frame) }
    ensures steps { OnOk result (StepsTo (links_of parts.old) (step.Arrive frame) None
        (links_of parts.new)) }
    ensures whole { OnOk result (IsWhole (links_of parts.new)) }
    ensures leads { OnOk result (LinksLead (links_of parts.old) None (links_of parts.new)) }
    ensures falls { OnOk result (ReceiptFalls (links_of parts.old) frame (links_of parts.new)) }
{
    let taken = parts.wire.take(alloc, frame)?;
    come(alloc, parts, taken)
}

// Makes an enabled step.
pub(crate) fn make(alloc: Global, parts: &mut Parts, step: &Step) -> Result<Option<Event>, Memory>
    requires whole { IsWhole (links_of parts.old) }
    requires enabled { IsEnabled (links_of parts.old) step.now }
    requires few { parts.old.net.events < 2 ^ 32 - 1 }
    ensures steps { IfOk result (λ o.
        StepsTo (links_of parts.old) step.now o (links_of parts.new)) }
    ensures whole { OnOk result (IsWhole (links_of parts.new)) }
{
    match step {
        Step::Act(choice) => {
            let event = act(alloc, parts, choice)?;
            Ok(Some(event))
        }
        Step::Send { from, into, number } => {
            send(alloc, parts, *from, *into, *number)?;
            Ok(None)
        }
        Step::Lose { frame } => {
            lose(parts, *frame);
            Ok(None)
        }
        Step::Repeat { frame } => {
            repeat(alloc, parts, *frame)?;
            Ok(None)
        }
        Step::Arrive { frame } => {
            arrive(alloc, parts, *frame)?;
            Ok(None)
        }
    }
}
