// Mail that comes to a site.
ghost use Rattle.std.specs.Prelude.{◌≡◌, [], ◌∷◌, ◌++◌, true, IfOk, OnOk, OnErr, IsTrue};
ghost use Rattle.chem_model.specs.Each.{Each};
ghost use Rattle.wire_packet.specs.MessageFacts.{MessageParts};
ghost use Rattle.wire_packet.specs.Codec.{IsSpelledBy};
ghost use Rattle.wire_packet.specs.declared.parcel.Packet.TheVariants as sent;
ghost use Rattle.site_solution.specs.InTree.{is_in_tree};
ghost use Rattle.router.specs.Delivering.{can_deliver};
ghost use Rattle.site_turn.specs.Mail.{IsMessageText, IsMessageFlight};
ghost use Rattle.site_turn.specs.Bringing.{Brings, StillActs};
ghost use Rattle.site_turn.specs.Arriving.{HasCome, Arrives, HasBegun};
ghost use Rattle.site_turn.specs.inside.Coming.{Comes, HasComeUpTo};

use chem_model::{Items, Memory, Text, Texts};
use loc_tree::LocTree;
use router::{Delivery, can_deliver, deliver};
use site_solution::Site;
use std::alloc::Global;
use wire_packet::{DecodeEnd, Flight, Flights, Msg, Packet, decode};

// The message of a packet that is one.
fn message_of(packet: Packet) -> Msg
    requires { (m : MessageParts) × (packet ≡ sent.Message m) }
    ensures { (m : MessageParts) → packet ≡ sent.Message m → result ≡ m }
{
    match packet {
        Packet::Message(msg) => msg,
        Packet::Parcel(_) => unreachable!(),
    }
}

/// The message that bytes spell.
pub fn read_text(alloc: Global, bytes: &[u8]) -> Result<Msg, Memory>
    requires { IsMessageText bytes.now }
    ensures { IfOk result (λ msg. IsSpelledBy (sent.Message msg) bytes.now) }
{
    match decode(alloc, bytes) {
        Ok(packet) => Ok(message_of(packet)),
        Err(DecodeEnd::Memory) => Err(Memory),
        Err(DecodeEnd::Bad { .. }) => unreachable!(),
    }
}

// Adds the flight with these bytes.
fn add_flight(alloc: Global, on: &mut Flights, target: u32, bytes: &[u8]) -> Result<(), Memory>
    ensures { OnOk result (on.new ≡ on.old ++ record { target = target; bytes = bytes.now } ∷ []) }
{
    let bytes = Items::from_slice(alloc, bytes)?;
    on.push(Flight { target, bytes })
}

/// Brings a message to a site: it is put at its home, where that is hosted here, or the flight with
/// its bytes to the site that hosts it goes behind the others. Where there is no memory, the site
/// stays.
pub fn bring(
    alloc: Global,
    site: &mut Site,
    tree: &LocTree,
    msg: Msg,
    bytes: &[u8],
    on: &mut Flights,
) -> Result<(), Memory>
    requires { can_deliver tree.now site.old msg ≡ true }
    ensures ok { OnOk result (Brings tree.now site.old msg bytes.now on.old site.new on.new) }
    ensures fit { OnOk result (StillActs tree.now site.old site.new) }
    ensures err { OnErr result (site.new ≡ site.old) }
{
    match deliver(site, tree, msg) {
        Ok(Delivery::Delivered) => Ok(()),
        Ok(Delivery::Forward(target, _)) => add_flight(alloc, on, target, bytes),
        Err(back) => Err(back.1),
    }
}

// Works one text off. Where there is no memory, the site stays.
fn take_text(
    alloc: Global,
    site: &mut Site,
    tree: &LocTree,
    text: &Text,
    on: &mut Flights,
) -> Result<(), Memory>
    requires { IsMessageText text.now }
    ensures ok { OnOk result (Comes tree.now site.old text.now on.old site.new on.new) }
    ensures fit { OnOk result (StillActs tree.now site.old site.new) }
    ensures err { OnErr result (site.new ≡ site.old) }
{
    let bytes = text.as_slice();
    let msg = read_text(alloc, bytes)?;
    if !can_deliver(site, tree, &msg) {
        return Ok(());
    }
    bring(alloc, site, tree, msg, bytes, on)
}

// Works texts off, in order.
fn work_off(
    alloc: Global,
    site: &mut Site,
    tree: &LocTree,
    mail: &[Text],
) -> Result<Flights, Memory>
    requires { Each IsMessageText mail.now }
    ensures ok { IfOk result (HasCome tree.now site.old mail.now site.new) }
    ensures fit { OnOk result (StillActs tree.now site.old site.new) }
    ensures err { OnErr result (HasComeUpTo tree.now site.old mail.now site.new) }
{
    let mut on = Items::new(alloc);
    for text in mail {
        take_text(alloc, site, tree, text, &mut on)?;
    }
    Ok(on)
}

// Whether what the site holds and names is all in the tree, which may be known.
fn is_there(site: &Site, tree: &LocTree, known: bool) -> bool
    requires { IsTrue known → IsTrue (is_in_tree tree.now site.now) }
    ensures { result ≡ is_in_tree tree.now site.now }
{
    known || site.in_tree(tree)
}

// Works mail off, in order, as `arrive` does. That all which the site holds and names is in the tree
// may be known, and then isn't looked at. A site that had what the calls over it need has it still.
pub(crate) fn arrive_known(
    alloc: Global,
    site: &mut Site,
    tree: &LocTree,
    mail: &Texts,
    known: bool,
) -> Result<Flights, Memory>
    requires text { Each IsMessageText mail.now }
    requires known { IsTrue known → IsTrue (is_in_tree tree.now site.old) }
    ensures arrives { IfOk result (Arrives tree.now site.old mail.now site.new) }
    ensures fit { OnOk result (StillActs tree.now site.old site.new) }
    ensures spelled { IfOk result (Each IsMessageFlight) }
    ensures err { OnErr result (HasBegun tree.now site.old mail.now site.new) }
{
    if mail.is_empty() || !is_there(site, tree, known) {
        return Ok(Items::new(alloc));
    }
    work_off(alloc, site, tree, mail.as_slice())
}

/// Works mail off, in order. A message that may be delivered at its turn is put at its home, where
/// that is hosted here, and else goes on to the site that hosts it: these flights are the answer.
/// All other messages are dropped, and where what the site holds and names isn't all in the tree
/// all are. Where there is no memory, the mail was worked off up to one of its texts.
pub fn arrive(
    alloc: Global,
    site: &mut Site,
    tree: &LocTree,
    mail: &Texts,
) -> Result<Flights, Memory>
    requires { Each IsMessageText mail.now }
    ensures arrives { IfOk result (Arrives tree.now site.old mail.now site.new) }
    ensures spelled { IfOk result (Each IsMessageFlight) }
    ensures err { OnErr result (HasBegun tree.now site.old mail.now site.new) }
{
    arrive_known(alloc, site, tree, mail, false)
}
