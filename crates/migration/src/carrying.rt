// Moves from one site to another.
ghost use Rattle.std.specs.Prelude.{◌≡◌, List, [], true, Some, IfOk, OnOk, OnErr, IsSome};
ghost use Rattle.chem_model.specs.declared.numbered.NumberedRule.{NumberedRule};
ghost use Rattle.wire_packet.specs.GroupFacts.{GroupParts};
ghost use Rattle.wire_packet.specs.Operations.{IsPlain};
ghost use Rattle.loc_tree.specs.Tree.{Tree};
ghost use Rattle.net_laws.specs.Holding.{request_with, drop_request};
ghost use Rattle.net_laws.specs.ByCode.{told_by};
ghost use Rattle.net_laws.specs.Meeting.{sent_here};
ghost use Rattle.net_laws.specs.Moves.{moved_made};
ghost use Rattle.net_laws.specs.Parcels.{pack, parcel_of, load_of, take_in};
ghost use Rattle.site_solution.specs.Answers.{Answers};
ghost use Rattle.site_solution.specs.Arriving.{FitsInto};
ghost use Rattle.site_solution.specs.InTree.{name_stands, is_in_tree};
ghost use Rattle.site_solution.specs.InCode.{is_in_code};
ghost use Rattle.site_solution.specs.Draws.{CanDraw};
ghost use Rattle.site_solution.specs.Parcels.{CanReceive};
ghost use Rattle.site_solution.specs.Staying.{AgreeBut, HasReceived};
ghost use Rattle.migration.specs.Across.{can_join, CanMoveBetween, IsMoveBetween, FitBetween};
ghost use Rattle.migration.specs.Across.{IsOneMoveBetween};

use crate::leaving::leave_out;
use crate::moving::goal_of;
use chem_model::{AtomId, Items, Memory, Name};
use env_store::Code;
use loc_tree::{LocTree, tree_is_kept};
use site_solution::{Effects, Site, site_is_kept};
use std::alloc::Global;
use wire_packet::{DecodeEnd, Packet, Parcel, Request, decode, encode};

/// Whether the location of a request may come to the other site: neither the location nor a rule,
/// channel or atom at it, the request itself left out, is held there, and each of them that the
/// other site made is below its count.
pub fn can_join(from: &Site, into: &Site, tree: &LocTree, atom: &AtomId) -> bool
    requires { IsSome (request_with atom.now from.now.requests) }
    ensures { result ≡ can_join atom.now from.now into.now }
{
    let request = from.asked(atom);
    into.apart(from, tree, &request.loc, atom)
}

// The packet as it is read from the bytes that are sent.
fn sent(alloc: Global, packet: &Packet) -> Result<Packet, Memory>
    ensures { IfOk result (λ read. read ≡ packet.now) }
{
    let bytes = encode(alloc, packet)?;
    match decode(alloc, bytes.as_slice()) {
        Ok(read) => Ok(read),
        Err(DecodeEnd::Memory) => Err(Memory),
        Err(DecodeEnd::Bad { .. }) => unreachable!(),
    }
}

// What a location takes along, all that stands there but the request by which it moves, as it is
// read from the bytes that are sent.
fn carried(alloc: Global, from: &Site, request: &Request) -> Result<Parcel, Memory>
    requires { request_with request.now.id from.now.requests ≡ Some request.now }
    ensures { IfOk result (λ parcel.
        parcel ≡ parcel_of (pack request.now.loc (drop_request request.now.id from.now))) }
{
    let packed = from.pack(alloc, &request.loc)?;
    let packet = Packet::Parcel(leave_out(packed, request.id));
    match sent(alloc, &packet)? {
        Packet::Parcel(parcel) => Ok(parcel),
        Packet::Message(_) => unreachable!(),
    }
}

// Effects in which nothing is sent, observed or born.
fn no_effects(alloc: Global) -> Effects
    ensures { result ≡ record { sends = []; outs = []; births = [] } }
{
    Effects {
        sends: Items::new(alloc),
        outs: Items::new(alloc),
        births: Items::new(alloc),
    }
}

// Takes in a location, and where its new root lives, pours there the continuation of the request
// that brought it. Where there is no memory for all of it, nothing changes.
fn arrive(
    alloc: Global,
    into: &mut Site,
    tree: &LocTree,
    code: &Code,
    parcel: &Parcel,
    lives: bool,
    cont: Name,
) -> Result<Effects, Memory>
    requires can { CanReceive (load_of (told_by code.now) parcel.now) into.old }
    requires plain { IsPlain cont }
    ensures ok { IfOk result (λ e.
        let load = load_of (told_by code.now) parcel.now in
        let a = moved_made lives code.now.seen into.old.number load.loc into.old.made cont in
        Answers (sent_here tree.now a (take_in load into.old)) a.outs [] into.new e) }
    ensures err { OnErr result (into.new ≡ into.old) }
    ensures keeps { IfOk result (λ _. (t u : Tree) → AgreeBut parcel.now.loc t u
        → FitsInto code.now u (load_of (told_by code.now) parcel.now) into.old
        → name_stands u cont ≡ true → is_in_tree t into.old ≡ true
        → is_in_code code.now t into.old ≡ true → CanDraw t into.old
        → HasReceived code.now u into.new) }
{
    if lives {
        into.receive(alloc, code, tree, parcel, cont)
    } else {
        into.take_in(alloc, code, parcel)?;
        Ok(no_effects(alloc))
    }
}

/// Meets a request to go to a location that the other site hosts. The location leaves with all that
/// stands there but the request, is encoded, decoded and taken in, and its continuation is poured
/// there. Where the target is dead, the location falls: nothing is poured, and the effects are
/// empty. It is one event of each solution of which the two sites are parts, beside any others,
/// where the solution's version allows it. Where there is no memory, nothing changes. Of both sites
/// and of all others holds again what the tests say; only the count of the site that takes the
/// location in may have reached 2^63.
pub fn move_between(
    alloc: Global,
    from: &mut Site,
    into: &mut Site,
    tree: &mut LocTree,
    code: &Code,
    atom: &AtomId,
) -> Result<Effects, Memory>
    requires { CanMoveBetween code.now tree.old from.old into.old atom.now }
    ensures ok { IfOk result (λ e. IsMoveBetween code.now.seen atom.now tree.old from.old into.old
        tree.new from.new into.new e) }
    ensures one_event { IfOk result (λ e. (rules_of : GroupParts → List NumberedRule)
        → IsOneMoveBetween rules_of code.now.seen atom.now tree.old from.old into.old
        from.new into.new e) }
    ensures fit { OnOk result
        (FitBetween code.now tree.old from.old tree.new from.new into.new) }
    ensures err_from { OnErr result (from.new ≡ from.old) }
    ensures err_into { OnErr result (into.new ≡ into.old) }
    ensures err_tree { OnErr result (tree.new ≡ tree.old) }
{
    site_is_kept(from);
    site_is_kept(into);
    tree_is_kept(tree);
    let request = from.asked(atom);
    let (target, cont) = goal_of(request.ask);
    let parcel = carried(alloc, from, &request)?;
    let lives = tree.alive(&target);
    let effects = arrive(alloc, into, tree, code, &parcel, lives, cont)?;
    from.remove(&request.loc);
    tree.rehost(&request.loc, &target);
    Ok(effects)
}
