// Which choice of a network is enabled, and which comes next, by its parts. It takes no memory.
ghost use Rattle.std.specs.Prelude.{◌≡◌, ◌<◌, ◌^◌, ◌↔◌, length, Some};
ghost use Rattle.std.specs.Prelude.{IfSome, IfNone, IsTrue};
ghost use Rattle.chem_model.specs.Each.{Each};
ghost use Rattle.wire_packet.specs.GroupFacts.{RequestParts};
ghost use Rattle.env_store.specs.CodeParts.{CodeParts};
ghost use Rattle.net_laws.specs.Site.{Site};
ghost use Rattle.net_laws.specs.Net.{Net};
ghost use Rattle.net_laws.specs.Holding.{precedes};
ghost use Rattle.site_solution.specs.InTree.{is_in_tree};
ghost use Rattle.site_solution.specs.InCode.{is_in_code};
ghost use Rattle.net_core.specs.declared.choice.Choice.{Choice};
ghost use Rattle.net_core.specs.Choosing.{MayReact, Allows, NoneReacts, IsFirstReaction, IsNext};
ghost use Rattle.net_core.specs.Choosing.{NoneMeetsAny};
ghost use Rattle.net_core.specs.inside.Searched.{HasSites, meets, IsMet, NoneMeets, choice_for};
ghost use Rattle.net_core.specs.inside.Searched.{IsMeetable, IsLeastAt, lesser_of, IsLeast};
ghost use Rattle.net_core.specs.inside.Searched.{IsFirstMeeting};
ghost use Rattle.net_core.specs.Scheduling.{ReadyOpensNone};
ghost use Rattle.net_core.specs.Working.{IsOpeningAt};

use crate::choice::Choice;
use chem_model::AtomId;
use env_store::Code;
use failure::{dead_for, halt_ready};
use loc_tree::LocTree;
use migration::move_ready;
use reducer::{Pick, births, code_is_kept, may_fire, ready};
use site_solution::Site;
use site_turn::least_met;
use wire_packet::{Ask, Request};

// ---- reactions

// Whether the pick of a site may react.
fn may_react(sites: &[Site], tree: &LocTree, code: &Code, number: u32, pick: &Pick) -> bool
    requires tree { Each (λ (s : Site). IsTrue (is_in_tree tree.now s)) sites.now }
    requires code { Each (λ (s : Site). IsTrue (is_in_code code.now tree.now s)) sites.now }
    ensures { (net : Net) → HasSites sites.now tree.now net
        → (IsTrue result ↔ MayReact code.now net number pick.now) }
{
    code_is_kept(code);
    let at = number as usize;
    if at >= sites.len() {
        return false;
    }
    may_fire(&sites[at], code, tree, pick)
}

// The reaction that is ready at the first site that has one.
fn first_reaction(sites: &[Site], tree: &LocTree, code: &Code) -> Option<(u32, Pick)>
    requires tree { Each (λ (s : Site). IsTrue (is_in_tree tree.now s)) sites.now }
    requires code { Each (λ (s : Site). IsTrue (is_in_code code.now tree.now s)) sites.now }
    requires few { length sites.now < 2 ^ 32 }
    ensures none { IfNone result ((net : Net) → HasSites sites.now tree.now net
        → NoneReacts code.now net) }
    ensures some { IfSome result (λ first. (net : Net) → HasSites sites.now tree.now net
        → IsFirstReaction code.now net first.0 first.1) }
{
    code_is_kept(code);
    for number in 0..sites.len() {
        if let Some(pick) = ready(&sites[number], code, tree) {
            return Some((number as u32, pick));
        }
    }
    None
}

// The reaction that is ready at the site with this number, where it opens locations.
pub(crate) fn opening_of(sites: &[Site], tree: &LocTree, code: &Code, number: u32) -> Option<Choice>
    requires number { number < length sites.now }
    requires tree { Each (λ (s : Site). IsTrue (is_in_tree tree.now s)) sites.now }
    requires code { Each (λ (s : Site). IsTrue (is_in_code code.now tree.now s)) sites.now }
    ensures none { IfNone result ((net : Net) → HasSites sites.now tree.now net
        → ReadyOpensNone code.now net number) }
    ensures some { IfSome result (λ x. (net : Net) → HasSites sites.now tree.now net
        → IsOpeningAt code.now net number x) }
{
    let site = &sites[number as usize];
    let pick = ready(site, code, tree)?;
    if births(code, site, &pick) == 0 {
        return None;
    }
    Some(Choice::React { site: number, pick })
}

// ---- requests

// Whether the choice meets a request of the site, in a network of this version.
fn meets(site: &Site, tree: &LocTree, version: u32, choice: &Choice) -> bool
    requires { IsTrue (is_in_tree tree.now site.now) }
    ensures { result ≡ meets version tree.now choice.now site.now }
{
    match *choice {
        Choice::Move { atom } => move_ready(site, tree, version, &atom),
        Choice::Halt { atom } => halt_ready(site, tree, &atom),
        Choice::Detect { atom } => dead_for(site, tree, &atom).is_some(),
        Choice::React { .. } | Choice::Deliver { .. } => false,
    }
}

// The first site that has a request which the choice meets.
pub(crate) fn meeting_site(
    sites: &[Site],
    tree: &LocTree,
    version: u32,
    choice: &Choice,
) -> Option<usize>
    requires { Each (λ (s : Site). IsTrue (is_in_tree tree.now s)) sites.now }
    ensures none { IfNone result
        (NoneMeets version sites.now tree.now choice.now (length sites.now)) }
    ensures some { IfSome result (IsMet version sites.now tree.now choice.now) }
{
    for number in 0..sites.len() {
        if meets(&sites[number], tree, version, choice) {
            return Some(number);
        }
    }
    None
}

// The choice that meets a request.
pub(crate) fn choice_for(request: &Request) -> Choice
    ensures { result ≡ choice_for request.now }
{
    let atom = request.id;
    match request.ask {
        Ask::Go { .. } => Choice::Move { atom },
        Ask::Fail { .. } => Choice::Detect { atom },
        Ask::Halt => Choice::Halt { atom },
    }
}

// Of the requests of a site that may be met the one with the least id.
fn least_at(site: &Site, tree: &LocTree, version: u32) -> Option<Request>
    requires { IsTrue (is_in_tree tree.now site.now) }
    ensures none { IfNone result ((r : RequestParts) → IsMeetable version tree.now site.now r → ⊥) }
    ensures some { IfSome result (IsLeastAt version tree.now site.now) }
{
    match least_met(site, tree, version) {
        Some(atom) => Some(site.asked(&atom)),
        None => None,
    }
}

fn comes_before(one: AtomId, other: AtomId) -> bool
    ensures { result ≡ precedes one other }
{
    one.site < other.site || one.site == other.site && one.k < other.k
}

// Of two requests the one with the lesser id, and else the first.
fn lesser(best: Option<Request>, other: Option<Request>) -> Option<Request>
    ensures { result ≡ lesser_of best other }
{
    match (best, other) {
        (Some(one), Some(two)) => {
            if comes_before(two.id, one.id) {
                Some(two)
            } else {
                Some(one)
            }
        }
        (None, two) => two,
        (one, None) => one,
    }
}

// Of the requests of all sites that may be met the one with the least id.
fn least_request(sites: &[Site], tree: &LocTree, version: u32) -> Option<Request>
    requires { Each (λ (s : Site). IsTrue (is_in_tree tree.now s)) sites.now }
    ensures { IsLeast version sites.now tree.now (length sites.now) result }
{
    let mut best: Option<Request> = None;
    for number in 0..sites.len() {
        best = lesser(best, least_at(&sites[number], tree, version));
    }
    best
}

// ---- all choices

// Whether the choice is enabled.
pub(crate) fn is_enabled(
    sites: &[Site],
    tree: &LocTree,
    version: u32,
    code: &Code,
    packets: u32,
    choice: &Choice,
) -> bool
    requires tree { Each (λ (s : Site). IsTrue (is_in_tree tree.now s)) sites.now }
    requires code { Each (λ (s : Site). IsTrue (is_in_code code.now tree.now s)) sites.now }
    ensures { (net : Net) → HasSites sites.now tree.now net → net.version ≡ version
        → length net.packets ≡ packets → (IsTrue result ↔ Allows code.now net choice.now) }
{
    match choice {
        Choice::React { site, pick } => may_react(sites, tree, code, *site, pick),
        Choice::Deliver { flight } => *flight < packets,
        Choice::Move { .. } | Choice::Halt { .. } | Choice::Detect { .. } => {
            meeting_site(sites, tree, version, choice).is_some()
        }
    }
}

// The choice that meets the request with the least id.
pub(crate) fn first_request(sites: &[Site], tree: &LocTree, version: u32) -> Option<Choice>
    requires { Each (λ (s : Site). IsTrue (is_in_tree tree.now s)) sites.now }
    ensures none { IfNone result ((c : CodeParts) (net : Net) → HasSites sites.now tree.now net
        → net.version ≡ version → NoneMeetsAny c net) }
    ensures some { IfSome result (λ x. (c : CodeParts) (net : Net)
        → HasSites sites.now tree.now net → net.version ≡ version → IsFirstMeeting c net x) }
{
    match least_request(sites, tree, version) {
        Some(request) => Some(choice_for(&request)),
        None => None,
    }
}

// The choice that comes next.
pub(crate) fn next_choice(
    sites: &[Site],
    tree: &LocTree,
    version: u32,
    code: &Code,
    packets: u32,
) -> Option<Choice>
    requires tree { Each (λ (s : Site). IsTrue (is_in_tree tree.now s)) sites.now }
    requires code { Each (λ (s : Site). IsTrue (is_in_code code.now tree.now s)) sites.now }
    requires few { length sites.now < 2 ^ 32 }
    ensures none { IfNone result ((net : Net) → HasSites sites.now tree.now net
        → net.version ≡ version → length net.packets ≡ packets
        → (x : Choice) → Allows code.now net x → ⊥) }
    ensures some { IfSome result (λ x. (net : Net) → HasSites sites.now tree.now net
        → net.version ≡ version → length net.packets ≡ packets → IsNext code.now net x) }
{
    if packets > 0 {
        return Some(Choice::Deliver { flight: 0 });
    }
    if let Some((site, pick)) = first_reaction(sites, tree, code) {
        return Some(Choice::React { site, pick });
    }
    first_request(sites, tree, version)
}
