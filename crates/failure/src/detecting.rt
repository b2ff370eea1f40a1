// Requests to detect a failure, as they are met.
ghost use Rattle.std.specs.Prelude.{◌≡◌, ◌≢◌, List, true, is_some, IfOk, OnErr};
ghost use Rattle.chem_model.specs.declared.name.Name.{Name};
ghost use Rattle.chem_model.specs.declared.numbered.NumberedRule.{NumberedRule};
ghost use Rattle.wire_packet.specs.declared.packet.Ask.TheVariants as request;
ghost use Rattle.wire_packet.specs.GroupFacts.{GroupParts, IsAskKept};
ghost use Rattle.wire_packet.specs.Operations.{IsPlain};
ghost use Rattle.env_store.specs.CodeParts.{CodeParts};
ghost use Rattle.site_solution.specs.InTree.{is_in_tree};
ghost use Rattle.site_solution.specs.InCode.{is_in_code};
ghost use Rattle.site_solution.specs.Draws.{CanDraw};
ghost use Rattle.site_solution.specs.Pours.{HasEmitted};
ghost use Rattle.failure.specs.Deaths.{dead_for};
ghost use Rattle.failure.specs.Detects.{IsDetection, IsOneDetection};

use chem_model::{AtomId, Items, Memory, Name, Nums};
use loc_tree::LocTree;
use site_solution::{Effects, Site, site_is_kept};
use std::alloc::Global;
use wire_packet::Ask;

// The continuation of a request that has one.
fn continuation(ask: Ask) -> Name
    requires { ask ≢ request.Halt }
    ensures cont { (target cont : Name) → ask ≡ request.Fail target cont → result ≡ cont }
    ensures plain { IsAskKept ask → IsPlain result }
{
    match ask {
        Ask::Go { target: _, cont } | Ask::Fail { target: _, cont } => cont,
        Ask::Halt => unreachable!(),
    }
}

/// Meets a request to detect a failure: the request goes, and its continuation is poured where it
/// stood. It is one event of each solution of which the site is a part, beside any others. Where
/// there is no memory, nothing changes.
pub fn detect(
    alloc: Global,
    site: &mut Site,
    tree: &LocTree,
    counts: &Nums,
    atom: &AtomId,
) -> Result<Effects, Memory>
    requires in_tree { is_in_tree tree.now site.old ≡ true }
    requires can_draw { CanDraw tree.now site.old }
    requires dead { is_some (dead_for tree.now atom.now site.old) ≡ true }
    ensures ok { IfOk result (λ e.
        IsDetection counts.now atom.now tree.now site.old site.new e) }
    ensures one_event { IfOk result (λ e. (rules_of : GroupParts → List NumberedRule)
        → IsOneDetection rules_of counts.now atom.now tree.now site.old site.new e) }
    ensures keeps { IfOk result (λ _. HasEmitted tree.now site.new) }
    ensures in_code { IfOk result (λ _. (code : CodeParts)
        → is_in_code code tree.now site.old ≡ true → is_in_code code tree.now site.new ≡ true) }
    ensures err { OnErr result (site.new ≡ site.old) }
{
    site_is_kept(site);
    let request = site.asked(atom);
    let cont = continuation(request.ask);
    let args = Items::new(alloc);
    let effects = site.emit(alloc, tree, counts, &request.loc, cont, args)?;
    site.drop_request(atom);
    Ok(effects)
}
