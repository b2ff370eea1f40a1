// Locations that come from other sites.
ghost use Rattle.std.specs.Prelude.{◌≡◌, [], true, OnOk, OnErr, IfOk};
ghost use Rattle.loc_tree.specs.Tree.{Tree};
ghost use Rattle.wire_packet.specs.ParcelFacts.{IsParcel};
ghost use Rattle.wire_packet.specs.Operations.{IsPlain};
ghost use Rattle.env_store.specs.Running.{atom_ran};
ghost use Rattle.code_run.specs.Posts.{run_of, all_posted};
ghost use Rattle.net_laws.specs.ByCode.{told_by};
ghost use Rattle.net_laws.specs.Parcels.{load_of, take_in};
ghost use Rattle.net_laws.specs.Moves.{continuation_made};
ghost use Rattle.net_laws.specs.Meeting.{sent_here};
ghost use Rattle.site_solution.specs.Answers.{Answers};
ghost use Rattle.site_solution.specs.Parcels.{CanTakeIn, CanReceive};
ghost use Rattle.site_solution.specs.inside.Carried.{IsCarried, IsBeside, ArriveBeside};
ghost use Rattle.site_solution.specs.inside.Carried.{IsContinued, IsTakenBeside};
ghost use Rattle.site_shelves.specs.InTree.{name_stands, is_in_tree};
ghost use Rattle.site_shelves.specs.InCode.{is_in_code};
ghost use Rattle.site_shelves.specs.Draws.{CanDraw};
ghost use Rattle.site_solution.specs.Staying.{AgreeBut, StillFits, HasReceived};
ghost use Rattle.site_solution.specs.Arriving.{FitsInto};

use crate::coming::{Coming, Taking};
use crate::commit::{Sorted, sort_with_births};
use crate::effects::Effects;
use crate::site::{Site, site_is_kept};
use chem_model::{Items, Loc, Memory, Name, Nums};
use code_run::{Run, message};
use env_store::Code;
use loc_tree::LocTree;
use site_shelves::new_groups;
use std::alloc::Global;
use wire_packet::{Parcel, Request, Waiting};

// Copies of messages.
fn copies(alloc: Global, messages: &[Waiting]) -> Result<Vec<Waiting>, Memory>
    ensures { IfOk result (λ copies. copies.items ≡ messages.now) }
{
    let mut copies = Vec::with_capacity(alloc, messages.len())?;
    for waiting in messages {
        copies.push(waiting.copy(alloc)?)?;
    }
    Ok(copies)
}

// What a parcel brings, copied, with this count.
fn carried(alloc: Global, code: &Code, parcel: &Parcel, next: u64) -> Result<Coming, Memory>
    ensures kept { IsParcel parcel.now }
    ensures carried { IfOk result (IsCarried code.now parcel.now next) }
{
    let groups = new_groups(alloc, code, parcel.groups.as_slice())?;
    let waiting = copies(alloc, parcel.waiting.as_slice())?;
    let requests = Vec::from_slice(alloc, parcel.requests.as_slice())?;
    Ok(Coming {
        next,
        groups,
        waiting,
        requests,
    })
}

// Messages and requests behind what a parcel brings.
fn beside(
    before: Coming,
    mut later: Vec<Waiting>,
    mut asked: Vec<Request>,
) -> Result<Coming, Memory>
    ensures { IfOk result (IsBeside before later.items asked.items) }
{
    let Coming {
        next,
        groups,
        mut waiting,
        mut requests,
    } = before;
    waiting.append(&mut later)?;
    requests.append(&mut asked)?;
    Ok(Coming {
        next,
        groups,
        waiting,
        requests,
    })
}

// What a parcel brings, with this count, and behind it messages and requests.
fn carried_beside(
    alloc: Global,
    code: &Code,
    parcel: &Parcel,
    next: u64,
    waiting: Vec<Waiting>,
    requests: Vec<Request>,
) -> Result<Coming, Memory>
    ensures kept { IsParcel parcel.now }
    ensures more { IfOk result
        (ArriveBeside code.now parcel.now next waiting.items requests.items) }
{
    let before = carried(alloc, code, parcel, next)?;
    beside(before, waiting, requests)
}

// The continuation as it is poured at the location.
fn continued(
    alloc: Global,
    counts: &Nums,
    site: &Site,
    loc: &Loc,
    cont: Name,
) -> Result<Run, Memory>
    requires { IsPlain cont }
    ensures { IfOk result (λ r. r ≡ run_of (atom_ran
        (continuation_made counts.now site.now.number loc.now site.now.made cont))) }
{
    message(
        alloc,
        counts,
        site.number(),
        loc,
        cont,
        Items::new(alloc),
        site.made(),
    )
}

impl Site {
    /// Takes in a location with its groups, which are laid as the code tells of them, its messages
    /// in their order, and its requests. Where there is no memory for all of it, nothing changes.
    /// What the tests say of the site they say still with the tree that gives it the location,
    /// where that is so of what the parcel brings.
    pub fn take_in(&mut self, alloc: Global, code: &Code, parcel: &Parcel) -> Result<(), Memory>
        requires { CanTakeIn (load_of (told_by code.now) parcel.now) self.old }
        ensures ok { OnOk result (
            self.new ≡ take_in (load_of (told_by code.now) parcel.now) self.old) }
        ensures err { OnErr result (self.new ≡ self.old) }
        ensures keeps { OnOk result ((t u : Tree) → AgreeBut parcel.now.loc t u
            → FitsInto code.now u (load_of (told_by code.now) parcel.now) self.old
            → StillFits code.now t self.old u self.new) }
    {
        site_is_kept(self);
        let coming = carried(alloc, code, parcel, self.made())?;
        self.expect_all(alloc, code, &coming.groups);
        let none = Taking {
            group: 0,
            chans: &[],
        };
        self.add_all(alloc, &[parcel.loc], coming, &none)
    }

    // Takes in a location, and leaves there what a run posted. Where there is no memory for all of
    // it, nothing changes.
    fn take_in_beside(
        &mut self,
        alloc: Global,
        code: &Code,
        tree: &LocTree,
        parcel: &Parcel,
        run: Run,
    ) -> Result<Effects, Memory>
        requires can { CanReceive (load_of (told_by code.now) parcel.now) self.old }
        requires posts { IsContinued self.old.number self.old.made (all_posted run.posts) }
        ensures ok { IfOk result (λ e. IsTakenBeside tree.now code.now parcel.now run.next
            (all_posted run.posts) self.old self.new e.sends) }
        ensures rest { IfOk result (λ e. (e.outs ≡ run.outs) × (e.births ≡ run.births)) }
        ensures err { OnErr result (self.new ≡ self.old) }
    {
        let Run {
            next,
            births,
            posts,
            outs,
            ..
        } = run;
        let Sorted {
            waiting,
            requests,
            flights,
        } = sort_with_births(alloc, tree, self.places(), &[parcel.loc], posts)?;
        let coming = carried_beside(alloc, code, parcel, next, waiting, requests)?;
        self.expect_all(alloc, code, &coming.groups);
        let none = Taking {
            group: 0,
            chans: &[],
        };
        self.add_all(alloc, &[parcel.loc], coming, &none)?;
        Ok(Effects {
            sends: flights,
            outs,
            births,
        })
    }

    /// Takes in a location, and then pours there the continuation of the request that brought it.
    /// Where there is no memory for all of it, nothing changes. All that a call needs of the site
    /// holds of it with the tree that gives it the location, where it did before and the parcel
    /// brings nothing against it; only its count may have reached 2^63.
    pub fn receive(
        &mut self,
        alloc: Global,
        code: &Code,
        tree: &LocTree,
        parcel: &Parcel,
        cont: Name,
    ) -> Result<Effects, Memory>
        requires can { CanReceive (load_of (told_by code.now) parcel.now) self.old }
        requires plain { IsPlain cont }
        ensures ok { IfOk result (λ e.
            let load = load_of (told_by code.now) parcel.now in
            let a = continuation_made code.now.seen self.old.number load.loc self.old.made cont in
            Answers (sent_here tree.now a (take_in load self.old)) a.outs [] self.new e) }
        ensures err { OnErr result (self.new ≡ self.old) }
        ensures keeps { IfOk result (λ _. (t u : Tree) → AgreeBut parcel.now.loc t u
            → FitsInto code.now u (load_of (told_by code.now) parcel.now) self.old
            → name_stands u cont ≡ true → is_in_tree t self.old ≡ true
            → is_in_code code.now t self.old ≡ true → CanDraw t self.old
            → HasReceived code.now u self.new) }
    {
        site_is_kept(self);
        let made = continued(alloc, &code.seen, self, &parcel.loc, cont)?;
        self.take_in_beside(alloc, code, tree, parcel, made)
    }
}
