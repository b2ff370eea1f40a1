// The calls that pour.
ghost use Rattle.std.specs.Prelude.{◌≡◌, [], true, length, IfOk, OnErr};
ghost use Rattle.chem_model.specs.declared.name.Ref.TheVariants.{Known};
ghost use Rattle.chem_model.specs.Process.{Msg};
ghost use Rattle.chem_model.specs.Reduction.{all_known};
ghost use Rattle.chem_model.specs.Opening.{root_of};
ghost use Rattle.chem_model.specs.Pour.{pour};
ghost use Rattle.env_store.specs.CodeFacts.{IsBodyAt};
ghost use Rattle.env_store.specs.Running.{code_made};
ghost use Rattle.loc_tree.specs.Tree.{is_alive};
ghost use Rattle.net_laws.specs.Net.{among, with_births};
ghost use Rattle.net_laws.specs.ByCode.{run_here};
ghost use Rattle.net_laws.specs.Meeting.{sent_here};
ghost use Rattle.site_solution.specs.Answers.{Answers};
ghost use Rattle.site_shelves.specs.Held.{taken_at};
ghost use Rattle.site_shelves.specs.InTree.{is_in_tree};
ghost use Rattle.site_solution.specs.Pours.{CanPour, HasPoured, CanEmit, HasEmitted};

use crate::coming::Taking;
use crate::effects::Effects;
use crate::site::{Site, site_is_kept};
use chem_model::{Loc, Memory, Name, Names, Nums};
use code_run::{message, run};
use env_store::{Code, Env};
use loc_tree::LocTree;
use std::alloc::Global;

/// A body of the code that is poured: at which location, which one, and under which environment.
#[derive(Clone, Copy)]
pub struct BodyAt<'a> {
    pub loc: &'a Loc,
    pub body: u32,
    pub env: &'a Env,
}

impl Site {
    /// Runs a body of the code at a location here, under an environment as long as the body begins
    /// with. The births are hosted here afterwards. Where there is no memory, nothing changes.
    pub fn pour(
        &mut self,
        alloc: Global,
        code: &Code,
        tree: &LocTree,
        loc: &Loc,
        body: u32,
        env: &Env,
    ) -> Result<Effects, Memory>
        requires body { IsBodyAt code.now (length env.now) body }
        requires here { among self.old.locs loc.now ≡ true }
        requires alive { is_alive tree.now loc.now ≡ true }
        requires can { CanPour code.now tree.now env.now self.old }
        ensures ok { IfOk result (λ e.
            let a = code_made code.now self.old.number body env.now loc.now self.old.made in
            Answers (run_here code.now tree.now a self.old) a.outs a.births self.new e) }
        ensures err { OnErr result (self.new ≡ self.old) }
        ensures keeps { IfOk result (λ e.
            HasPoured code.now (with_births tree.now self.old.number e.births) self.new) }
        ensures in_tree { IfOk result (λ e. is_in_tree tree.now self.old ≡ true
            → is_in_tree (with_births tree.now self.old.number e.births) self.new ≡ true) }
    {
        let poured = BodyAt { loc, body, env };
        let none = Taking {
            group: 0,
            chans: &[],
        };
        self.pour_taking(alloc, code, tree, &none, &poured)
    }

    /// Drops these fronts, and then pours. Where there is no memory for all of it, nothing changes.
    pub fn pour_taking(
        &mut self,
        alloc: Global,
        code: &Code,
        tree: &LocTree,
        fronts: &Taking<'_>,
        poured: &BodyAt<'_>,
    ) -> Result<Effects, Memory>
        requires body { IsBodyAt code.now (length poured.now.env.now) poured.now.body }
        requires here { among self.old.locs poured.now.loc.now ≡ true }
        requires alive { is_alive tree.now poured.now.loc.now ≡ true }
        requires can { CanPour code.now tree.now poured.now.env.now self.old }
        ensures ok { IfOk result (λ e.
            let a = code_made code.now self.old.number poured.now.body poured.now.env.now
            poured.now.loc.now self.old.made in
            Answers (run_here code.now tree.now a
            (taken_at fronts.now.group fronts.now.chans.now self.old))
            a.outs a.births self.new e) }
        ensures err { OnErr result (self.new ≡ self.old) }
        ensures keeps { IfOk result (λ e.
            HasPoured code.now (with_births tree.now self.old.number e.births) self.new) }
        ensures in_tree { IfOk result (λ e. is_in_tree tree.now self.old ≡ true
            → is_in_tree (with_births tree.now self.old.number e.births) self.new ≡ true) }
    {
        site_is_kept(self);
        let number = self.number();
        let made = run(
            alloc,
            code,
            number,
            poured.body,
            poured.env,
            poured.loc,
            self.made(),
        )?;
        self.commit(alloc, code, tree, made, fronts)
    }

    /// Pours one message at a location here. Where there is no memory, nothing changes.
    pub fn emit(
        &mut self,
        alloc: Global,
        tree: &LocTree,
        counts: &Nums,
        loc: &Loc,
        on: Name,
        args: Names,
    ) -> Result<Effects, Memory>
        requires here { among self.old.locs loc.now ≡ true }
        requires alive { is_alive tree.now loc.now ≡ true }
        requires can { CanEmit tree.now on args self.old }
        ensures ok { IfOk result (λ e.
            let a = pour counts.now self.old.number (root_of self.old.number) [] loc.now
            self.old.made (Msg (Known on) (all_known args)) in
            Answers (sent_here tree.now a self.old) a.outs [] self.new e) }
        ensures err { OnErr result (self.new ≡ self.old) }
        ensures keeps { IfOk result (λ _. HasEmitted tree.now self.new) }
    {
        site_is_kept(self);
        let made = message(alloc, counts, self.number(), loc, on, args, self.made())?;
        let none = Taking {
            group: 0,
            chans: &[],
        };
        self.leave(alloc, tree, made, Vec::new(alloc), &none)
    }
}
