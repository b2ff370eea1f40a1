// A turn at one site.
ghost use Rattle.std.specs.Prelude.{◌≡◌, ◌<◌, IfOk, OnErr};
ghost use Rattle.chem_model.specs.Each.{Each};
ghost use Rattle.site_turn.specs.declared.next.Chosen.TheVariants as choice;
ghost use Rattle.site_turn.specs.Next.{MayMake, IsToGo};
ghost use Rattle.site_turn.specs.Mail.{IsMessageText, IsMessageFlight};
ghost use Rattle.shared_net.specs.Offers.{Turned};
ghost use Rattle.shared_net.specs.Offers.{MayGain};
ghost use Rattle.shared_net.specs.Turning.{Turns};
ghost use Rattle.shared_net.specs.inside.TurnParts.{Steps, StepsFirst};

use crate::door::{Decides, Door};
use crate::gate::{Gate, Phase};
use crate::net::{Parts, SharedNet};
use crate::pass::Pass;
use crate::run::Run;
use chem_model::{Memory, Texts};
use loc_tree::LocTree;
use site_solution::Site;
use site_turn::{
    Chosen, KeptTree, Leading, Made, Post, Step, Tools, Turn, WideStep, act_here, act_wide,
    end_turn, passed_or, propose_chosen, propose_move,
};
use std::alloc::Global;
use std::sync::{Mutex, Wait};
use wire_packet::Flights;

// What a turn is made with: a runtime that may wait, an allocator, the book's lock, the gate, the
// place of the site, and the number of the turn.
#[derive(Drop)]
pub(crate) struct Hands<'a, K, G, R> {
    pub(crate) rt: &'a R,
    pub(crate) alloc: Global,
    pub(crate) book: &'a Mutex<K>,
    pub(crate) gate: &'a G,
    pub(crate) at: usize,
    pub(crate) count: u64,
}

// The mailboxes of all sites, each behind its lock.
#[derive(Drop)]
struct Boxes<'a, R> {
    rt: &'a R,
    parts: &'a Parts,
}

impl<'a, R: Wait> Post for Boxes<'a, R> {
    fn post(&self, flights: Flights) -> Result<bool, Memory> {
        let parts = self.parts;
        let list = &parts.mail.list;
        let mut posted = false;
        for flight in flights.into_vec() {
            let target = flight.target as usize;
            if target < list.len() {
                list[target].lock(self.rt).put(flight.bytes)?;
                posted = true;
            }
        }
        Ok(posted)
    }
}

impl<'a, K, G: Gate, R: Wait> Hands<'a, K, G, R> {
    // The door to the book, where the gate was passed or not.
    fn door(&self, passed: bool) -> Door<'a, K, G, R> {
        Door {
            rt: self.rt,
            lock: self.book,
            gate: self.gate,
            count: self.count,
            passed,
        }
    }
}

impl Parts {
    // Empties the mailbox of a site whose lock is held.
    fn mail_of<R: Wait>(&self, rt: &R, alloc: Global, at: usize) -> Texts
        requires { at < self.now.sites }
        ensures { Each IsMessageText result }
    {
        self.mail.list[at].lock(rt).empty(alloc)
    }

    // The part of a turn under the tree's read lock and the site's.
    fn turn_here<L: Run, K: Decides<L>, G: Gate, R: Wait>(
        &self,
        hands: &Hands<'_, K, G, R>,
        boxes: &Boxes<'_, R>,
        pass: &mut Pass<L>,
    ) -> Result<Step, Memory>
        requires { hands.now.at < self.now.sites }
        ensures step { IfOk result (λ step. StepsFirst pass.old step pass.new) }
        ensures gain { OnErr result (MayGain pass.old pass.new) }
    {
        let tree = self.tree.lock.read(hands.rt);
        let mut site = self.sites.list[hands.at].lock(hands.rt);
        let mail = self.mail_of(hands.rt, hands.alloc, hands.at);
        let mut door = hands.door(false);
        let kept = &mut *site;
        kept.find(&*tree);
        let tools = Tools {
            alloc: hands.alloc,
            program: &self.program,
            code: kept.code.code(),
            post: boxes,
        };
        match &kept.tree {
            Some(own) => act_here(&tools, &mut kept.held, own.tree(), &mail, &mut door, pass),
            None => {
                let tree = tree.tree.tree();
                let step = act_here(&tools, &mut kept.held, tree, &mail, &mut door, pass);
                kept.held.fits = false;
                step
            }
        }
    }

    // Proposes the move of a request that leads to another site, whose lock is taken too.
    fn cross<L: Run, K: Decides<L>, G: Gate, R: Wait>(
        &self,
        hands: &Hands<'_, K, G, R>,
        tools: &Tools<'_, Boxes<'_, R>>,
        site: &mut Site,
        tree: &mut LocTree,
        leading: &Leading,
        pass: &mut Pass<L>,
    ) -> Result<Made, Memory>
        requires may { MayMake tools.now.code.now tree.old site.old (choice.Ask leading.now.atom) }
        requires goes { IsToGo leading.now.atom site.old }
        ensures pass { IfOk result (λ made. Turned pass.old made.turn pass.new) }
        ensures sends { IfOk result (λ made. Each IsMessageFlight made.effects.sends) }
        ensures gain { OnErr result (MayGain pass.old pass.new) }
    {
        hands.gate.pass(pass.number(), hands.count, Phase::Held);
        let mut door = hands.door(true);
        let alloc = hands.alloc;
        let code = tools.code;
        let target = leading.number as usize;
        if target == hands.at || target >= self.sites.list.len() {
            let ask = Chosen::Ask(leading.atom);
            return propose_chosen(alloc, site, tree, code, &ask, &mut door, pass);
        }
        let mut other = self.sites.list[target].lock(hands.rt);
        other.give_back();
        let into = &mut other.held.site;
        propose_move(
            alloc,
            site,
            into,
            tree,
            code,
            &leading.atom,
            &mut door,
            pass,
        )
    }

    // Takes the tree back from all sites, so that it may be changed.
    fn take_back<R: Wait>(&self, rt: &R, kept: &mut KeptTree) {
        if !kept.is_taken() {
            return;
        }
        let list = &self.sites.list;
        for at in 0..list.len() {
            list[at].lock(rt).give_back();
        }
    }

    // What a site does next, with a tree that may be changed. Messages went into mailboxes before,
    // or not.
    fn act_over<L: Run, K: Decides<L>, G: Gate, R: Wait>(
        &self,
        hands: &Hands<'_, K, G, R>,
        tools: &Tools<'_, Boxes<'_, R>>,
        tree: &mut LocTree,
        passed: bool,
        pass: &mut Pass<L>,
    ) -> Result<Turn, Memory>
        requires { hands.now.at < self.now.sites }
        ensures step { IfOk result (λ turn. Steps pass.old turn pass.new) }
        ensures gain { OnErr result (MayGain pass.old pass.new) }
    {
        let mut kept = self.sites.list[hands.at].lock(hands.rt);
        kept.give_back();
        let site = &mut kept.held.site;
        let mail = self.mail_of(hands.rt, hands.alloc, hands.at);
        let mut door = hands.door(false);
        match act_wide(tools, site, tree, &mail, &mut door, pass)? {
            WideStep::Ended(turn) => Ok(passed_or(turn, passed)),
            WideStep::Leads(leading) => {
                let made = self.cross(hands, tools, site, tree, &leading, pass)?;
                let turn = end_turn(tools, made)?;
                Ok(passed_or(turn, passed || leading.passed))
            }
        }
    }

    // The part of a turn under the tree's write lock and the site's. Messages went into mailboxes
    // before, or not.
    fn turn_wide<L: Run, K: Decides<L>, G: Gate, R: Wait>(
        &self,
        hands: &Hands<'_, K, G, R>,
        boxes: &Boxes<'_, R>,
        passed: bool,
        pass: &mut Pass<L>,
    ) -> Result<Turn, Memory>
        requires { hands.now.at < self.now.sites }
        ensures step { IfOk result (λ turn. Steps pass.old turn pass.new) }
        ensures gain { OnErr result (MayGain pass.old pass.new) }
    {
        let mut kept = self.tree.lock.write(hands.rt);
        self.take_back(hands.rt, &mut *kept);
        let tools = Tools {
            alloc: hands.alloc,
            program: &self.program,
            code: self.code.code(),
            post: boxes,
        };
        let Some(tree) = kept.tree.change() else {
            return Err(Memory);
        };
        self.act_over(hands, &tools, tree, passed, pass)
    }

    // A turn at a site. It may wait.
    pub(crate) fn turn<L: Run, K: Decides<L>, G: Gate, R: Wait>(
        &self,
        hands: &Hands<'_, K, G, R>,
        pass: &mut Pass<L>,
    ) -> Result<Turn, Memory>
        requires { hands.now.at < self.now.sites }
        ensures turn { IfOk result (λ turn. Turns pass.old turn pass.new) }
        ensures gain { OnErr result (MayGain pass.old pass.new) }
    {
        let boxes = Boxes {
            rt: hands.rt,
            parts: self,
        };
        let turn = match self.turn_here(hands, &boxes, pass)? {
            Step::Ended(turn) => turn,
            Step::Wide(passed) => self.turn_wide(hands, &boxes, passed, pass)?,
        };
        pass.note(turn);
        if let Turn::Did(_) = turn {
            hands.gate.pass(pass.number(), hands.count, Phase::Done);
        }
        Ok(turn)
    }
}

impl<L: Run> SharedNet<L> {
    /// A turn of the worker of this pass at a site: works off the site's mail, and makes at most
    /// one event. It may wait.
    ///
    /// Under the tree's read lock the site makes a reaction that opens no location, where one is
    /// ready, or finds that there is nothing to do. All else it does under the tree's write lock,
    /// after its mail was worked off once more; a move to another site takes that site's lock too.
    /// What is sent goes into the mailboxes of its targets. The gate is passed inside the site's
    /// lock before the book's is taken, and after a turn that made an event.
    ///
    /// `Passed` is answered where no event was made and a message that came went on into a mailbox.
    /// On want of memory the pass is as before, or has one receipt more, of the event that was
    /// made, and its worker makes no further turn.
    pub fn turn<G: Gate, R: Wait>(
        &self,
        rt: &R,
        alloc: Global,
        pass: &mut Pass<L>,
        site: u32,
        gate: &G,
    ) -> Result<Turn, Memory>
        requires { site < self.now.sites }
        ensures turn { IfOk result (λ turn. Turns pass.old turn pass.new) }
        ensures gain { OnErr result (MayGain pass.old pass.new) }
    {
        let hands = Hands {
            rt,
            alloc,
            book: &self.locked,
            gate,
            at: site as usize,
            count: pass.begin(),
        };
        self.parts.turn(&hands, pass)
    }
}
