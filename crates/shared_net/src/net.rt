// The network of a run on threads, behind its locks.
ghost use Rattle.std.specs.Prelude.{◌≡◌, ◌≤◌, ◌<◌, length, vec_len, map, IfOk, IfErr};
ghost use Rattle.chem_model.specs.Each.{Each};
ghost use Rattle.env_store.specs.Reading.{IsCodeOf};
ghost use Rattle.shared_net.specs.Agrees.{row_of};
ghost use Rattle.shared_net.specs.Causes.{DifferInNumber};
ghost use Rattle.shared_net.specs.Closes.{HaveBudget, Closes};
ghost use Rattle.site_turn.specs.Mail.{IsMessageText};
ghost use Rattle.shared_net.specs.Net.{IsCountOfSites};
ghost use Rattle.shared_net.specs.Passes.{new_passes};
ghost use Rattle.shared_net.specs.Preparing.{IsOpenedAs};

use crate::closing::{Closed, finish, settle};
use crate::lists::{Mails, Sites};
use crate::locked::Locked;
use crate::mail::Mailbox;
use crate::pass::Passes;
use crate::preparing::{Opened, prepare};
use crate::run::Run;
use chem_model::{Memory, Program, Texts};
use env_store::Code;
use loc_tree::LocTree;
use site_solution::Site;
use site_turn::{KeptSite, KeptTree, SharedCode, SharedTree};
use std::alloc::Global;
use std::marker::Model;
use std::sync::ledger::Blank;
use std::sync::{Mutex, RwLock};

// The tree behind its lock.
#[derive(Drop)]
pub(crate) struct LockedTree {
    pub(crate) lock: RwLock<KeptTree>,
}

// The sites by their numbers, each behind a lock of its own.
#[derive(Drop)]
pub(crate) struct LockedSites {
    pub(crate) list: Vec<Mutex<KeptSite>>,
}

// The mailboxes of the sites by their numbers, each behind a lock of its own.
#[derive(Drop)]
pub(crate) struct LockedMail {
    pub(crate) list: Vec<Mutex<Mailbox>>,
}

// Sites and their mail, each behind a lock of its own.
#[derive(Drop)]
struct LockedBoth {
    sites: LockedSites,
    mail: LockedMail,
}

// All of a network but its book. It has no type parameter, so that threads may share it whatever
// the run is.
#[derive(Drop)]
pub(crate) struct Parts {
    pub(crate) program: Program,
    pub(crate) code: SharedCode,
    pub(crate) budget: u32,
    pub(crate) tree: LockedTree,
    pub(crate) sites: LockedSites,
    pub(crate) mail: LockedMail,
}

impl Model for Parts {
    ghost use Rattle.std.specs.Prelude.{◌≡◌, vec_len};
    ghost use Rattle.shared_net.specs.Net.{NetKept, net_code, IsCountOfSites};

    ghost Value = { NetKept };

    ghost coded = { net_code };

    ghost view = { λ n. record {
      program = n.program;
      budget = n.budget;
      sites = vec_len n.sites.list;
    } };

    ghost invariant = { λ n.
        (vec_len n.mail.list ≡ vec_len n.sites.list)
        × IsCountOfSites (vec_len n.sites.list) };
}

/// The network of a run on threads: the program with its code, the budget, and behind locks the
/// tree, each site, the mailbox of each site, and the book. It is seen as its program, its budget
/// and how many sites it has, 1 to 256.
///
/// Locks are taken in the order tree, sites, one mailbox, book. The locks of two sites are held
/// only under the tree's write lock.
#[derive(Drop)]
pub struct SharedNet<L: Run> {
    pub(crate) parts: Parts,
    pub(crate) locked: Mutex<Locked<L>>,
}

impl<L: Run> Model for SharedNet<L> {
    ghost use Rattle.std.specs.Prelude.{◌≡◌};
    ghost use Rattle.shared_net.specs.Net.{NetKept, net_code};

    ghost Value = { NetKept };

    ghost coded = { net_code };

    ghost view = { λ n. n.parts };

    ghost invariant = { λ n. n.parts.program ≡ L.program };
}

// Puts each site behind a lock of its own, with the code.
fn lock_sites(alloc: Global, sites: Vec<Site>, code: &SharedCode) -> Result<LockedSites, Memory>
    ensures { IfOk result (λ behind. vec_len behind.list ≡ length sites.items) }
{
    let mut locked = Vec::new(alloc);
    for site in sites {
        match code.share() {
            Ok(code) => locked.push(Mutex::new(KeptSite::new(site, code)))?,
            Err(memory) => {
                drop(site);
                return Err(memory);
            }
        }
    }
    Ok(LockedSites { list: locked })
}

// Puts each mail into a mailbox behind a lock of its own.
fn lock_mail(alloc: Global, mails: Vec<Texts>) -> Result<LockedMail, Memory>
    requires { Each (Each IsMessageText) mails.items }
    ensures { IfOk result (λ mail. vec_len mail.list ≡ length mails.items) }
{
    let mut locked = Vec::new(alloc);
    for texts in mails {
        locked.push(Mutex::new(Mailbox::new(texts)))?;
    }
    Ok(LockedMail { list: locked })
}

// As many sites are opened as the program has, 1 to 256, each with its mail. It does nothing.
fn are_opened(program: &Program, code: &Code, tree: &LocTree, sites: &Sites, mail: &Mails)
    requires code { IsCodeOf program.now code.now }
    requires opened { IsOpenedAs program.now.version code.now tree.now sites.now mail.now }
    ensures count { length sites.now ≡ length program.now.sites }
    ensures some { IsCountOfSites (length program.now.sites) }
    ensures boxes { length mail.now ≡ length sites.now }
{
    let _tops = &program.tops;
}

// Sites and their mail, behind their locks.
fn lock_both(
    alloc: Global,
    sites: Sites,
    mail: Mails,
    code: &SharedCode,
) -> Result<LockedBoth, Memory>
    requires spelled { Each (Each IsMessageText) mail }
    ensures sites { IfOk result (λ both. vec_len both.sites.list ≡ length sites) }
    ensures mail { IfOk result (λ both. vec_len both.mail.list ≡ length mail) }
{
    match lock_sites(alloc, sites.into_vec(), code) {
        Ok(sites) => match lock_mail(alloc, mail.into_vec()) {
            Ok(mail) => Ok(LockedBoth { sites, mail }),
            Err(memory) => {
                drop(sites);
                Err(memory)
            }
        },
        Err(memory) => {
            drop(mail);
            Err(memory)
        }
    }
}

// What the network and its sites share, and the program that it is opened for.
#[derive(Drop)]
struct Common {
    program: Program,
    code: SharedCode,
    tree: SharedTree,
}

// Copies of a program and of its code, and the tree.
fn common_of(alloc: Global, program: &Program, code: &Code, tree: LocTree) -> Result<Common, Memory>
    ensures { IfOk result (λ common. common.program ≡ program.now) }
{
    let tree = SharedTree::new(alloc, tree)?;
    let Ok(code) = SharedCode::new(alloc, code) else {
        drop(tree);
        return Err(Memory);
    };
    match program.copy(alloc) {
        Ok(program) => Ok(Common {
            program,
            code,
            tree,
        }),
        Err(memory) => {
            drop(code);
            drop(tree);
            Err(memory)
        }
    }
}

// All of a network but its book.
fn parts_of(
    alloc: Global,
    common: Common,
    budget: u32,
    sites: Sites,
    mail: Mails,
) -> Result<Parts, Memory>
    requires some { IsCountOfSites (length sites) }
    requires boxes { length mail ≡ length sites }
    requires spelled { Each (Each IsMessageText) mail }
    ensures { IfOk result (λ parts. parts ≡ record {
      program = common.program;
      budget = budget;
      sites = length sites;
    }) }
{
    match lock_both(alloc, sites, mail, &common.code) {
        Ok(both) => {
            let Common {
                program,
                code,
                tree,
            } = common;
            let LockedBoth { sites, mail } = both;
            let tree = LockedTree {
                lock: RwLock::new(KeptTree::new(tree)),
            };
            Ok(Parts {
                program,
                code,
                budget,
                tree,
                sites,
                mail,
            })
        }
        Err(memory) => {
            drop(common);
            Err(memory)
        }
    }
}

// Puts all that was opened behind its locks.
fn lock_all<L: Run>(
    alloc: Global,
    program: &Program,
    code: &Code,
    budget: u32,
    opened: Opened<L>,
) -> Result<SharedNet<L>, Memory>
    requires some { IsCountOfSites (length opened.sites) }
    requires boxes { length opened.mail ≡ length opened.sites }
    requires spelled { Each (Each IsMessageText) opened.mail }
    requires program { program.now ≡ L.program }
    ensures { IfOk result (λ net. net ≡ record {
      program = program.now;
      budget = budget;
      sites = length opened.sites;
    }) }
{
    let Opened {
        tree,
        sites,
        mail,
        locked,
    } = opened;
    match common_of(alloc, program, code, tree) {
        Ok(common) => match parts_of(alloc, common, budget, sites, mail) {
            Ok(parts) => Ok(SharedNet {
                parts,
                locked: Mutex::new(locked),
            }),
            Err(memory) => {
                drop(locked);
                Err(memory)
            }
        },
        Err(memory) => {
            drop(sites);
            drop(mail);
            drop(locked);
            Err(memory)
        }
    }
}

impl<L: Run> SharedNet<L> {
    /// The network of a program's opening, with new passes, numbered from 1. The blank ledger has a
    /// part for each pass.
    pub fn start(
        alloc: Global,
        program: &Program,
        code: &Code,
        passes: u32,
        budget: u32,
        blank: Blank,
    ) -> Result<(SharedNet<L>, Passes<L>), Memory>
        requires code { IsCodeOf program.now code.now }
        requires passes { (1 ≤ passes) × (passes ≤ 16) }
        requires budget { budget ≤ 4000000 }
        requires name { blank.name ≡ L.name }
        requires parts { blank.parts ≡ L.parts }
        requires one_each { blank.parts ≡ passes }
        requires program { program.now ≡ L.program }
        ensures net { IfOk result (λ r. r.0 ≡ record {
          program = program.now;
          budget = budget;
          sites = length program.now.sites;
        }) }
        ensures passes { IfOk result (λ r. r.1 ≡ new_passes budget 1 passes) }
    {
        let (opened, passes) = prepare::<L>(alloc, program, code, passes, budget, blank)?;
        are_opened(program, code, &opened.tree, &opened.sites, &opened.mail);
        match lock_all(alloc, program, code, budget, opened) {
            Ok(net) => Ok((net, passes)),
            Err(memory) => {
                drop(passes);
                Err(memory)
            }
        }
    }

    /// How many sites there are.
    pub fn sites(&self) -> u32
        ensures count { result ≡ self.now.sites }
        ensures some { IsCountOfSites result }
    {
        self.parts.count()
    }

    /// Ends the run: its book, where the receipts of all its passes agree with it, and a report of
    /// what each pass held. On want of memory the network and the passes come back.
    pub fn close(
        self,
        alloc: Global,
        passes: Passes<L>,
    ) -> Result<Closed, (SharedNet<L>, Passes<L>, Memory)>
        requires whole { length passes ≡ L.parts }
        requires some { 0 < length passes }
        requires apart { DifferInNumber (map row_of passes) }
        requires budget { HaveBudget self.budget passes }
        ensures closed { IfOk result (Closes self.program self.budget (map row_of passes)) }
        ensures back { IfErr result (λ r. (r.0 ≡ self) × (r.1 ≡ passes)) }
    {
        let SharedNet { parts, locked } = self;
        let locked = locked.into_inner();
        match settle(alloc, &locked, &passes) {
            Ok(settled) => {
                drop(parts);
                Ok(finish(locked, passes, settled))
            }
            Err(memory) => {
                let locked = Mutex::new(locked);
                Err((SharedNet { parts, locked }, passes, memory))
            }
        }
    }
}

impl Parts {
    // How many sites there are.
    pub(crate) fn count(&self) -> u32
        ensures count { result ≡ self.now.sites }
        ensures some { IsCountOfSites result }
    {
        self.sites.list.len() as u32
    }
}
