// What stands behind the locks of the tree and of a site.
ghost use Rattle.std.specs.Prelude.{◌≡◌, false, None};
ghost use Rattle.site_turn.specs.Kept.{Knows, HasKept};

use crate::fitted::Fitted;
use crate::shared::{SharedCode, SharedTree};
use site_solution::Site;
use std::sync::atomic::{AtomicU32, Ordering};

/// The tree, and how many turns found it as it is, up to as many as make it worth being lent.
#[derive(Drop)]
pub struct KeptTree {
    pub tree: SharedTree,
    turns: AtomicU32,
}

// After so many turns that found the tree as it is, once it was changed, sites have it too.
const TURNS: u32 = 16;

impl KeptTree {
    /// A tree that sites may have at their first turn.
    pub fn new(tree: SharedTree) -> KeptTree
        ensures { result.tree ≡ tree }
    {
        KeptTree {
            tree,
            turns: AtomicU32::new(TURNS),
        }
    }

    // One turn more found it as it is. Whether sites may have it too.
    fn is_found(&self) -> bool {
        if self.turns.load(Ordering::SeqCst) >= TURNS {
            return true;
        }
        let _before = self.turns.fetch_add(1, Ordering::SeqCst);
        false
    }

    /// It is about to be changed. Whether sites may have it.
    pub fn is_taken(&mut self) -> bool
        ensures { self.new.tree ≡ self.old.tree }
    {
        self.turns.swap(0, Ordering::SeqCst) >= TURNS
    }
}

/// A site, and the tree by which it is known to have what the calls over it need, with the code of
/// the run. While a site has the tree nobody changes it.
#[derive(Drop)]
pub struct KeptSite {
    pub held: Fitted,
    pub tree: Option<SharedTree>,
    pub code: SharedCode,
    ghost known: { Knows held tree code },
}

impl KeptSite {
    /// Nothing is known of it.
    pub fn new(site: Site, code: SharedCode) -> KeptSite
        ensures site { result.held.site ≡ site }
        ensures code { result.code ≡ code }
    {
        KeptSite {
            held: Fitted { site, fits: false },
            tree: None,
            code,
        }
    }

    /// Gives the tree back, if it has it. Nothing is known of it then.
    pub fn give_back(&mut self)
        ensures fits { self.new.held.fits ≡ false }
        ensures tree { self.new.tree ≡ None }
        ensures site { self.new.held.site ≡ self.old.held.site }
        ensures code { self.new.code ≡ self.old.code }
    {
        self.held.fits = false;
        self.tree = None;
    }

    /// A turn of it finds the tree as it is: it has it from now on, where enough turns did.
    pub fn find(&mut self, kept: &KeptTree)
        ensures tree { HasKept kept.now.tree self.old.tree self.new.tree }
        ensures site { self.new.held.site ≡ self.old.held.site }
        ensures code { self.new.code ≡ self.old.code }
    {
        if self.tree.is_some() {
            return;
        }
        if kept.is_found() {
            self.held.fits = false;
            self.tree = kept.tree.share().ok();
        }
    }
}
