// The mailbox of a site, which stands behind a lock of its own.
ghost use Rattle.std.specs.Prelude.{◌≡◌, [], ◌∷◌, ◌++◌, OnOk, OnErr};
ghost use Rattle.chem_model.specs.Each.{Each};
ghost use Rattle.site_turn.specs.Mail.{IsMessageText};

use chem_model::{Items, Memory, Text, Texts};
use std::alloc::Global;
use std::marker::Model;
use std::mem;

// The mail of a site, seen as its texts. Each is the spelling of a packet with a message.
#[derive(Drop)]
pub(crate) struct Mailbox {
    texts: Texts,
}

impl Model for Mailbox {
    ghost use Rattle.std.specs.Prelude.{List, ℕ};
    ghost use Rattle.std.specs.Coded.{coded_list, coded_ℕ};
    ghost use Rattle.chem_model.specs.Each.{Each};
    ghost use Rattle.site_turn.specs.Mail.{IsMessageText};

    ghost Value = { List (List ℕ) };

    ghost coded = { coded_list (coded_list coded_ℕ) };

    ghost view = { λ m. m.texts };

    ghost invariant = { λ m. Each IsMessageText m.texts };
}

impl Mailbox {
    pub(crate) fn new(texts: Texts) -> Mailbox
        requires { Each IsMessageText texts }
        ensures { result ≡ texts }
    {
        Mailbox { texts }
    }

    // Adds a text behind the others.
    #[tactic(auto, using(crate::proofs::Posting::one_more))]
    pub(crate) fn put(&mut self, text: Text) -> Result<(), Memory>
        requires { IsMessageText text }
        ensures ok { OnOk result (self.new ≡ self.old ++ text ∷ []) }
        ensures err { OnErr result (self.new ≡ self.old) }
    {
        self.texts.push(text)
    }

    // Takes all texts out.
    pub(crate) fn empty(&mut self, alloc: Global) -> Texts
        ensures texts { result ≡ self.old }
        ensures spelled { Each IsMessageText result }
        ensures empty { self.new ≡ [] }
    {
        mem::replace(&mut self.texts, Items::new(alloc))
    }
}
