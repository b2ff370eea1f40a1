// The sites of a run, and their mail.
ghost use Rattle.std.specs.Prelude.{◌≡◌, IfOk};

use chem_model::{Memory, Texts};
use site_solution::Site;
use std::alloc::Global;
use std::marker::Model;

/// The sites by their numbers.
#[derive(Drop)]
pub struct Sites {
    list: Vec<Site>,
}

impl Model for Sites {
    ghost use Rattle.std.specs.Prelude.{List};
    ghost use Rattle.std.specs.Coded.{coded_list};
    ghost use Rattle.net_laws.specs.Site.{Site as site_of_net};
    ghost use Rattle.site_solution.specs.contracts.site.Site as site;

    ghost Value = { List site_of_net };

    ghost coded = { coded_list site.the_row.coded };

    ghost view = { λ s. s.list.items };
}

impl Sites {
    pub(crate) fn from_vec(list: Vec<Site>) -> Sites
        ensures { result ≡ list.items }
    {
        Sites { list }
    }

    pub fn into_vec(self) -> Vec<Site>
        ensures { result.items ≡ self }
    {
        let Sites { list } = self;
        list
    }

    pub fn as_slice(&self) -> &[Site]
        ensures { result.now ≡ self.now }
    {
        self.list.as_slice()
    }
}

/// The mail of each site, by their numbers: each text is the spelling of a packet with a message.
#[derive(Drop)]
pub struct Mails {
    list: Vec<Texts>,
}

impl Model for Mails {
    ghost use Rattle.std.specs.Prelude.{List, ℕ};
    ghost use Rattle.std.specs.Coded.{coded_list, coded_ℕ};

    ghost Value = { List (List (List ℕ)) };

    ghost coded = { coded_list (coded_list (coded_list coded_ℕ)) };

    ghost view = { λ m. m.list.items };
}

impl Mails {
    pub(crate) fn from_vec(list: Vec<Texts>) -> Mails
        ensures { result ≡ list.items }
    {
        Mails { list }
    }

    /// A list that is equal to this one.
    pub fn copy(&self, alloc: Global) -> Result<Mails, Memory>
        ensures { IfOk result (λ copy. copy ≡ self.now) }
    {
        let mut list = Vec::new(alloc);
        for member in self.list.as_slice() {
            list.push(member.copy(alloc)?)?;
        }
        Ok(Mails { list })
    }

    pub fn into_vec(self) -> Vec<Texts>
        ensures { result.items ≡ self }
    {
        let Mails { list } = self;
        list
    }

    pub fn as_slice(&self) -> &[Texts]
        ensures { result.now ≡ self.now }
    {
        self.list.as_slice()
    }
}
