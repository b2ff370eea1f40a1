// The requests of all sites, in the order of their ids, and the choices that meet them.
ghost use Rattle.std.specs.Prelude.{◌≡◌, ◌<◌, ◌++◌, [], length, slice_get, Some, IfOk, OnOk};
ghost use Rattle.std.specs.Prelude.{IsTrue};
ghost use Rattle.net_core.specs.Asking.{in_order, requests_of, choices_for};
ghost use Rattle.net_core.specs.inside.Rests.{asked_by, AskNoMore, AreStill};

use crate::choice::Choices;
use crate::searching::choice_for;
use chem_model::{Items, Memory};
use site_solution::{Site, site_is_kept};
use std::alloc::Global;
use wire_packet::Request;

// How many requests a site has.
fn count_requests(site: &Site) -> u32
    ensures { result ≡ length site.now.requests }
{
    site_is_kept(site);
    let mut count = 0;
    while let Some(_request) = site.request_at(count) {
        count += 1;
    }
    count
}

// The request of a site at this place.
fn request_there(site: &Site, place: u32) -> Request
    requires { place < length site.now.requests }
    ensures { slice_get site.now.requests place ≡ Some result }
{
    match site.request_at(place) {
        Some(request) => *request,
        None => unreachable!(),
    }
}

// Adds the requests of a site behind others.
fn add_requests(requests: &mut Vec<Request>, site: &Site) -> Result<(), Memory>
    ensures { OnOk result (requests.new.items ≡ requests.old.items ++ site.now.requests) }
{
    for place in 0..count_requests(site) {
        requests.push(request_there(site, place))?;
    }
    Ok(())
}

// Puts requests in the order of their ids. Where they stand so already, it takes no longer than to
// read them.
fn put_in_order(requests: &mut Vec<Request>) -> Result<(), Memory>
    ensures { OnOk result (requests.new.items ≡ in_order requests.old.items []) }
{
    requests.sort_by_key(|request| (request.id.site, request.id.k))?;
    Ok(())
}

// The requests of these sites, in the order of their ids.
fn all_requests(alloc: Global, sites: &[Site]) -> Result<Vec<Request>, Memory>
    ensures { IfOk result (λ requests. requests.items ≡ requests_of sites.now) }
{
    let mut requests = Vec::new(alloc);
    for site in sites {
        add_requests(&mut requests, site)?;
    }
    put_in_order(&mut requests)?;
    Ok(requests)
}

// One choice for each request of these sites, in the order of their ids.
pub(crate) fn all_asks(alloc: Global, sites: &[Site]) -> Result<Choices, Memory>
    ensures { IfOk result (λ xs. xs ≡ choices_for (requests_of sites.now)) }
{
    let requests = all_requests(alloc, sites)?;
    let mut choices = Items::new(alloc);
    for request in &requests {
        choices.push(choice_for(request))?;
    }
    Ok(choices)
}

// How many requests each of these sites has.
pub(crate) fn asked_by(alloc: Global, sites: &[Site]) -> Result<Vec<u32>, Memory>
    ensures { IfOk result (λ asked. asked.items ≡ asked_by sites.now) }
{
    let mut asked = Vec::new(alloc);
    for site in sites {
        asked.push(count_requests(site))?;
    }
    Ok(asked)
}

// Whether none of these sites has more requests than its number says.
fn ask_no_more(sites: &[Site], asked: &[u32]) -> bool
    ensures { IsTrue result → AskNoMore sites.now asked.now }
{
    for (at, count) in asked.iter().enumerate() {
        if at < sites.len() && sites[at].request_at(*count).is_some() {
            return false;
        }
    }
    true
}

// Forgets how many requests the sites had where one has more.
pub(crate) fn keep_asked(asked: &mut Vec<u32>, sites: &[Site])
    ensures { AreStill sites.now asked.old.items asked.new.items }
{
    if !ask_no_more(sites, asked.as_slice()) {
        asked.clear();
    }
}
