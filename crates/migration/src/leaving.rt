// What a location takes along: all that stands there but the request by which it moves.
ghost use Rattle.std.specs.Prelude.{◌≡◌, ◌+◌, ◌++◌, take, drop};
ghost use Rattle.chem_model.specs.Apply.{same_atom};
ghost use Rattle.net_laws.specs.Holding.{without_request};

use chem_model::AtomId;
use wire_packet::{Parcel, Request, Requests};

fn is_same(one: AtomId, other: AtomId) -> bool
    ensures { result ≡ same_atom one other }
{
    one.site == other.site && one.k == other.k
}

// The place of the request with this id, or the number of requests where there is none.
fn place_of(requests: &[Request], atom: AtomId) -> usize
    ensures { take result requests.now ++ drop (result + 1) requests.now
        ≡ without_request atom requests.now }
{
    for index in 0..requests.len() {
        let request = &requests[index];
        if is_same(request.id, atom) {
            return index;
        }
    }
    requests.len()
}

// Drops the request with this id, where there is one.
fn drop_from(requests: &mut Requests, atom: AtomId)
    ensures { requests.new ≡ without_request atom requests.old }
{
    let place = place_of(requests.as_slice(), atom);
    if place < requests.len() {
        requests.remove(place);
    }
}

// The parcel without this request.
pub(crate) fn leave_out(parcel: Parcel, atom: AtomId) -> Parcel
    ensures { result ≡ record parcel { requests = without_request atom parcel.requests } }
{
    let Parcel {
        loc,
        groups,
        waiting,
        mut requests,
    } = parcel;
    drop_from(&mut requests, atom);
    Parcel {
        loc,
        groups,
        waiting,
        requests,
    }
}
