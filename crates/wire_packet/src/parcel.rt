// What is sent: a message, or a location with all that stands at it.
ghost use Rattle.std.specs.Prelude.{◌≡◌, IfOk};

use crate::packet::{GroupInsts, Msg, Requests, WaitingList, copy_groups, copy_waiting};
use chem_model::{Loc, Memory};
use std::alloc::Global;
use std::marker::Model;

/// A location with all that stands at it: its groups, the messages that wait there in the order of
/// their queues, and its requests in the order of their ids.
///
/// Each parcel keeps the facts of `IsParcel`: all that it holds stands at its location, a waiting
/// message on a channel at the channel's home, the ids of waiting messages and requests are all
/// different, those of requests rise, and no list has 2^32 members. Whoever writes one proves them,
/// and whoever reads a field knows them.
#[derive(Debug, Drop)]
pub struct Parcel {
    pub loc: Loc,
    pub groups: GroupInsts,
    pub waiting: WaitingList,
    pub requests: Requests,
}

impl Model for Parcel {
    ghost use Rattle.wire_packet.specs.ParcelFacts.{ParcelParts, IsParcel, parcel_code};

    ghost Value = { ParcelParts };

    ghost coded = { parcel_code };

    ghost view = { λ p. record {
      loc = p.loc;
      groups = p.groups;
      waiting = p.waiting;
      requests = p.requests;
    } };

    ghost invariant = { λ p. IsParcel (record {
      loc = p.loc;
      groups = p.groups;
      waiting = p.waiting;
      requests = p.requests;
    }) };
}

impl Parcel {
    /// A parcel that is equal to this one.
    pub fn copy(&self, alloc: Global) -> Result<Parcel, Memory>
        ensures { IfOk result (λ copy. copy ≡ self.now) }
    {
        let groups = copy_groups(alloc, &self.groups)?;
        let waiting = copy_waiting(alloc, &self.waiting)?;
        let requests = self.requests.copy(alloc)?;
        Ok(Parcel {
            loc: self.loc,
            groups,
            waiting,
            requests,
        })
    }
}

/// What passes from site to site: a message that goes to its channel's home, or a location that
/// moves.
#[derive(Debug, Drop)]
pub enum Packet {
    Message(Msg),
    Parcel(Parcel),
}

impl Packet {
    /// A packet that is equal to this one.
    pub fn copy(&self, alloc: Global) -> Result<Packet, Memory>
        ensures { IfOk result (λ copy. copy ≡ self.now) }
    {
        match self {
            Packet::Message(msg) => Ok(Packet::Message(msg.copy(alloc)?)),
            Packet::Parcel(parcel) => Ok(Packet::Parcel(parcel.copy(alloc)?)),
        }
    }
}
