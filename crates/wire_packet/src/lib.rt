//! What passes between sites, and its bytes.
#![tactic(auto)]

mod fault;
mod ids;
mod packet;
mod parcel;
mod reading;
mod shared;
mod writing;

pub use fault::DecodeEnd;
pub use packet::{
    Ask, Flight, Flights, GroupInst, GroupInsts, Msg, Request, Requests, Waiting, WaitingList,
    copy_flights, copy_groups, copy_waiting,
};
pub use parcel::{Packet, Parcel};
pub use reading::{decode, front_decides, one_outcome, one_spelling};
pub use shared::SharedEnv;
pub use writing::encode;
