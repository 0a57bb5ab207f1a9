//! Calls, and the messages that carry them.
ghost use Rattle.std.specs.Prelude.{◌≡◌, []};
ghost use Rattle.eden_model.specs.Traffic.{asking_station, waiting_process};
ghost use Rattle.invocation.specs.Mail.{over, spent, asked_call, asked_by, number_of};
ghost use Rattle.invocation.specs.Listed.{is_live};

use capability::{Cap, Uid};
use eden_model::Asker;
use eden_value::{Items, Status, Txt};
use std::alloc::Global;

/// A call: who asked what of whom.
///
/// The arguments are there until the call is answered, or lost with the message that carries them.
/// A call that is refused as it is asked keeps none.
#[derive(Drop)]
pub struct Call {
    pub asker: Asker,
    pub target: Cap,
    pub operation: Txt,
    pub args: Items,
    /// Whether the call was answered, broken or given up. A closed call stays closed.
    pub closed: bool,
}

/// The number of a new call, and the status that refuses it at once, if any.
#[derive(Clone, Copy, Debug)]
pub struct Asked {
    pub call: u32,
    pub at_once: Option<Status>,
}

/// What travels from one station to another.
#[derive(Drop)]
pub enum Message {
    Request {
        call: u32,
    },
    /// A reply has results where its status is Ok.
    Reply {
        call: u32,
        status: Status,
        results: Items,
    },
}

/// What has arrived at a station.
#[derive(Drop)]
pub enum Delivery {
    Request {
        call: u32,
    },
    /// A reply has results where its status is Ok.
    Reply {
        call: u32,
        status: Status,
        results: Items,
        /// Whether the call was open until now, so that this is its answer.
        was_open: bool,
        /// The process that asked. None where the shell did.
        process: Option<(Uid, u8)>,
    },
}

impl Message {
    /// The call that the message is of.
    pub fn number(&self) -> u32
        ensures { result ≡ number_of self.now }
    {
        match self {
            Message::Request { call } => *call,
            Message::Reply { call, .. } => *call,
        }
    }
}

/// The station of the asker, to which a reply goes.
pub fn station(asker: &Asker) -> u8
    ensures { result ≡ asking_station asker.now }
{
    match asker {
        Asker::Shell { .. } => 0,
        Asker::Eject { uid, .. } => uid.node,
    }
}

/// A new call. It is closed, and keeps no arguments, where it was refused at once.
pub fn new_call(
    alloc: Global,
    asker: Asker,
    target: Cap,
    operation: Txt,
    args: Items,
    refused: bool,
) -> Call
    ensures { result ≡ asked_call asker target operation args refused }
{
    let args = if refused { no_items(alloc) } else { args };
    Call {
        asker,
        target,
        operation,
        args,
        closed: refused,
    }
}

/// No values.
fn no_items(alloc: Global) -> Items
    ensures { result ≡ [] }
{
    Items {
        values: Vec::new(alloc),
    }
}

/// The process that asked. None where the shell did.
fn process_of(asker: &Asker) -> Option<(Uid, u8)>
    ensures { result ≡ waiting_process asker.now }
{
    match asker {
        Asker::Shell { .. } => None,
        Asker::Eject { uid, process } => Some((*uid, *process)),
    }
}

impl Call {
    /// The process that asked. None where the shell did.
    pub fn process(&self) -> Option<(Uid, u8)>
        ensures { result ≡ waiting_process self.now.asker }
    {
        process_of(&self.asker)
    }

    /// Whether it is open, or has its arguments still.
    pub fn is_live(&self) -> bool
        ensures { result ≡ is_live self.now }
    {
        !self.closed || !self.args.values.is_empty()
    }

    /// The arguments are let go.
    pub fn spend(&mut self, alloc: Global)
        ensures { self.new ≡ spent self.old }
    {
        self.args = no_items(alloc);
    }

    /// The call is over: it is closed, and its arguments are let go.
    pub fn finish(&mut self, alloc: Global)
        ensures { self.new ≡ over self.old }
    {
        self.closed = true;
        self.args = no_items(alloc);
    }

    /// Whether an Eject with this uid made the call.
    pub fn is_of(&self, uid: Uid) -> bool
        ensures { result ≡ asked_by uid self.now }
    {
        match &self.asker {
            Asker::Shell { .. } => false,
            Asker::Eject { uid: own, .. } => *own == uid,
        }
    }
}
