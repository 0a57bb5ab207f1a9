//! What a call is to do, by what a node has of the Eject.
ghost use Rattle.std.specs.Prelude.{◌≡◌, ℕ, Bool, IfOk, Some, None, Option};
ghost use Rattle.eden_value.specs.Datum.{Datum};
ghost use Rattle.eden_value.specs.View.{datum};
ghost use Rattle.move_laws.specs.Wander.{Record as AnyRecord, Here as here_record};
ghost use Rattle.move_laws.specs.World.{Due as AnyDue, Puts, Learnt, needing_here, make_by, wake_by, save_by, lend_by, again_by};
ghost use Rattle.move_laws.specs.World.{take_by, close_by, due_by, reads};
ghost use Rattle.std.specs.Option.{option_map};
ghost use Rattle.eden_move.specs.Minds.{seen_known, as_memory, as_active};
ghost use Rattle.eden_move.specs.Calls.{seen_call, seen_due, Finds, IsRead, by_here, AnswersFor, KeepsRunning, IsRunning};
ghost use Rattle.move_laws.specs.World.{Make as make_call, Wake as wake_call, Save as save_call, Lend as lend_call, Again as again_call};
ghost use Rattle.move_laws.specs.World.{TakeIt, CloseIt};

use crate::letter::Letter;
use crate::mind::Known;
use crate::record::Record;
use crate::refusal::MoveRefusal;
use capability::Uid;
use eden_value::{Value, copy};
use std::alloc::{AllocError, Global};

/// What is asked of a node about an Eject.
#[derive(Drop)]
pub enum Call {
    /// Make it, with this value.
    Make {
        value: Value,
    },
    /// Make it active.
    Wake,
    /// Keep this value.
    Save {
        value: Value,
    },
    /// Lend it to this node.
    Lend {
        to: u8,
    },
    /// Give its letter anew.
    Again,
    /// A letter came from this node: take it.
    Take {
        from: u8,
        generation: u32,
        value: Value,
    },
    /// A letter came from this node: it is known there.
    Close {
        from: u8,
        generation: u32,
    },
}

/// What was found of an Eject in a settled store.
#[derive(Drop)]
pub enum Found {
    /// No record.
    Nothing,
    /// A record, which was not read.
    Unread,
    /// Bytes that spell no record.
    Spoilt,
    /// This record.
    Kept { record: Record },
}

/// What becomes of what is in memory of an Eject.
#[derive(Drop)]
pub enum Memory {
    /// It goes.
    Forgotten,
    /// It stays.
    Same,
    /// This is known from now on.
    Learnt {
        active: bool,
        generation: u32,
        value: Value,
    },
}

/// What a call answers beside Ok.
#[derive(Drop)]
pub enum Answer {
    Nothing,
    /// The value of an Eject.
    Shown { value: Value },
    /// A letter.
    Sent { letter: Letter },
}

/// What a call is to do.
#[derive(Drop)]
pub enum Due {
    /// It is refused.
    Refuses {
        refusal: MoveRefusal,
    },
    /// It answers without a put.
    Gives {
        memory: Memory,
        answer: Answer,
    },
    /// It puts a record, and then answers.
    Puts {
        record: Record,
        memory: Memory,
        answer: Answer,
    },
}

/// Whether an Eject is here, with its generation and its value.
#[derive(Drop)]
enum Here {
    At { generation: u32, value: Value },
    Not { refusal: MoveRefusal },
}

/// Whether a record that was found is here.
fn read_here(found: Found) -> Here
    requires { IsRead found }
    ensures here { (kept : Option (Option (AnyRecord Datum))) (f : ℕ → Datum → AnyDue Datum)
        → Finds found kept → needing_here kept None f ≡ by_here result f }
    ensures running { IsRunning result }
{
    match found {
        Found::Nothing => Here::Not {
            refusal: MoveRefusal::Unknown,
        },
        Found::Unread => unreachable!(),
        Found::Spoilt => Here::Not {
            refusal: MoveRefusal::Damaged,
        },
        Found::Kept { record } => match record {
            Record::Here { generation, value } => Here::At { generation, value },
            Record::Lent { to, .. } => Here::Not {
                refusal: MoveRefusal::Lent { to },
            },
            Record::Gone { to, .. } => Here::Not {
                refusal: MoveRefusal::Gone { to },
            },
        },
    }
}

/// The same by what is in memory, where that has it.
fn found_here(alloc: Global, found: Found, known: Option<&Known>) -> Result<Here, AllocError>
    requires { known ≡ None → IsRead found }
    ensures here { IfOk result (λ h. (kept : Option (Option (AnyRecord Datum))) (f : ℕ → Datum → AnyDue Datum)
        → Finds found kept → needing_here kept (as_memory (option_map (λ k. seen_known k.now) known.entry)) f ≡ by_here h f) }
    ensures running { IfOk result IsRunning }
{
    let Some(known) = known else {
        return Ok(read_here(found));
    };
    if matches!(found, Found::Nothing) {
        return Ok(Here::Not {
            refusal: MoveRefusal::Unknown,
        });
    }
    Ok(Here::At {
        generation: known.generation,
        value: copy(alloc, &known.value)?,
    })
}

/// A record that is here is put, and known from then on.
fn put_here(alloc: Global, generation: u32, value: Value, active: bool) -> Result<Due, AllocError>
    ensures due { IfOk result (λ d. seen_due d ≡ Puts (here_record generation (datum value))
        (Learnt active generation (datum value)) None) }
    ensures make { (u : Uid) (v : Datum) → IfOk result (AnswersFor u (make_call v)) }
    ensures save { (u : Uid) (v : Datum) → IfOk result (AnswersFor u (save_call v)) }
    ensures running { IfOk result KeepsRunning }
{
    Ok(Due::Puts {
        record: Record::Here {
            generation,
            value: copy(alloc, &value)?,
        },
        memory: Memory::Learnt {
            active,
            generation,
            value,
        },
        answer: Answer::Nothing,
    })
}

/// What a make is to do.
fn make_due(alloc: Global, value: Value, found: Found) -> Result<Due, AllocError>
    ensures due { IfOk result (λ d. (kept : Option (Option (AnyRecord Datum))) → Finds found kept
        → seen_due d ≡ make_by (datum value) kept) }
    ensures answers { (u : Uid) → IfOk result (AnswersFor u (make_call (datum value))) }
    ensures running { IfOk result KeepsRunning }
{
    if matches!(found, Found::Nothing) {
        put_here(alloc, 1, value, false)
    } else {
        Ok(Due::Refuses {
            refusal: MoveRefusal::There,
        })
    }
}

/// What a waking is to do.
fn wake_due(alloc: Global, found: Found) -> Result<Due, AllocError>
    requires { IsRead found }
    ensures due { IfOk result (λ d. (kept : Option (Option (AnyRecord Datum))) → Finds found kept
        → seen_due d ≡ needing_here kept None wake_by) }
    ensures answers { (u : Uid) → IfOk result (AnswersFor u wake_call) }
    ensures running { IfOk result KeepsRunning }
{
    match read_here(found) {
        Here::At { generation, value } => Ok(Due::Gives {
            memory: Memory::Learnt {
                active: true,
                generation,
                value: copy(alloc, &value)?,
            },
            answer: Answer::Shown { value },
        }),
        Here::Not { refusal } => Ok(Due::Refuses { refusal }),
    }
}

/// What a save is to do.
fn save_due(
    alloc: Global,
    value: Value,
    found: Found,
    known: Option<&Known>,
) -> Result<Due, AllocError>
    requires { known ≡ None → IsRead found }
    ensures due { IfOk result (λ d. (kept : Option (Option (AnyRecord Datum))) → Finds found kept
        → seen_due d ≡ needing_here kept (as_memory (option_map (λ k. seen_known k.now) known.entry))
        (save_by (datum value) (as_active (option_map (λ k. seen_known k.now) known.entry)))) }
    ensures answers { (u : Uid) → IfOk result (AnswersFor u (save_call (datum value))) }
    ensures running { IfOk result KeepsRunning }
{
    let active = match known {
        Some(known) => known.active,
        None => false,
    };
    match found_here(alloc, found, known)? {
        Here::At { generation, .. } => {
            if active {
                put_here(alloc, generation, value, true)
            } else {
                Ok(Due::Refuses {
                    refusal: MoveRefusal::Asleep,
                })
            }
        }
        Here::Not { refusal } => Ok(Due::Refuses { refusal }),
    }
}

/// What a lending of this Eject is to do.
fn lend_due(
    alloc: Global,
    uid: Uid,
    to: u8,
    found: Found,
    known: Option<&Known>,
) -> Result<Due, AllocError>
    requires { known ≡ None → IsRead found }
    ensures due { IfOk result (λ d. (kept : Option (Option (AnyRecord Datum))) → Finds found kept
        → seen_due d ≡ needing_here kept (as_memory (option_map (λ k. seen_known k.now) known.entry)) (lend_by to)) }
    ensures answers { IfOk result (AnswersFor uid (lend_call to)) }
    ensures running { IfOk result KeepsRunning }
{
    let (generation, value) = match found_here(alloc, found, known)? {
        Here::At { generation, value } => (generation, value),
        Here::Not { refusal } => return Ok(Due::Refuses { refusal }),
    };
    let Some(generation) = generation.checked_add(1) else {
        return Ok(Due::Refuses {
            refusal: MoveRefusal::GenerationsSpent,
        });
    };
    Ok(Due::Puts {
        record: Record::Lent {
            generation,
            to,
            value: copy(alloc, &value)?,
        },
        memory: Memory::Forgotten,
        answer: Answer::Sent {
            letter: Letter::Take {
                uid,
                to,
                generation,
                value,
            },
        },
    })
}

/// What is to be done where the letter of this Eject is asked for anew.
fn again_due(uid: Uid, found: Found) -> Due
    requires { IsRead found }
    ensures due { (kept : Option (Option (AnyRecord Datum))) → Finds found kept → seen_due result ≡ again_by kept }
    ensures answers { AnswersFor uid again_call result }
    ensures running { KeepsRunning result }
{
    match found {
        Found::Nothing => Due::Refuses {
            refusal: MoveRefusal::Unknown,
        },
        Found::Unread => unreachable!(),
        Found::Spoilt => Due::Refuses {
            refusal: MoveRefusal::Damaged,
        },
        Found::Kept { record } => match record {
            Record::Here { .. } => Due::Refuses {
                refusal: MoveRefusal::Unknown,
            },
            Record::Lent {
                generation,
                to,
                value,
            } => Due::Gives {
                memory: Memory::Same,
                answer: Answer::Sent {
                    letter: Letter::Take {
                        uid,
                        to,
                        generation,
                        value,
                    },
                },
            },
            Record::Gone { to, .. } => Due::Refuses {
                refusal: MoveRefusal::Gone { to },
            },
        },
    }
}

/// What is to be done where the letter of this Eject comes.
fn take_due(uid: Uid, from: u8, generation: u32, value: Value, found: Found) -> Due
    requires { IsRead found }
    ensures due { (kept : Option (Option (AnyRecord Datum))) → Finds found kept
        → seen_due result ≡ take_by from generation (datum value) kept }
    ensures answers { AnswersFor uid (TakeIt from generation (datum value)) result }
    ensures running { KeepsRunning result }
{
    let older = match found {
        Found::Nothing => true,
        Found::Unread => unreachable!(),
        Found::Spoilt => {
            return Due::Refuses {
                refusal: MoveRefusal::Damaged,
            };
        }
        Found::Kept { record } => record.generation() < generation,
    };
    let answer = Answer::Sent {
        letter: Letter::Known {
            uid,
            to: from,
            generation,
        },
    };
    if older {
        Due::Puts {
            record: Record::Here { generation, value },
            memory: Memory::Forgotten,
            answer,
        }
    } else {
        Due::Gives {
            memory: Memory::Same,
            answer,
        }
    }
}

/// What is to be done where it is known that an Eject was taken in this generation.
fn close_due(generation: u32, found: Found) -> Due
    requires { IsRead found }
    ensures due { (kept : Option (Option (AnyRecord Datum))) → Finds found kept → seen_due result ≡ close_by generation kept }
    ensures answers { (u : Uid) (from : ℕ) → AnswersFor u (CloseIt from generation) result }
    ensures running { KeepsRunning result }
{
    let to = match found {
        Found::Unread => unreachable!(),
        Found::Spoilt => {
            return Due::Refuses {
                refusal: MoveRefusal::Damaged,
            };
        }
        Found::Kept {
            record: Record::Lent {
                generation: lent,
                to,
                ..
            },
        } if lent == generation => to,
        _ => {
            return Due::Gives {
                memory: Memory::Same,
                answer: Answer::Nothing,
            };
        }
    };
    Due::Puts {
        record: Record::Gone { generation, to },
        memory: Memory::Forgotten,
        answer: Answer::Nothing,
    }
}

/// Whether a call reads a record that is there: not where it needs none, or has in memory what it needs.
pub fn reads(call: &Call, known: Option<&Known>) -> bool
    ensures { result ≡ reads (seen_call call.now) (as_memory (option_map (λ k. seen_known k.now) known.entry)) }
{
    match call {
        Call::Make { .. } => false,
        Call::Save { .. } | Call::Lend { .. } => known.is_none(),
        Call::Wake | Call::Again | Call::Take { .. } | Call::Close { .. } => true,
    }
}

/// What a call on an Eject is to do, by what was found, and by what is in memory.
pub fn due_of(
    alloc: Global,
    uid: Uid,
    call: Call,
    found: Found,
    known: Option<&Known>,
) -> Result<Due, AllocError>
    requires { reads (seen_call call) (as_memory (option_map (λ k. seen_known k.now) known)) ≡ Bool.true → IsRead found }
    ensures due { IfOk result (λ d. (kept : Option (Option (AnyRecord Datum))) → Finds found kept
        → seen_due d ≡ due_by (seen_call call) kept (as_memory (option_map (λ k. seen_known k.now) known.entry))
        (as_active (option_map (λ k. seen_known k.now) known.entry))) }
    ensures answers { IfOk result (AnswersFor uid (seen_call call)) }
    ensures running { IfOk result KeepsRunning }
{
    match call {
        Call::Make { value } => make_due(alloc, value, found),
        Call::Wake => wake_due(alloc, found),
        Call::Save { value } => save_due(alloc, value, found, known),
        Call::Lend { to } => lend_due(alloc, uid, to, found, known),
        Call::Again => Ok(again_due(uid, found)),
        Call::Take {
            from,
            generation,
            value,
        } => Ok(take_due(uid, from, generation, value, found)),
        Call::Close {
            from: _,
            generation,
        } => Ok(close_due(generation, found)),
    }
}
