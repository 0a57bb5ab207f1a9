//! Words and numbers of lines.
ghost use Rattle.std.specs.Prelude.{◌≡◌, ◌++◌, OnOk};
ghost use Rattle.std.specs.Fmt.{decimal};
ghost use Rattle.eden_value.specs.Printed.{printed_uid};
ghost use Rattle.journal.specs.Lines as text;
ghost use Rattle.journal.specs.declared.event.Shown.TheVariants.{Created};

use crate::{BootEnd, RequestEnd, Shown, StartEnd};
use capability::Uid;
use eden_disk::ImageMode;
use epl_syntax::FaultCause;
use itoa::Buffer;
use passive_store::Pick;
use std::alloc::AllocError;

// a blank and a number
pub fn add_num(n: u64, out: &mut Vec<u8>) -> Result<(), AllocError>
    ensures { OnOk result (out.new.items ≡ out.old.items ++ text.num n) }
{
    out.push(b' ')?;
    let mut digits = Buffer::new();
    out.extend_from_slice(digits.format(n).as_bytes())
}

// a word, a blank and a number
pub fn add_numbered(word: &[u8], n: u64, out: &mut Vec<u8>) -> Result<(), AllocError>
    ensures { OnOk result (out.new.items ≡ out.old.items ++ (word.now ++ text.num n)) }
{
    out.extend_from_slice(word)?;
    add_num(n, out)
}

// a blank and a number that may be wide
pub fn add_count(n: u128, out: &mut Vec<u8>) -> Result<(), AllocError>
    ensures { OnOk result (out.new.items ≡ out.old.items ++ text.num n) }
{
    out.push(b' ')?;
    let mut digits = Buffer::new();
    out.extend_from_slice(digits.format(n).as_bytes())
}

fn add_decimal(n: u32, out: &mut Vec<u8>) -> Result<(), AllocError>
    ensures { OnOk result (out.new.items ≡ out.old.items ++ decimal n) }
{
    let mut digits = Buffer::new();
    out.extend_from_slice(digits.format(n).as_bytes())
}

pub fn add_uid(uid: Uid, out: &mut Vec<u8>) -> Result<(), AllocError>
    ensures { OnOk result (out.new.items ≡ out.old.items ++ printed_uid uid) }
{
    add_decimal(u32::from(uid.node), out)?;
    out.push(b'.')?;
    add_decimal(uid.epoch, out)?;
    out.push(b'.')?;
    add_decimal(uid.serial, out)
}

pub fn start_word(end: StartEnd) -> &'static str
    ensures { result.now ≡ text.start_word end }
{
    match end {
        StartEnd::Ok => "ok",
        StartEnd::Gone => "gone",
        StartEnd::Fault => "fault",
        StartEnd::Damaged => "damaged",
        StartEnd::Stop => "stop",
    }
}

pub fn request_word(end: RequestEnd) -> &'static str
    ensures { result.now ≡ text.request_word end }
{
    match end {
        RequestEnd::Part => "part",
        RequestEnd::Done => "done",
        RequestEnd::Fault => "fault",
        RequestEnd::Full => "full",
        RequestEnd::Stop => "stop",
    }
}

pub fn fault_word(cause: FaultCause) -> &'static str
    ensures { result.now ≡ text.fault_word cause }
{
    match cause {
        FaultCause::Overflow => "overflow",
        FaultCause::ZeroDivisor => "zero divisor",
        FaultCause::BadIndex => "bad index",
        FaultCause::BadKind => "bad kind",
        FaultCause::TooLong => "too long",
        FaultCause::TooDeep => "too deep",
        FaultCause::BadMask => "bad mask",
        FaultCause::NoCapability => "no capability",
        FaultCause::NoReturn => "no return",
        FaultCause::Budget => "budget",
    }
}

pub fn pick_word(pick: Option<Pick>) -> &'static str
    ensures { result.now ≡ text.pick_word pick }
{
    match pick {
        None => "-",
        Some(Pick::Old) => "old",
        Some(Pick::New) => "new",
    }
}

pub fn add_boot_word(end: BootEnd, out: &mut Vec<u8>) -> Result<(), AllocError>
    ensures { OnOk result (out.new.items ≡ out.old.items ++ text.boot_word end) }
{
    match end {
        BootEnd::Up => out.extend_from_slice(b"up"),
        BootEnd::DiskFault => out.extend_from_slice(b"disk fault"),
        BootEnd::Stop => out.extend_from_slice(b"stop"),
        BootEnd::Damaged { place } => add_numbered(b"damaged", u64::from(place), out),
        BootEnd::EpochsSpent => out.extend_from_slice(b"epochs spent"),
        BootEnd::Full => out.extend_from_slice(b"full"),
    }
}

pub fn add_image_word(mode: ImageMode, out: &mut Vec<u8>) -> Result<(), AllocError>
    ensures { OnOk result (out.new.items ≡ out.old.items ++ text.image_word mode) }
{
    match mode {
        ImageMode::Keep => out.extend_from_slice(b"keep"),
        ImageMode::Lose => out.extend_from_slice(b"lose"),
        ImageMode::Garble { byte } => add_numbered(b"garble", u64::from(byte), out),
    }
}

// `create 1.1.1`
fn add_created(uid: Uid, out: &mut Vec<u8>) -> Result<(), AllocError>
    ensures { OnOk result (out.new.items ≡ out.old.items ++ text.shown_word (Created uid)) }
{
    out.extend_from_slice(b"create ")?;
    add_uid(uid, out)
}

pub fn add_shown_word(shown: Shown, out: &mut Vec<u8>) -> Result<(), AllocError>
    ensures { OnOk result (out.new.items ≡ out.old.items ++ text.shown_word shown) }
{
    match shown {
        Shown::Invoke { call } => add_numbered(b"invoke", u64::from(call), out),
        Shown::Return { call } => add_numbered(b"return", u64::from(call), out),
        Shown::Checkpoint => out.extend_from_slice(b"checkpoint"),
        Shown::Deactivate => out.extend_from_slice(b"deactivate"),
        Shown::Destroy => out.extend_from_slice(b"destroy"),
        Shown::Created { uid } => add_created(uid, out),
        Shown::Refused { status } => {
            add_numbered(b"create refused", u64::from(status.number()), out)
        }
        Shown::Lock => out.extend_from_slice(b"lock"),
        Shown::Leave => out.extend_from_slice(b"leave"),
        Shown::Wait => out.extend_from_slice(b"wait"),
        Shown::Signal => out.extend_from_slice(b"signal"),
        Shown::Yield => out.extend_from_slice(b"yield"),
        Shown::End => out.extend_from_slice(b"end"),
        Shown::Fault { cause: _ } => out.extend_from_slice(b"fault"),
    }
}
