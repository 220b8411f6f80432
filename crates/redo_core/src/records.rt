ghost use Rattle.std.specs.Prelude.{◌≡◌, ℕ, Bool, List, [], ◌∷◌, ◌<◌, ◌≤◌, ◌↔◌, IsTrue, IfOk, IfErr, None, Some, IfSome, IfNone, IsSome};
ghost use Rattle.redo_core.specs.Data.{record_with, record_of, plain};
ghost use Rattle.redo_core.specs.Body.{patches_of};
ghost use Rattle.redo_core.specs.Keys.{key_of};
ghost use Rattle.redo_core.specs.Shape.{record_fault, patches_fault, max_number};
ghost use Rattle.redo_core.specs.Parts.{headed, data_of};
ghost use Rattle.redo_core.specs.Making.{RefusesToMake};
ghost use Rattle.redo_core.specs.declared.patches.Patch.{Patch};

use crate::contents::{patches_fault, writes_fault};
use crate::kept_bodies::KeptBody;
use crate::keys::Key;
use crate::patches::{Body, Patch};
use crate::refusal::Refused;
use crate::shapes::{MAX_NUMBER, ShapeFault};
use crate::writes::Write;
use std::alloc::{AllocError, AllocFailed, Global};
use std::marker::Model;
use std::slice;
use std::sync::Arc;
use thiserror::Error;

/// Why a record was not made.
#[derive(Clone, Copy, Debug, PartialEq, Eq, Error)]
pub enum RecordFault {
    #[error(transparent)]
    Shape(ShapeFault),
    #[error("out of memory")]
    Memory,
}

/// The fields of a record up to its block backlink: its epoch and LSN, its segment backlink, its page, its block backlink.
#[derive(Clone, Copy)]
pub struct RecordHead {
    pub epoch: u16,
    pub number: u64,
    pub back: u64,
    pub page: u16,
    pub block_back: u64,
}

/// All that a record says beside its patches.
#[derive(Clone, Copy)]
struct Head {
    // By falling size, so that nothing is padded: a log stores many records.
    number: u64,
    back: u64,
    block_back: u64,
    epoch: u16,
    page: u16,
    init: bool,
}

#[derive(Drop)]
struct Parts {
    head: Head,
    body: KeptBody,
}

/// A redo record: patches to one page, with an LSN, a backlink in the segment's chain and one in the page's.
/// With `init` its page starts from zeros, whatever was written to it before.
///
/// It is a handle to immutable parts, which exist once however many copies it has.
pub struct Record {
    parts: Arc<Parts>,
}

// Written out, so that dropping an owner is proved only here.
impl Drop for Record {
    fn drop(self) {
        let Record { parts: _parts } = self;
    }
}

impl Model for Record {
    ghost use Rattle.std.specs.Prelude.{◌≡◌, None};
    ghost use Rattle.std.specs.Arc.{arc_value};
    ghost use Rattle.redo_core.specs.Data.{RecordData};
    ghost use Rattle.redo_core.specs.Shape.{record_fault};
    ghost use Rattle.redo_core.specs.Parts.{data_of};

    ghost Value = { RecordData };

    ghost view = { λ r. data_of (arc_value r.parts) };

    ghost invariant = { λ r. record_fault (data_of (arc_value r.parts)) ≡ None };
}

impl Record {
    /// A record of an epoch, with an LSN from 1, its segment backlink, its page, its block backlink and its writes.
    ///
    /// Errors return the writes: the first fault of the record's shape; `Memory`.
    pub fn new(
        epoch: u16,
        number: u64,
        back: u64,
        page: u16,
        block_back: u64,
        writes: Vec<Write>,
    ) -> Result<Self, Refused<Vec<Write>, RecordFault>>
        ensures ok { let given = record_of epoch number back page block_back writes.items in
            IfOk result (λ r. (r ≡ given) × (record_fault given ≡ None)) }
        ensures fault { let given = record_of epoch number back page block_back writes.items in
            IfErr result (λ e. (e.value ≡ writes) × RefusesToMake given e.fault) }
    {
        if let Some(fault) = Record::shape_fault(number, back, block_back, &writes) {
            return Err(Refused {
                value: writes,
                fault: RecordFault::Shape(fault),
            });
        }
        let head = Head {
            epoch,
            number,
            back,
            page,
            block_back,
            init: false,
        };
        match of_writes(head, writes) {
            Ok(redo) => Ok(redo),
            Err(failed) => Err(Refused {
                value: failed.value,
                fault: RecordFault::Memory,
            }),
        }
    }

    /// The same for a record with patches, which with `init` starts its page from zeros.
    pub fn with(
        epoch: u16,
        number: u64,
        back: u64,
        page: u16,
        block_back: u64,
        init: bool,
        patches: Vec<Patch>,
    ) -> Result<Self, Refused<Vec<Patch>, RecordFault>>
        ensures ok { let given = record_with epoch number back page block_back init patches.items in
            IfOk result (λ r. (r ≡ given) × (record_fault given ≡ None)) }
        ensures fault { let given = record_with epoch number back page block_back init patches.items in
            IfErr result (λ e. (e.value ≡ patches) × RefusesToMake given e.fault) }
    {
        if let Some(fault) = first_fault(number, back, block_back, patches_fault(&patches)) {
            return Err(Refused {
                value: patches,
                fault: RecordFault::Shape(fault),
            });
        }
        let head = Head {
            epoch,
            number,
            back,
            page,
            block_back,
            init,
        };
        match of_patches(head, patches) {
            Ok(redo) => Ok(redo),
            Err(failed) => Err(Refused {
                value: failed.value,
                fault: RecordFault::Memory,
            }),
        }
    }

    /// The same for a record with one patch, which takes no list where it is short. None where the record's shape has a fault; the
    /// only error is an allocation failure.
    pub fn with_one(
        alloc: Global,
        head: RecordHead,
        init: bool,
        patch: Patch,
    ) -> Result<Option<Self>, AllocError>
        ensures some { let given = record_with head.epoch head.number head.back head.page head.block_back init (patch ∷ []) in
            IfOk result (λ o. IfSome o (λ r. (r ≡ given) × (record_fault given ≡ None))) }
        ensures none { let given = record_with head.epoch head.number head.back head.page head.block_back init (patch ∷ []) in
            IfOk result (λ o. IfNone o (IsSome (record_fault given))) }
    {
        let contents = patches_fault(slice::from_ref(&patch));
        match first_fault(head.number, head.back, head.block_back, contents) {
            Some(_) => Ok(None),
            None => {
                let head = Head {
                    epoch: head.epoch,
                    number: head.number,
                    back: head.back,
                    page: head.page,
                    block_back: head.block_back,
                    init,
                };
                let body = KeptBody::of_patch(alloc, patch)?;
                Ok(Some(of_parts(alloc, Parts { head, body })?))
            }
        }
    }

    /// The first fault of the shape that a record with these fields and writes would have.
    pub fn shape_fault(
        number: u64,
        back: u64,
        block_back: u64,
        writes: &[Write],
    ) -> Option<ShapeFault>
        ensures { (epoch page : ℕ) → result ≡ record_fault (record_of epoch number back page block_back writes.now) }
    {
        first_fault(number, back, block_back, writes_fault(writes))
    }

    /// The writer's epoch, from 0.
    pub fn epoch(&self) -> u16
        ensures { result ≡ self.now.epoch }
    {
        self.parts.head.epoch
    }

    /// The log sequence number (LSN), from 1 to 2^48 - 1.
    pub fn number(&self) -> u64
        ensures value { result ≡ self.now.number }
        ensures positive { 0 < result }
        ensures bound { result ≤ max_number }
        ensures shape { record_fault self.now ≡ None }
    {
        self.parts.head.number
    }

    /// The record's key: its epoch and its LSN there.
    pub fn key(&self) -> Key
        ensures value { result ≡ key_of self.now }
        ensures shape { record_fault self.now ≡ None }
    {
        Key {
            epoch: self.parts.head.epoch,
            number: self.parts.head.number,
        }
    }

    /// The segment backlink: the LSN before this one in the segment's chain, or 0.
    pub fn back(&self) -> u64
        ensures value { result ≡ self.now.back }
        ensures below { result < self.now.number }
    {
        self.parts.head.back
    }

    /// The number of the page that the record changes.
    pub fn page(&self) -> u16
        ensures { result ≡ self.now.page }
    {
        self.parts.head.page
    }

    /// The block backlink: the LSN before this one in the page's chain, or 0.
    pub fn block_back(&self) -> u64
        ensures value { result ≡ self.now.block_back }
        ensures ordered { result ≤ self.now.back }
    {
        self.parts.head.block_back
    }

    /// Whether the record starts its page from zeros.
    pub fn init(&self) -> bool
        ensures { result ≡ self.now.init }
    {
        self.parts.head.init
    }

    /// The patches, in the order in which they are applied.
    pub fn body(&self) -> Body<'_>
        ensures patches { patches_of result ≡ self.now.patches }
        ensures shape { record_fault self.now ≡ None }
    {
        self.parts.body.body()
    }

    /// One more owner of the same parts. It allocates nothing; the error means that the owner count would overflow.
    pub fn copy(&self) -> Result<Self, AllocError>
        ensures { IfOk result (λ r. r ≡ self.now) }
    {
        self.clone()
    }

    /// Whether the other record equals this one, patch by patch: a fill is another patch than a write of equal bytes.
    pub fn is_same(&self, other: &Record) -> bool
        ensures { IsTrue result ↔ (self.now ≡ other.now) }
    {
        let one = &*self.parts;
        let two = &*other.parts;
        is_same_head(&one.head, &two.head) && one.body.is_same(&two.body)
    }
}

impl Clone for Record {
    ghost is_clone = { λ r copied. copied ≡ r };

    fn clone(&self) -> Result<Self, AllocError> {
        Ok(Record {
            parts: Arc::try_clone(&self.parts)?,
        })
    }
}

/// The record of these parts, with its first owner. The error is an allocation failure, and returns the parts.
fn of_parts(alloc: Global, parts: Parts) -> Result<Record, AllocFailed<Parts>>
    requires { record_fault (data_of parts) ≡ None }
    ensures ok { IfOk result (λ r. r ≡ data_of parts) }
    ensures err { IfErr result (λ e. e.value ≡ parts) }
{
    let parts = Arc::new(alloc, parts)?;
    Ok(Record { parts })
}

fn of_writes(head: Head, writes: Vec<Write>) -> Result<Record, AllocFailed<Vec<Write>>>
    requires { record_fault (headed head (plain writes.items)) ≡ None }
    ensures ok { IfOk result (λ r. r ≡ headed head (plain writes.items)) }
    ensures err { IfErr result (λ e. e.value ≡ writes) }
{
    let alloc = *writes.allocator();
    if let Some(body) = KeptBody::short_write(&writes) {
        return match of_parts(alloc, Parts { head, body }) {
            Ok(redo) => Ok(redo),
            Err(_) => Err(AllocFailed { value: writes }),
        };
    }
    let body = KeptBody::Writes(writes);
    match of_parts(alloc, Parts { head, body }) {
        Ok(redo) => Ok(redo),
        Err(failed) => match failed.value.body {
            KeptBody::Writes(value) => Err(AllocFailed { value }),
            _ => unreachable!(),
        },
    }
}

fn of_patches(head: Head, patches: Vec<Patch>) -> Result<Record, AllocFailed<Vec<Patch>>>
    requires { record_fault (headed head patches.items) ≡ None }
    ensures ok { IfOk result (λ r. r ≡ headed head patches.items) }
    ensures err { IfErr result (λ e. e.value ≡ patches) }
{
    let alloc = *patches.allocator();
    if let Some(body) = KeptBody::short_patch(&patches) {
        return match of_parts(alloc, Parts { head, body }) {
            Ok(redo) => Ok(redo),
            Err(_) => Err(AllocFailed { value: patches }),
        };
    }
    let body = KeptBody::Patches(patches);
    match of_parts(alloc, Parts { head, body }) {
        Ok(redo) => Ok(redo),
        Err(failed) => match failed.value.body {
            KeptBody::Patches(value) => Err(AllocFailed { value }),
            _ => unreachable!(),
        },
    }
}

fn is_same_head(one: &Head, two: &Head) -> bool
    ensures { IsTrue result ↔ (one.now ≡ two.now) }
{
    one.number == two.number
        && one.epoch == two.epoch
        && one.back == two.back
        && one.page == two.page
        && one.block_back == two.block_back
        && one.init == two.init
}

fn first_fault(
    number: u64,
    back: u64,
    block_back: u64,
    contents: Option<ShapeFault>,
) -> Option<ShapeFault>
    ensures { (epoch page : ℕ) (init : Bool) (patches : List Patch) → patches_fault patches ≡ contents
        → result ≡ record_fault (record_with epoch number back page block_back init patches) }
{
    if number == 0 {
        return Some(ShapeFault::NumberIsZero);
    }
    if back >= number {
        return Some(ShapeFault::BackNotBelow);
    }
    if block_back > back {
        return Some(ShapeFault::BlockBackAbove);
    }
    if contents.is_some() {
        return contents;
    }
    if number > MAX_NUMBER {
        return Some(ShapeFault::TooLarge);
    }
    None
}
