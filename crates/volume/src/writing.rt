ghost use Rattle.std.specs.Prelude.{◌≡◌, ◌≤◌, ◌<◌, ◌+◌, ◌++◌, ◌∷◌, [], IfOk, OnOk, OnErr};
ghost use Rattle.redo_core.specs.Shape.{max_number};
ghost use Rattle.redo_writer.specs.State.{next_record};
ghost use Rattle.volume.specs.Writing.{AddsRecord, WritesPage, EndsTransaction, RaisesPoint, errand_of, sends_record, record_of_page, IsRefusedAs};
ghost use Rattle.volume.specs.Writing.{HearsWriting, HearsSegment, HearsEpochFront, HearsPoint, BringsLate, brings, stores_of, with_reached};

use crate::actions::{Action, Fault};
use crate::errands::{Errand, Query, ask_each, push_errand, query_one};
use crate::page_layout::{MAX_HEADER, are_users, commit_patches, number_patch};
use crate::phases::{Session, Writing};
use crate::turns::{Transition, end, nothing, refuse};
use guard::Reply;
use log_law::WriterFault;
use redo_core::{Advance, MAX_NUMBER, Patch, Record, ShapeFault};
use replica::Reply as SegmentReply;
use segment_core::Front;
use std::alloc::{AllocError, Global};

/// Writes a record of a page above page 0.
pub(crate) fn write_page(
    alloc: Global,
    writing: &mut Writing,
    page: u16,
    init: bool,
    patches: Vec<Patch>,
) -> Result<Vec<Action>, AllocError>
    ensures writes { IfOk result (λ v. WritesPage writing.old page init patches.items v.items writing.new) }
    ensures unchanged { OnErr result (writing.new ≡ writing.old) }
{
    if page == 0 || !are_users(&patches) {
        return refuse(alloc, Fault::Reserved);
    }
    write_record(alloc, writing, page, init, patches)
}

/// Ends a mini-transaction by a record of page 0, which has the generation, the epoch and a header.
pub(crate) fn write_commit(
    alloc: Global,
    writing: &mut Writing,
    header: &[u8],
) -> Result<Vec<Action>, AllocError>
    ensures writes { IfOk result (λ v. EndsTransaction writing.old header.now v.items writing.new) }
    ensures unchanged { OnErr result (writing.new ≡ writing.old) }
{
    if header.len() > MAX_HEADER {
        return refuse(alloc, Fault::LongHeader);
    }
    let epoch = writing.cut.epoch();
    let patches = commit_patches(alloc, writing.session.generation, epoch, header)?;
    write_record(alloc, writing, 0, false, patches)
}

/// Writes a record with the next number, which it also puts at the end of its page.
fn write_record(
    alloc: Global,
    writing: &mut Writing,
    page: u16,
    init: bool,
    patches: Vec<Patch>,
) -> Result<Vec<Action>, AllocError>
    ensures writes { IfOk result (λ v. AddsRecord writing.old (record_of_page writing.old.writer page init patches.items) v.items writing.new) }
    ensures unchanged { OnErr result (writing.new ≡ writing.old) }
{
    let last = writing.writer.last();
    if last >= MAX_NUMBER {
        return refuse(alloc, Fault::Full);
    }
    let mut patches = patches;
    patches.push(number_patch(alloc, last + 1)?)?;
    match writing
        .writer
        .preview(last + 1, page, init, patches.clone()?)
    {
        Ok(redo) => send_record(alloc, writing, redo, init, patches),
        Err(refused) => refused_as(alloc, refused.fault),
    }
}

/// Sends the next record to each member, and keeps it until it is durable.
fn send_record(
    alloc: Global,
    writing: &mut Writing,
    redo: Record,
    init: bool,
    patches: Vec<Patch>,
) -> Result<Vec<Action>, AllocError>
    requires next { redo ≡ next_record writing.old.writer redo.number redo.page init patches.items }
    requires number { redo.number ≡ writing.old.writer.last + 1 }
    requires room { writing.old.writer.last < max_number }
    ensures sends { IfOk result (λ v. AddsRecord writing.old redo v.items writing.new) }
    ensures unchanged { OnErr result (writing.new ≡ writing.old) }
{
    let (number, page) = (redo.number(), redo.page());
    let actions = sending(alloc, &writing.session, redo.copy()?)?;
    writing.backlog.add(redo)?;
    match writing.writer.append(number, page, init, patches) {
        Ok(_) => Ok(actions),
        Err(refused) => {
            writing.backlog.drop_newest();
            refused_as(alloc, refused.fault)
        }
    }
}

/// The requests that send a record to each member, and the commit point where it ends a mini-transaction.
fn sending(alloc: Global, session: &Session, redo: Record) -> Result<Vec<Action>, AllocError>
    ensures { IfOk result (λ v. v.items ≡ sends_record session.now redo) }
{
    let (commit_point, page) = (redo.number(), redo.page());
    let errand = errand_for(redo);
    let mut actions = ask_each(alloc, session.generation, &session.births, &errand)?;
    if page == 0 {
        actions.push(Action::Committed { commit_point })?;
    }
    Ok(actions)
}

/// The errand of a record: nodes report their fronts after the last one of a mini-transaction.
fn errand_for(redo: Record) -> Errand
    ensures { result ≡ errand_of redo }
{
    if redo.page() == 0 {
        Errand::Close(redo)
    } else {
        Errand::Store(redo)
    }
}

/// The refusal of a call that the writer refuses, or its lack of memory.
fn refused_as(alloc: Global, fault: WriterFault) -> Result<Vec<Action>, AllocError>
    ensures { IfOk result (λ v. IsRefusedAs fault v.items) }
{
    match fault {
        WriterFault::Memory => Err(AllocError),
        WriterFault::Shape(fault) => refuse(alloc, Fault::Shape(fault)),
        WriterFault::OtherRoster { .. } => { refuse(alloc, Fault::Shape(ShapeFault::NoSuchReader)) }
        _ => refuse(alloc, Fault::Full),
    }
}

/// Raises a reader's point, up to the last durable commit point.
pub(crate) fn raise_reader(
    alloc: Global,
    writing: &mut Writing,
    reader: u8,
    point: u64,
) -> Result<Vec<Action>, AllocError>
    ensures raises { IfOk result (λ v. RaisesPoint writing.old reader point v.items writing.new) }
    ensures unchanged { OnErr result (writing.new ≡ writing.old) }
{
    let durable = writing.durable;
    if point > durable {
        return refuse(alloc, Fault::Ahead { durable });
    }
    let advance = match Advance::of_reader(reader, writing.writer.epoch(), point) {
        Ok(advance) => advance,
        Err(fault) => return refuse(alloc, Fault::Shape(fault)),
    };
    let Session {
        generation,
        births,
        ..
    } = writing.session;
    let actions = ask_each(alloc, generation, &births, &Errand::Raise(advance))?;
    match writing.writer.advance(reader, point) {
        Ok(_) => {
            writing.writer.forget();
            Ok(actions)
        }
        Err(fault) => refused_as(alloc, fault),
    }
}

/// Hears a reply of a node.
pub(crate) fn hear_writing(
    alloc: Global,
    quorum: u8,
    writing: &mut Writing,
    node: u8,
    reply: Reply,
) -> Result<Transition, AllocError>
    ensures hears { IfOk result (HearsWriting quorum writing.old node reply writing.new) }
    ensures unchanged { OnErr result (writing.new ≡ writing.old) }
{
    match reply {
        Reply::Headed {
            generation,
            birth,
            reply,
        } => {
            if writing.session.is_own(node, generation, birth) {
                hear_segment(alloc, quorum, writing, node, reply)
            } else {
                Ok(nothing(alloc))
            }
        }
        Reply::Fenced {
            generation,
            birth,
            ..
        } => bring_late(alloc, writing, node, generation, birth),
        Reply::Admitted { generation, birth } => {
            bring_late(alloc, writing, node, generation, birth)
        }
        Reply::Stale(generation) => {
            if generation > writing.session.generation {
                end(alloc, Fault::Fenced { generation })
            } else {
                Ok(nothing(alloc))
            }
        }
        _ => Ok(nothing(alloc)),
    }
}

/// Hears a reply to what was asked under the generation: only a front counts.
fn hear_segment(
    alloc: Global,
    quorum: u8,
    writing: &mut Writing,
    node: u8,
    reply: SegmentReply,
) -> Result<Transition, AllocError>
    ensures hears { IfOk result (HearsSegment quorum writing.old node reply writing.new) }
    ensures unchanged { OnErr result (writing.new ≡ writing.old) }
{
    match reply {
        SegmentReply::Front { front } => hear_front(alloc, quorum, writing, node, &front),
        _ => Ok(nothing(alloc)),
    }
}

/// Hears a front, which counts where it is of the epoch.
fn hear_front(
    alloc: Global,
    quorum: u8,
    writing: &mut Writing,
    node: u8,
    front: &Front,
) -> Result<Transition, AllocError>
    ensures hears { IfOk result (HearsEpochFront quorum writing.old node front.now writing.new) }
    ensures unchanged { OnErr result (writing.new ≡ writing.old) }
{
    if front.epoch != writing.cut.epoch() {
        return Ok(nothing(alloc));
    }
    hear_point(alloc, quorum, writing, node, front.complete)
}

/// Hears that a node has reached a point in the epoch. The greatest commit point that a quorum has reached is durable.
fn hear_point(
    alloc: Global,
    quorum: u8,
    writing: &mut Writing,
    node: u8,
    point: u64,
) -> Result<Transition, AllocError>
    ensures hears { IfOk result (HearsPoint quorum writing.old node point writing.new) }
    ensures unchanged { OnErr result (writing.new ≡ writing.old) }
{
    let mut reached = writing.reached;
    raise(&mut reached, node, point);
    let Some(commit_point) = writing.backlog.last_reached(&reached, quorum) else {
        writing.reached = reached;
        return Ok(nothing(alloc));
    };
    let mut actions = Vec::new(alloc);
    actions.push(Action::Durable { commit_point })?;
    writing.reached = reached;
    writing.durable = commit_point;
    writing.backlog.drop_up_to(commit_point);
    Ok(Transition::Stay(actions))
}

/// Raises the point of a node.
fn raise(reached: &mut [u64; 15], node: u8, point: u64)
    ensures { reached.new ≡ with_reached reached.old node point }
{
    let place = usize::from(node);
    if place < reached.len() {
        reached[place] = reached[place].max(point);
    }
}

/// Hears that a node is fenced or admitted, and brings it up to date.
fn bring_late(
    alloc: Global,
    writing: &mut Writing,
    node: u8,
    generation: u64,
    birth: u64,
) -> Result<Transition, AllocError>
    ensures brings { IfOk result (BringsLate writing.old node generation birth writing.new) }
    ensures unchanged { OnErr result (writing.new ≡ writing.old) }
{
    if !writing.session.is_late(node, generation) {
        return Ok(nothing(alloc));
    }
    let actions = bring(alloc, writing, node, Some(birth))?;
    writing.session = writing.session.with_birth(node, birth);
    Ok(Transition::Stay(actions))
}

/// Asks a node to take the truncation of the epoch and the records that are not durable, and to report its front; one of which no birth is
/// known, to be fenced.
pub(crate) fn bring(
    alloc: Global,
    writing: &Writing,
    node: u8,
    birth: Option<u64>,
) -> Result<Vec<Action>, AllocError>
    ensures { IfOk result (λ v. v.items ≡ brings writing.now node birth) }
{
    let generation = writing.session.generation;
    let Some(birth) = birth else {
        return query_one(alloc, node, Query::Fence { generation });
    };
    let mut actions = Vec::new(alloc);
    push_errand(
        &mut actions,
        node,
        generation,
        birth,
        &Errand::Begin(writing.cut),
    )?;
    push_records(&mut actions, node, birth, writing)?;
    push_errand(&mut actions, node, generation, birth, &Errand::Report)?;
    Ok(actions)
}

/// Adds the requests to take the records that are not durable.
fn push_records(
    actions: &mut Vec<Action>,
    node: u8,
    birth: u64,
    writing: &Writing,
) -> Result<(), AllocError>
    ensures { OnOk result (actions.new.items ≡ actions.old.items ++ stores_of node writing.now.session.generation birth writing.now.backlog) }
{
    let generation = writing.session.generation;
    for redo in writing.backlog.records() {
        let errand = Errand::Store(redo.copy()?);
        push_errand(actions, node, generation, birth, &errand)?;
    }
    Ok(())
}
