//! Notes: what one end of an intake learns from the other. A note has no bytes.
ghost use Rattle.std.specs.Prelude.{◌≡◌, ◌∷◌, ◌++◌, [], length, max};

use crate::intake::Intake;
use crate::parcel::Parcel;
use crate::passes::{SenderPass, TakerPass};
use crate::rule::{PassView, SenderHears, SenderNotes, TakerHears, TakerNotes};
use crossbeam_queue::Pass;
use named_log::LogName;
use std::marker::Model;

/// What was known when it was written: that so many parcels of a sender were accepted, or that so many were taken.
#[derive(Drop)]
pub struct Note<L: LogName> {
    pass: Pass<Parcel<L>, PassView>,
}

impl<L: LogName> Model for Note<L> {
    ghost use Rattle.std.specs.Prelude.{◌≡◌, []};
    ghost use Rattle.crossbeam_queue.specs.Passes.{view as known};
    ghost use Rattle.intake_queue.specs.Known.{IsNote};
    ghost use Rattle.intake_queue.specs.Heard.{NoteData};

    ghost Value = { NoteData };

    ghost view = { λ n. record { intake = n.pass.table_id; accepted = (known n.pass).accepted_counts; taken = (known n.pass).taken_count } };

    ghost invariant = { λ n. (n.pass.me.1 ≡ []) × IsNote (known n.pass) };
}

impl<L: LogName> Intake<L> {
    /// A note of how many of the sender's parcels were accepted.
    pub fn note_of_sender(&self, sender: &mut SenderPass<L>) -> Note<L>
        requires own { sender.old.intake ≡ self.now.id }
        ensures note { result ≡ record { intake = self.now.id; accepted = (sender.old.number, length sender.old.accepted) ∷ []; taken = 0 } }
        ensures same { sender.new ≡ sender.old }
    {
        Note {
            pass: self.line.another::<SenderNotes>(&mut sender.pass),
        }
    }

    /// A note of how many parcels were taken.
    pub fn note_of_taker(&self, taker: &mut TakerPass<L>) -> Note<L>
        requires own { taker.old.intake ≡ self.now.id }
        ensures note { result ≡ record { intake = self.now.id; accepted = []; taken = length taker.old.taken } }
        ensures same { taker.new ≡ taker.old }
    {
        Note {
            pass: self.line.another::<TakerNotes>(&mut taker.pass),
        }
    }

    /// The taker hears what was accepted. After that it finds nothing only once it has taken so much.
    pub fn notify_taker(&self, taker: &mut TakerPass<L>, note: Note<L>)
        requires own { (taker.old.intake ≡ self.now.id) × (note.intake ≡ self.now.id) }
        ensures { taker.new ≡ record taker.old { heard = taker.old.heard ++ note.accepted } }
    {
        self.line.absorb::<TakerHears>(&mut taker.pass, note.pass);
    }

    /// The sender hears how many parcels were taken.
    pub fn tell_sender(&self, sender: &mut SenderPass<L>, note: Note<L>)
        requires own { (sender.old.intake ≡ self.now.id) × (note.intake ≡ self.now.id) }
        ensures { sender.new ≡ record sender.old { heard = max sender.old.heard note.taken } }
    {
        self.line.absorb::<SenderHears>(&mut sender.pass, note.pass);
    }
}
