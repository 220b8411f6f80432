ghost use Rattle.std.specs.Prelude.{◌≡◌, ◌↔◌, [], Some, None, IfErr, OnOk, OnErr, IsTrue};
ghost use Rattle.std.specs.Option.{option_copied};
ghost use Rattle.snapshot.specs.Stagings.{staging_of, piece_at, IsStranger, IsStaging, Adds, RefusesPiece};

use messages::Piece;
use redo_core::Refused;
use std::alloc::Global;
use std::collections::BTreeMap;
use std::marker::Model;
use thiserror::Error;

/// Why a piece is not taken.
#[derive(Clone, Copy, Debug, PartialEq, Eq, Error)]
pub enum AddFault {
    /// The piece is of another name or total than the staging's.
    #[error("the piece belongs to another snapshot")]
    Stranger,
    /// The piece of this index has come already.
    #[error("piece {index} is staged already")]
    Double { index: u32 },
    #[error("out of memory")]
    Memory,
}

/// Pieces of one snapshot as they come, in any order.
#[derive(Drop)]
pub struct Staging {
    pub(crate) alloc: Global,
    pub(crate) name: u64,
    pub(crate) total: u32,
    pub(crate) pieces: BTreeMap<u32, Piece>,
}

impl Model for Staging {
    ghost use Rattle.snapshot.specs.Stagings.{StagingData, staging_of, IsStaging};

    ghost Value = { StagingData };

    ghost view = { λ s. staging_of s.name s.total s.pieces.entries };

    ghost invariant = { λ s. IsStaging (staging_of s.name s.total s.pieces.entries) };
}

impl Staging {
    /// A staging for the snapshot of this name and `total` pieces, of which none has come.
    pub fn new(alloc: Global, name: u64, total: u32) -> Self
        ensures empty { result ≡ staging_of name total [] }
        ensures form { IsStaging result }
    {
        Staging {
            alloc,
            name,
            total,
            pieces: BTreeMap::new(alloc),
        }
    }

    /// Takes a piece.
    ///
    /// Errors: `Stranger` where it is of another name or total (so its index is always below the total); else `Double` where the piece of
    /// its index has come; `Memory`. The staging is then as it was, and the error returns the piece.
    pub fn add(&mut self, piece: Piece) -> Result<(), Refused<Piece, AddFault>>
        ensures adds { OnOk result (Adds self.old piece self.new) }
        ensures form { IsStaging self.new }
        ensures refused { IfErr result (λ e. RefusesPiece self.old piece e.fault) }
        ensures back { IfErr result (λ e. e.value ≡ piece) }
        ensures unchanged { OnErr result (self.new ≡ self.old) }
    {
        if piece.name() != self.name || piece.total() != self.total {
            return Err(refused(piece, AddFault::Stranger));
        }
        let index = piece.index();
        if self.pieces.get(&index).is_some() {
            return Err(refused(piece, AddFault::Double { index }));
        }
        match self.pieces.insert(index, piece) {
            Ok(_) => Ok(()),
            Err(failed) => Err(refused(failed.value.1, AddFault::Memory)),
        }
    }

    /// The piece of an index, where it has come.
    pub(crate) fn get(&self, index: u32) -> Option<&Piece>
        ensures value { option_copied result ≡ piece_at self.now index }
        ensures form { IsStaging self.now }
    {
        self.pieces.get(&index)
    }
}

fn refused(piece: Piece, fault: AddFault) -> Refused<Piece, AddFault>
    ensures value { result.value ≡ piece }
    ensures fault { result.fault ≡ fault }
{
    Refused {
        value: piece,
        fault,
    }
}
