ghost use Rattle.std.specs.Prelude.{◌≡◌, ◌↔◌, IfOk, OnErr};
ghost use Rattle.volume.specs.Settings.{IsSettings, settings_of};

use crate::sets::MAX_NODES;
use redo_core::Roster;
use std::fmt;
use std::marker::Model;
use thiserror::Error;

/// The readers of a volume's log, its nodes, and how many of them a quorum takes.
#[derive(Drop)]
pub struct Settings {
    roster: Roster,
    nodes: u8,
    quorum: u8,
}

/// Why there are no such settings.
#[derive(Clone, Copy, Debug, PartialEq, Eq, Error)]
pub enum SettingsFault {
    /// There are 1 to 15 nodes.
    Nodes,
    /// A quorum is more than half of the nodes, and at most all.
    Quorum,
}

impl fmt::Display for SettingsFault {
    fn fmt<W: fmt::Write>(&self, f: &mut fmt::Formatter<W>) -> fmt::Result {
        f.write_str(match self {
            SettingsFault::Nodes => "no nodes, or more than 15",
            SettingsFault::Quorum =>
                "a quorum must be more than half of the nodes, and not more than all",
        })
    }
}

impl Model for Settings {
    ghost use Rattle.volume.specs.Settings.{SettingsData, settings_of, IsSettings};

    ghost Value = { SettingsData };

    ghost view = { λ s. settings_of s.roster s.nodes s.quorum };

    ghost invariant = { λ s. IsSettings s.nodes s.quorum };
}

impl Settings {
    /// The settings of a volume of 1 to 15 nodes, whose quorum is more than half of them.
    pub fn new(roster: Roster, nodes: u8, quorum: u8) -> Result<Self, SettingsFault>
        ensures ok { IfOk result (λ s. s ≡ settings_of roster nodes quorum) }
        ensures refused { OnErr result (IsSettings nodes quorum → ⊥) }
    {
        if nodes == 0 || usize::from(nodes) > MAX_NODES {
            return Err(SettingsFault::Nodes);
        }
        if quorum > nodes || quorum <= nodes - quorum {
            return Err(SettingsFault::Quorum);
        }
        Ok(Settings {
            roster,
            nodes,
            quorum,
        })
    }

    /// The readers of the log.
    pub fn roster(&self) -> Roster
        ensures { result ≡ self.now.roster }
    {
        self.roster
    }

    /// How many nodes the volume has.
    pub fn nodes(&self) -> u8
        ensures value { result ≡ self.now.nodes }
        ensures settings { IsSettings self.now.nodes self.now.quorum }
    {
        self.nodes
    }

    /// How many nodes a write quorum takes.
    pub fn quorum(&self) -> u8
        ensures value { result ≡ self.now.quorum }
        ensures settings { IsSettings self.now.nodes self.now.quorum }
    {
        self.quorum
    }
}
