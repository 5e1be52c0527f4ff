// The bundle of the dossiers of a day and of its parts.
ghost use Rattle.std.specs.Prelude.{◌≡◌, List, Err};
ghost use Rattle.crew_instance.specs.Draft.{rows_of};
ghost use Rattle.crew_io.specs.Puts.{TellsWrites};
ghost use Rattle.dossier_terms.specs.Dossier.{Dossier};
ghost use Rattle.bundle_join.specs.Firsts.{IsDayOf};
ghost use Rattle.bundle_join.specs.Joined.{IsJoinedPut};
ghost use Rattle.bundle_join.specs.Texts.{AreTexts};

use crate::day::Day;
use crate::first::first_of;
use crate::out::put_texts;
use crate::tally::tally_of;
use crew_io::sink::{Sink, WriteFault};
use std::alloc::{AllocError, Global};

/// Why dossiers were not put together.
#[derive(Clone, Copy, Debug, PartialEq, Eq)]
pub enum JoinFault {
    /// The dossier with this number, from 0, is of no part of the day, or has a task of an earlier part, or is one too many. Nothing
    /// was written.
    NoPart { number: usize },
    /// A write has failed.
    WriteFault,
    /// There was no memory, and nothing was written.
    OutOfMemory,
}

impl From<AllocError> for JoinFault {
    ghost use Rattle.std.specs.Prelude.{◌≡◌};
    ghost use Rattle.bundle_join.specs.declared.join.JoinFault.TheVariants.{OutOfMemory};

    ghost from_gives = { λ _ e. e ≡ OutOfMemory };

    fn from(_: AllocError) -> Self {
        JoinFault::OutOfMemory
    }
}

/// What a bundle says: how many tasks its first plan leaves unassigned, and how many every legal plan of the day leaves at least.
#[derive(Clone, Copy, Debug, PartialEq, Eq)]
pub struct Proves {
    pub unassigned: u32,
    pub bound: u64,
}

/// Writes the bundle of a day's dossier and of the dossiers of its parts, which have these texts. Its first dossier is the day's
/// own; or a dossier of the parts' plans joined, where that leaves fewer tasks and the bundle proves no less by it. All memory is
/// taken before a byte is written. After a write fault a front of the bundle was written.
pub fn put_joined<K: Sink>(
    alloc: Global,
    day: &Day<'_>,
    texts: &[Vec<u8>],
    sink: &mut K,
) -> Result<Proves, JoinFault>
    ensures put { (d : Dossier) (parts : List Dossier) → IsDayOf day.now d → AreTexts (rows_of texts.now) parts
        → IsJoinedPut d parts result (K.got sink.old) (K.got sink.new) }
    ensures tells { TellsWrites K.Sink sink.old sink.new (result ≡ Err JoinFault.WriteFault) }
{
    let tally = tally_of(alloc, day.instance, texts)?;
    let first = first_of(alloc, day, &tally.jobs, tally.bounds)?;
    if let Err(WriteFault) = put_texts(sink, &first.text, texts) {
        return Err(JoinFault::WriteFault);
    }
    Ok(Proves {
        unassigned: first.unassigned,
        bound: tally.bounds.max(first.bound as u64),
    })
}
