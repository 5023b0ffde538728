//! Rows are added behind the others of their table.
ghost use Rattle.std.specs.Prelude.{◌++◌, ◌≡◌, OnOk};
ghost use Rattle.seg_names.specs.Ids.{same_id};
ghost use Rattle.book_rows.specs.Shape.{AreDistinct, same_chunk_row, segment_ids};

use crate::OutOfMemory;
use book_rows::{ChunkRow, PendingRow, SegmentRow, UpgradeRow};
use tab_pending::Pendings;
use tab_segments::Segments;

/// Adds chunks, of which none is there. The error is want of memory; nothing is known of the table
/// then.
pub fn add_chunks(segments: &mut Segments, rows: Vec<ChunkRow>) -> Result<(), OutOfMemory>
    requires { AreDistinct same_chunk_row (segments.old.chunks ++ rows.items) }
    ensures { OnOk result (segments.new ≡ record segments.old { chunks = segments.old.chunks ++ rows.items }) }
{
    for row in rows {
        segments.add_chunk(row)?;
    }
    Ok(())
}

/// Adds segments, of whose ids none is there. The error is want of memory; nothing is known of the
/// table then.
pub fn add_segments(segments: &mut Segments, rows: Vec<SegmentRow>) -> Result<(), OutOfMemory>
    requires { AreDistinct same_id (segment_ids (segments.old.segments ++ rows.items)) }
    ensures { OnOk result (segments.new ≡ record segments.old { segments = segments.old.segments ++ rows.items }) }
{
    for row in rows {
        segments.add(row)?;
    }
    Ok(())
}

/// Adds pendings. The error is want of memory; nothing is known of the table then.
pub fn add_pendings(pendings: &mut Pendings, rows: Vec<PendingRow>) -> Result<(), OutOfMemory>
    ensures { OnOk result (pendings.new ≡ record pendings.old { pendings = pendings.old.pendings ++ rows.items }) }
{
    for row in rows {
        pendings.add(row)?;
    }
    Ok(())
}

/// Adds upgrade rows. The error is want of memory; nothing is known of the table then.
pub fn add_upgrades(pendings: &mut Pendings, rows: Vec<UpgradeRow>) -> Result<(), OutOfMemory>
    ensures { OnOk result (pendings.new ≡ record pendings.old { upgrades = pendings.old.upgrades ++ rows.items }) }
{
    for row in rows {
        pendings.add_upgrade(row)?;
    }
    Ok(())
}
