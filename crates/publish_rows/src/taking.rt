//! Rows go that a publish uses up.
ghost use Rattle.std.specs.Prelude.{◌≡◌, filter, not};
ghost use Rattle.book_rows.specs.Append.{without_roots};
ghost use Rattle.book_rows.specs.Rewrite.{is_taken_up, is_used_up};

use publish_core::Target;
use seg_names::SegId;
use tab_pending::Pendings;

/// The pendings of these roots go. It takes no memory.
pub fn take_roots(pendings: &mut Pendings, ids: &[SegId])
    ensures { pendings.new ≡ record pendings.old { pendings = without_roots ids.now pendings.old.pendings } }
{
    for id in ids {
        pendings.take_root(id);
    }
}

// The upgrade rows that the target takes up go.
fn use_up_by(pendings: &mut Pendings, target: &Target)
    ensures { pendings.new ≡ record pendings.old { upgrades = filter (λ u. not (is_taken_up target.now.lock target.now.span u)) pendings.old.upgrades } }
{
    pendings.take_upgrades(target.lock, target.span);
}

/// The upgrade rows that one of the targets takes up go. It takes no memory.
pub fn use_up(pendings: &mut Pendings, targets: &[Target])
    ensures { pendings.new ≡ record pendings.old { upgrades = filter (λ u. not (is_used_up targets.now u)) pendings.old.upgrades } }
{
    for target in targets {
        use_up_by(pendings, target);
    }
}
