//! How long a text gets while a step is taken back or made again.
ghost use Rattle.std.specs.Prelude.{◌≡◌, ◌≤◌, ◌^◌, IfNone, IfSome, map};
ghost use Rattle.mk_splice.specs.Peaks.{most_back, most_forth};
ghost use Rattle.mk_splice.specs.Views.{splice_of};

use crate::splicing::Splice;

/// How many bytes a text of `size` bytes has at most while a step is taken back. `None` where no number of 64 bits holds them.
pub fn peak_back(size: usize, step: &[Splice]) -> Option<usize>
    ensures some { IfSome result (λ most. most ≡ most_back (map splice_of step.now) size) }
    ensures none { IfNone result (2 ^ 64 ≤ most_back (map splice_of step.now) size) }
{
    let mut now = size;
    let mut most = size;
    let mut left = step.len();
    while 0 < left {
        left -= 1;
        let splice = &step[left];
        let kept = now.saturating_sub(splice.new.len());
        let Some(next) = kept.checked_add(splice.old.len()) else {
            return None;
        };
        now = next;
        most = most.max(now);
    }
    Some(most)
}

/// The same while it is made again.
pub fn peak_forth(size: usize, step: &[Splice]) -> Option<usize>
    ensures some { IfSome result (λ most. most ≡ most_forth (map splice_of step.now) size) }
    ensures none { IfNone result (2 ^ 64 ≤ most_forth (map splice_of step.now) size) }
{
    let mut now = size;
    let mut most = size;
    for splice in step {
        let kept = now.saturating_sub(splice.old.len());
        let Some(next) = kept.checked_add(splice.new.len()) else {
            return None;
        };
        now = next;
        most = most.max(now);
    }
    Some(most)
}
